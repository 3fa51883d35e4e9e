// Which of the two words a side sees that looks at the other in a round (own).
ghost use Rattle.std.specs.Prelude.{◌≡◌};
ghost use Rattle.fault_runs.specs.Rounds.{first_of};

use lift_base::Side;

/// The three orders of the looks that a round may take.
#[derive(Clone, Copy, Debug, PartialEq, Eq)]
pub enum Looks {
    /// Both sides see the other's new word.
    BothNew,
    /// A sees the word that B stored before this round.
    AOld,
    /// B sees the word that A stored before this round.
    BOld,
}

/// All of them, in the order of the table.
pub const ALL_LOOKS: [Looks; 3] = [Looks::BothNew, Looks::AOld, Looks::BOld];

impl Looks {
    /// Its name in the table.
    pub fn name(self) -> &'static str {
        match self {
            Looks::BothNew => "both_new",
            Looks::AOld => "a_old",
            Looks::BOld => "b_old",
        }
    }

    /// The side that moves first where not both act as healthy sides: the one that is to see the old word, and else the one that does not
    /// look as a healthy side.
    pub fn first(self, a_acts: bool) -> Side
        ensures { result ≡ first_of self a_acts }
    {
        match self {
            Looks::AOld => Side::A,
            Looks::BOld => Side::B,
            Looks::BothNew => { if a_acts { Side::B } else { Side::A } }
        }
    }
}
