// The rule of the board as the table takes it, with what each step tells the one who makes it.
ghost use Rattle.round_board.specs.Rule.{Ruled};
ghost use Rattle.round_board.specs.Moves.{starting, begins, publishes, sees, notes, commands, ends, raises, reads, made, seat_of, pass_note, receipt_note, with_pass, with_receipt, side_if};
ghost use Rattle.round_board.specs.Points.{S, OneViewOfEachRole, SeatsWereMade, WordsAreLastStores, TicksAreNear, NotesAreTheirOwners, ReceiptsHaveEnded, DoneMeansEnded, TakenWordsStand, KeptWordsStand, LoadedIsThePeers, OneOfTwoLoads};
ghost use Rattle.round_board.specs.declared.view.View.TheVariants.{Spent};

use crate::view::View;
use atomic_table::{Join, Play, Seat, Split, Table, TableRule};
use std::alloc::Global;

/// The rule: one state of the round stands behind all words and views.
pub struct Rule;

impl TableRule<(), View, ()> for Rule {
    ghost holds = { λ _. Ruled };

    ghost first = { λ _. starting };
}

/// The points of the rule, which follow from the one state behind the words and the views.
pub(crate) fn points_of_the_rule()
    ensures one_view { (s : S) → Ruled s → OneViewOfEachRole s }
    ensures made_before { (s : S) → Ruled s → SeatsWereMade s }
    ensures last_stores { (s : S) → Ruled s → WordsAreLastStores s }
    ensures near { (s : S) → Ruled s → TicksAreNear s }
    ensures owners_notes { (s : S) → Ruled s → NotesAreTheirOwners s }
    ensures ended_receipts { (s : S) → Ruled s → ReceiptsHaveEnded s }
    ensures done_ended { (s : S) → Ruled s → DoneMeansEnded s }
    ensures taken_stand { (s : S) → Ruled s → TakenWordsStand s }
    ensures kept_stand { (s : S) → Ruled s → KeptWordsStand s }
    ensures loaded_peers { (s : S) → Ruled s → LoadedIsThePeers s }
    ensures one_of_two { (s : S) → Ruled s → OneOfTwoLoads s }
{}

/// The ten words of a board.
pub type Words = Table<(), View, (), Rule, Global>;

/// A seat at the words, which knows a view of them.
pub type Place = Seat<(), View>;

/// A side loads the tick.
pub struct Begin;

impl Play<(), View> for Begin {
    ghost then = { begins };
}

/// A side stores its publish word.
pub struct Publish;

impl Play<(), View> for Publish {
    ghost then = { publishes };
}

/// A side loads its peer's publish word.
pub struct See;

impl Play<(), View> for See {
    ghost then = { sees };
}

/// A side stores what it loaded as seen.
pub struct Note;

impl Play<(), View> for Note {
    ghost then = { notes };
}

/// A side stores its command word.
pub struct Command;

impl Play<(), View> for Command {
    ghost then = { commands };
}

/// A side stores done.
pub struct End;

impl Play<(), View> for End {
    ghost then = { ends };
}

/// The conductor stores the tick.
pub struct Raise;

impl Play<(), View> for Raise {
    ghost then = { raises };
}

/// The conductor loads a word, once both receipts are taken.
pub struct Read;

impl Play<(), View> for Read {
    ghost then = { reads };
}

/// Makes the seat of A, or else that of B, from the first seat, which is the conductor's from then on.
pub struct Make<const FIRST: bool>;

impl<const FIRST: bool> Split<View> for Make<FIRST> {
    ghost left = { made (side_if FIRST) };

    ghost right = { λ _. seat_of (side_if FIRST) };
}

/// Gives the pass of A, or else that of B.
pub struct GivePass<const FIRST: bool>;

impl<const FIRST: bool> Split<View> for GivePass<FIRST> {
    ghost left = { λ v. v };

    ghost right = { pass_note (side_if FIRST) };
}

/// Gives the receipt of a side that has ended its tick.
pub struct GiveReceipt;

impl Split<View> for GiveReceipt {
    ghost left = { λ v. v };

    ghost right = { receipt_note };
}

/// A side takes in its pass, which is spent.
pub struct TakePass;

impl Join<View> for TakePass {
    ghost both = { with_pass };

    ghost spent = { Spent };
}

/// The conductor takes in a receipt, which is spent.
pub struct TakeReceipt;

impl Join<View> for TakeReceipt {
    ghost both = { with_receipt };

    ghost spent = { Spent };
}
