// What those at the board know, down to the single steps. No value of these types is ever made: they stand in proofs alone.
use crate::tally::Tally;
use crate::words::SideWords;
use lift_base::Side;

/// What a side did, down to the single steps.
pub struct Track {
    pub tally: Tally,
    /// It has loaded its peer's publish word in its tick.
    pub looked: bool,
    /// What it loaded.
    pub loaded: u64,
}

/// What the conductor knows of a side.
pub struct Known {
    /// Its seat was made.
    pub made: bool,
    /// Its receipt of the tick last raised was taken.
    pub told: bool,
    /// Its words as they stood when the tick was raised.
    pub was: SideWords,
    /// What its last receipt told.
    pub now: Track,
}

/// What the conductor knows.
pub struct Lead {
    pub tick: u64,
    pub a: Known,
    pub b: Known,
}

/// What one at the board knows: the conductor, a channel with its last pass, a pass, a receipt, or a note that was taken in.
pub enum View {
    Leads(Lead),
    Acts(Side, u64, Track),
    Passed(Side, u64),
    Ended(Side, Track),
    Spent,
}
