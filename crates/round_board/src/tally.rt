// What contracts say of a side. No value of it is ever made.
use crate::words::SideWords;

/// What a side did in the last tick that it began.
pub struct Tally {
    /// The tick that it began last, 0 before the first.
    pub tick: u64,
    /// The tick that it ended last.
    pub ended: u64,
    /// Its words as they stood before that tick.
    pub stood: SideWords,
    /// The words that it stored in that tick.
    pub publish: Option<u64>,
    pub seen: Option<u64>,
    pub command: Option<u64>,
    /// It looked in that tick, and had published before.
    pub published_first: bool,
}
