//! The lines of a script, and what a text of them means.
#![tactic(auto)]

mod acts;
mod audits;
mod cases;
mod reasons;
mod refusals;
mod sides;

pub use acts::Act;
pub use audits::{Audit, Wrong};
use can_frame::Frame;
pub use cases::Case;
use lift_base::Side;
pub use reasons::{FORCED, KINDS_DIFFER, STALE, UNKNOWN};
pub use refusals::{LineRefusal, Refusal};
pub use sides::{SideLine, Standing};

/// One line of a script. A line of no form is no `Line`.
#[derive(Clone, Copy, Debug, PartialEq, Eq)]
pub enum Line {
    /// `t` or `t N`: this many ticks, 1 to 200,000.
    Tick(u32),
    /// `e`: the end.
    End,
    /// Any other line.
    Entry(Entry),
}

/// A line other than `t`, `t N` and `e`. One tick has at most 64 of them.
#[derive(Clone, Copy, Debug, PartialEq, Eq)]
pub enum Entry {
    /// An empty line, or one that begins with `#`.
    Blank,
    /// `f FRAME`.
    Frame(Frame),
    /// `w H4 H4`: the wire words a and b from this tick on.
    Wires(u16, u16),
    /// `u J H4`: the true word of source J, 1 to 6, from this tick on.
    Truth(u8, u16),
    /// Any line of one side.
    OfSide(Side, SideLine),
}
