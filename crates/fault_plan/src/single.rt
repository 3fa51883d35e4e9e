// A single fault of one channel (own).
use lift_base::{Kind, Side};

/// What a side does wrong. All but the held one fail: from then on the side does nothing of its own.
#[derive(Clone, Copy, Debug, PartialEq, Eq)]
pub enum What {
    /// It stores no word any more.
    Silent,
    /// It stores this word, as its publish and as its command word, in each tick.
    Wrong(u64),
    /// It stores words of this kind with the stamp of the tick, in each tick.
    Fresh(Kind),
    /// It stores the other side's words of the tick.
    Others,
    /// It stores its right words one tick late.
    Last,
    /// It stores its right words.
    Right,
    /// Its contactor gives this kind whatever it is told: it is welded, or, of Off, dropped. It stores its right words.
    Forced(Kind),
    /// It is held for so many ticks: it does none of its steps. It does not fail.
    Held(u32),
    /// It stores no word, and is exchanged so many ticks later.
    Exchanged(u32),
    /// The same, and after it the authorised reset is made for a tick.
    ExchangedAndReset(u32),
}

/// A fault that begins in a tick, from 1.
#[derive(Clone, Copy, Debug, PartialEq, Eq)]
pub struct SingleFault {
    pub tick: u32,
    pub side: Side,
    pub what: What,
}
