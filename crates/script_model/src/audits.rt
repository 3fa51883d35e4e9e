// What an audit says of a run (own).

/// A valid pair whose value is not its source's true word of the plain frame's tick: the tick of its inverted frame, from 1, and the
/// number of the source, 1 to 6.
#[derive(Clone, Copy, Debug, PartialEq, Eq)]
pub struct Wrong {
    pub tick: u32,
    pub source: u8,
}

/// Whether the frames of a run were true, how old what it stood on was, and how often no side was healthy.
#[derive(Clone, Copy, Debug, PartialEq, Eq)]
pub struct Audit {
    /// The first such pair, by the place of its inverted frame in the trace. None: exactly where the trace is genuine.
    pub wrong: Option<Wrong>,
    /// The most ticks that a value behind power was old at the sample of a healthy side. None: exactly where there is no such value.
    pub oldest: Option<u32>,
    /// How many ticks have power on and no healthy side.
    pub unhealthy: u32,
}
