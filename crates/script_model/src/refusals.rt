// Why a text has no script (own).
use lift_config::ConfigFault;

/// The first reason in a text that it has no script.
#[derive(Clone, Copy, Debug, PartialEq, Eq)]
pub enum Refusal {
    /// The head means no settings.
    BadHead(ConfigFault),
    /// The head has 16,387 bytes and no line `%%` among them.
    HeadSize,
    /// The number of a line, counted from 1 over the whole text, and why it is refused.
    Line(u32, LineRefusal),
    /// The text ends before its line `e`.
    NoEnd,
}

/// Why a line is refused.
#[derive(Clone, Copy, Debug, PartialEq, Eq)]
pub enum LineRefusal {
    /// It has none of the forms, or stands where it may not.
    BadLine,
    /// More ticks than the head says.
    TooManyTicks,
    /// The 17th frame of a tick.
    TooManyFrames,
    /// The 65th line of a tick.
    TooManyLines,
    /// It has 201 bytes.
    LineTooLong,
}
