// What a script may have (own).

/// The most ticks of a run.
pub const MOST_TICKS: u32 = 200_000;

/// The most ticks of a run whose head has version 1.
pub const MOST_TICKS_BEFORE: u32 = 100_000;

/// The most ticks of a span that a head gives: cycle times, and the lengths of rows.
pub const LONGEST_SPAN: u32 = 1000;

/// The most frames of one tick.
pub const MOST_FRAMES: usize = 16;

/// The most lines of one tick other than those that tell ticks or the end.
pub const MOST_LINES: u32 = 64;

/// The most bytes of a line after the head, its line feed not counted.
pub const LONGEST_LINE: usize = 200;

/// The byte of a text at which a head that has no end among the bytes so far is too long.
pub const HEAD_TOO_LONG: usize = 16_387;
