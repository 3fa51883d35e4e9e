// The codes of the reasons that the report alone gives: no command word has them (own).

/// The command is of a later tick, or counts no more.
pub const STALE: u8 = 18;

/// The contactor is forced.
pub const FORCED: u8 = 19;

/// The two sides give different kinds.
pub const KINDS_DIFFER: u8 = 20;

/// A failed side's word gives a reason that no command has.
pub const UNKNOWN: u8 = 21;
