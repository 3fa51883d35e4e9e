// The numbers of words and decisions that rules name (own).

/// For how many ticks after its stamp a command still stands.
pub const COMMAND_AGE: u32 = 2;

/// How many rounds of one kind in a row lock a supervisor, or make it command Off once.
pub const TOO_MANY: u8 = 3;

// The reasons of a command Off, beside the clauses 1 to 12.

/// The seen word did not match.
pub const COMPARE: u8 = 13;

/// The supervisor is locked.
pub const LOCKED: u8 = 14;

/// A contactor was closed before a start.
pub const CONTACTOR_CLOSED: u8 = 15;

/// Another kind was commanded before.
pub const CHANGEOVER: u8 = 16;

/// A contactor stayed open.
pub const CONTACTOR_OPEN: u8 = 17;
