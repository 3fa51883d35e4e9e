// The antivalent wires, each a bit in two words, bit 0 the lowest (own). Those before the limits are contacts of the chain.

/// How many wires the clauses look at. Of the bits above them the levelling gate looks at `LEVEL`, and nothing at the others.
pub const WIRES: u8 = 12;

/// Made where the upper limit of normal travel is not reached (EN 81-20, 5.12.1.5).
pub const UP_LIMIT: u8 = 7;

/// Made where the lower limit of normal travel is not reached (5.12.1.5).
pub const DOWN_LIMIT: u8 = 8;

/// The authorised reset.
pub const RESET: u8 = 9;

/// The reset device outside the well (5.12.1.5).
pub const PIT_RESET: u8 = 10;

/// The drive requests normal motion.
pub const REQUEST: u8 = 11;

/// Levelling with open doors is asked for. No clause looks at it: it stands above the wires that they look at.
pub const LEVEL: u8 = 12;
