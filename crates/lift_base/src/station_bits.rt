// The bits of a station's value, bit 0 the lowest (own).

/// The switch stands at INSPECTION (EN 81-20, 5.12.1.5).
pub const INSPECTION: u8 = 0;

/// The button RUN.
pub const RUN: u8 = 1;

/// The button UP.
pub const UP: u8 = 2;

/// The button DOWN.
pub const DOWN: u8 = 3;

/// The contact of the stopping device, made where it is inactive.
pub const STOP: u8 = 4;

/// The contact of the safety gear, of the station on the roof alone.
pub const SAFETY_GEAR: u8 = 5;
