// The bits of the doors' value, bit 0 the lowest (own).

/// The contact of the car door.
pub const CAR_DOOR: u8 = 0;

/// The contact of the landing doors.
pub const LANDING_DOORS: u8 = 1;

/// The contact of the landing doors' locks.
pub const LANDING_LOCKS: u8 = 2;

/// The separate signal that shows the car door closed (EN 81-20, 5.12.1.8).
pub const MONITOR: u8 = 3;

/// The car is in the unlocking zone.
pub const ZONE: u8 = 4;

/// The car door is open.
pub const DOOR_OPEN: u8 = 5;

/// The landing lock is released.
pub const LOCK_RELEASED: u8 = 6;
