// The bits of the panel's value, bit 0 the lowest (own).

/// The switch of emergency electrical operation (EN 81-20, 5.12.1.6).
pub const EMERGENCY: u8 = 0;

/// Its button up.
pub const EMERGENCY_UP: u8 = 1;

/// Its button down.
pub const EMERGENCY_DOWN: u8 = 2;

/// The bypass of the car door's contact (5.12.1.8).
pub const BYPASS_CAR: u8 = 3;

/// The bypass of the landing doors' contacts (5.12.1.8).
pub const BYPASS_LANDING: u8 = 4;
