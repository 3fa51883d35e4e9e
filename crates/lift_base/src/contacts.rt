// Contacts of the safety chain that rules name (EN 81-20, 5.11.2; which there are, and their order, is own), and the sets of them
// that are not looked at.

/// What emergency electrical operation makes inoperative: governor, final limit, ascending car protection, buffers, slack rope,
/// safety gear (5.12.1.6).
pub const EMERGENCY_SET: u16 = 0x043E;

/// What the bypass of the car door makes inoperative (5.12.1.8).
pub const CAR_DOOR_SET: u16 = 0x0800;

/// What the bypass of the landing doors makes inoperative: landing doors and landing locks (5.12.1.8).
pub const LANDING_SET: u16 = 0x3000;

/// What the clause on wires names where no wire is discrepant and a contact fault stands; a wire's number is below it.
pub const CONTACT_FAULT: u8 = 16;

/// The number of the clause on the chain, whose detail is the first open contact (EN 81-20, 5.11.2; the number is own).
pub const CHAIN_CLAUSE: u8 = 7;

/// The contact of the car door.
pub const CAR_DOOR_CONTACT: u8 = 11;

/// The contact of the landing doors.
pub const LANDING_DOORS_CONTACT: u8 = 12;

/// The contact of the landing doors' locks.
pub const LANDING_LOCKS_CONTACT: u8 = 13;

/// The contact of the stop on the working platform, the last of the chain.
pub const PLATFORM_STOP_CONTACT: u8 = 14;
