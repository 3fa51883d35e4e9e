// The places of the sources in an image (own): the source with number j has the place j - 1.

/// The station on the car roof (EN 81-20, 5.12.1.5), with its stop and the safety gear.
pub const ROOF: usize = 0;

/// The station in the pit (5.12.1.5), with its stop.
pub const PIT: usize = 1;

/// The station in the car (5.12.1.5), with its stop. It may not be there.
pub const CAR: usize = 2;

/// The contacts and switches of the doors.
pub const DOORS: usize = 3;

/// The panel outside the well: emergency electrical operation (5.12.1.6) and the door bypass (5.12.1.8).
pub const PANEL: usize = 4;

/// The station on the working platform (5.12.1.5), with its stop. It may not be there.
pub const PLATFORM: usize = 5;
