// What the levelling gate lets through above the settled power (own).

/// A supply: none, the power of its kind, or power for levelling with open doors.
#[derive(Clone, Copy, Debug, PartialEq, Eq)]
pub enum Supply {
    Off,
    Full,
    Up,
    Down,
    Level,
}
