// What may happen in a block of a generated script (own).

/// What happens in one block of 200 ticks of a generated script.
#[derive(Clone, Copy, Debug, PartialEq, Eq)]
pub enum Case {
    /// The drive requests, and the pit is reset meanwhile.
    Ride,
    /// The doors are open in the zone between two requests.
    OpenDoors,
    /// The station on the car roof moves the car up.
    RoofStation,
    /// Emergency operation moves the car up, with the governor off.
    Emergency,
    /// The stations on the car roof and in the pit both move the car down.
    TwoStations,
    /// The governor comes off while the drive requests.
    GovernorTrip,
}
