// The forms of a script (own).

/// What a script writes down. A replay leaves the steps of the two channels to two threads, a schedule writes each of them. A simulation
/// gives the wires and the true words alone, without frames and faults.
#[derive(Clone, Copy, Debug, PartialEq, Eq)]
pub enum Form {
    Replay,
    Schedule,
    Simulate,
}
