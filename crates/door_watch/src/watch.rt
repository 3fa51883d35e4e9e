// Door contacts and the separate signal are checked while the car stands in the unlocking zone with the car door open
// and the landing lock released; a failure prevents normal operation (EN 81-20, 5.12.1.9). The exact form is own: the
// doors are faulty from a tick that ends `door` ticks in a row in which one of them is made all the same, until the
// authorised reset rises at a later tick.
ghost use Rattle.std.specs.Prelude.{◌≡◌, ℕ, ◌≤◌, ◌∷◌, [], ◌++◌, ◌||◌, List};
ghost use Rattle.lift_model.specs.Chain.{source_has};
ghost use Rattle.lift_model.specs.Latches.{is_door_stuck};
ghost use Rattle.lift_model.specs.Watched.{WatchedTick, are_faulty_over};

use chain_table::{Image, latch_after, row_after};
use lift_base::DOORS;
use lift_base::door_bits::{
    CAR_DOOR, DOOR_OPEN, LANDING_DOORS, LANDING_LOCKS, LOCK_RELEASED, MONITOR, ZONE,
};

/// The monitoring of the doors.
#[derive(Drop)]
pub struct DoorWatch {
    door: u32,
    /// For how many ticks in a row a contact was stuck, counted up to `door`.
    row: u32,
    faulty: bool,
}

/// Whether a contact or the monitor is made while the car stands open in the zone with the lock released.
pub fn is_stuck(image: &Image) -> bool
    ensures { result ≡ is_door_stuck image.now }
{
    image.bit(DOORS, ZONE)
        && image.bit(DOORS, DOOR_OPEN)
        && image.bit(DOORS, LOCK_RELEASED)
        && is_one_made(image)
}

fn is_one_made(image: &Image) -> bool
    ensures { result ≡ (source_has image.now DOORS CAR_DOOR || source_has image.now DOORS LANDING_DOORS
        || source_has image.now DOORS LANDING_LOCKS
        || source_has image.now DOORS MONITOR) }
{
    image.bit(DOORS, CAR_DOOR)
        || image.bit(DOORS, LANDING_DOORS)
        || image.bit(DOORS, LANDING_LOCKS)
        || image.bit(DOORS, MONITOR)
}

impl DoorWatch {
    ghost use Rattle.door_watch.specs.StandsFor.{StandsFor};

    /// Before the first tick. `door` is the number of ticks in a row after which a stuck contact is a fault.
    pub fn new(door: u32) -> DoorWatch
        requires { 1 ≤ door }
        ensures { StandsFor result door [] }
    {
        DoorWatch {
            door,
            row: 0,
            faulty: false,
        }
    }

    /// Takes the next tick: its image, and whether the authorised reset rises. A row that goes on ends again at each
    /// tick, and a reset clears the fault and never the row.
    pub fn tick(&mut self, image: &Image, reset_rise: bool)
        ensures { (door : ℕ) (ticks : List WatchedTick) → StandsFor self.old door ticks
            → StandsFor self.new door (ticks ++ record { image = image.now; rise = reset_rise } ∷ []) }
    {
        let row = row_after(self.row, self.door, is_stuck(image));
        self.row = row;
        self.faulty = latch_after(self.faulty, row == self.door, reset_rise);
    }

    /// Whether the doors are faulty at the last tick.
    pub fn faulty(&self) -> bool
        ensures { (door : ℕ) (ticks : List WatchedTick) → StandsFor self.now door ticks → result ≡ are_faulty_over door ticks }
    {
        self.faulty
    }
}
