// Return from pit inspection needs a reset outside the well (EN 81-20, 5.12.1.5). The exact form is own: the pit is
// latched at each tick at which its station inspects, and cleared by a good reset: a tick at which the reset device
// rises, the pit stands at NORMAL with its stop made, and the landing doors are closed and locked.
ghost use Rattle.std.specs.Prelude.{◌≡◌, ◌∷◌, [], ◌++◌, ◌&&◌, List};
ghost use Rattle.lift_model.specs.Latches.{is_pit_inspecting, is_good_for_pit_reset};
ghost use Rattle.lift_model.specs.Watched.{WatchedTick, is_latched_over};

use chain_table::{Image, latch_after};
use lift_base::door_bits::{LANDING_DOORS, LANDING_LOCKS};
use lift_base::station_bits::{INSPECTION, STOP};
use lift_base::{DOORS, PIT};

/// The pit latch.
#[derive(Drop)]
pub struct PitLatch {
    latched: bool,
}

/// Whether the station in the pit stands at INSPECTION. Without a value it does not.
pub fn is_inspecting(image: &Image) -> bool
    ensures { result ≡ is_pit_inspecting image.now }
{
    image.bit(PIT, INSPECTION)
}

/// Whether a reset at this image is good: the pit at NORMAL with its stop made, the landing doors closed and locked.
pub fn is_good_for_reset(image: &Image) -> bool
    ensures { result ≡ is_good_for_pit_reset image.now }
{
    image.values[PIT].is_some()
        && !image.bit(PIT, INSPECTION)
        && image.bit(PIT, STOP)
        && image.bit(DOORS, LANDING_DOORS)
        && image.bit(DOORS, LANDING_LOCKS)
}

fn is_good_reset(image: &Image, pr_rise: bool) -> bool
    ensures { result ≡ (pr_rise && is_good_for_pit_reset image.now) }
{
    pr_rise && is_good_for_reset(image)
}

impl PitLatch {
    ghost use Rattle.pit_reset.specs.StandsFor.{StandsFor};

    /// Before the first tick: not latched.
    pub fn new() -> PitLatch
        ensures { StandsFor result [] }
    {
        PitLatch { latched: false }
    }

    /// Takes the next tick: its image, and whether the reset device outside the well rises.
    pub fn tick(&mut self, image: &Image, pr_rise: bool)
        ensures { (ticks : List WatchedTick) → StandsFor self.old ticks
            → StandsFor self.new (ticks ++ record { image = image.now; rise = pr_rise } ∷ []) }
    {
        let cleared = is_good_reset(image, pr_rise);
        self.latched = latch_after(self.latched, is_inspecting(image), cleared);
    }

    /// Whether the pit is latched at the last tick.
    pub fn latched(&self) -> bool
        ensures { (ticks : List WatchedTick) → StandsFor self.now ticks → result ≡ is_latched_over ticks }
    {
        self.latched
    }
}
