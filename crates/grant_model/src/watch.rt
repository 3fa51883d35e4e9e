// What watches the images, tick by tick: the wires, the pit latch and the monitoring of the doors.
ghost use Rattle.std.specs.Prelude.{◌≡◌, ◌≤◌, ◌∷◌, [], ◌++◌, List, length};
ghost use Rattle.lift_model.specs.Records.{Settings, InputData};
ghost use Rattle.lift_model.specs.Trace.{image_at_end, words_of};
ghost use Rattle.lift_model.specs.Wires.{rises, has_contact_fault};
ghost use Rattle.lift_model.specs.Latches.{is_pit_latched, are_doors_faulty};

use chain_table::Image;
use contact_input::Wires;
use door_watch::DoorWatch;
use lift_base::{PIT_RESET, RESET};
use pit_reset::PitLatch;

/// The wires and the latches.
#[derive(Drop)]
pub struct Watch {
    wires: Wires,
    pit: PitLatch,
    doors: DoorWatch,
}

impl Watch {
    ghost use Rattle.grant_model.specs.Watched.{Watched};

    /// Before the first tick. `disc` and `door` are the numbers of ticks in a row after which a discrepant wire, or a stuck
    /// door contact, is a fault.
    pub fn new(disc: u32, door: u32) -> Watch
        requires disc { 1 ≤ disc }
        requires door { 1 ≤ door }
        ensures { (config : Settings) → disc ≡ config.disc → door ≡ config.door → Watched result config [] }
    {
        Watch {
            wires: Wires::new(disc),
            pit: PitLatch::new(),
            doors: DoorWatch::new(door),
        }
    }

    /// Takes the image of the next tick.
    pub fn tick(&mut self, image: &Image)
        ensures { (config : Settings) (inputs : List InputData) (x : InputData) → image.now ≡ image_at_end config (inputs ++ x ∷ [])
            → Watched self.old config inputs → Watched self.new config (inputs ++ x ∷ []) }
    {
        self.wires.tick(image.a, image.b);
        self.pit.tick(image, self.wires.rose(PIT_RESET));
        self.doors.tick(image, self.wires.rose(RESET));
    }

    /// Whether the authorised reset rises at the last tick.
    pub fn reset_rises(&self) -> bool
        ensures { (config : Settings) (inputs : List InputData) → Watched self.now config inputs
            → result ≡ rises (words_of inputs) RESET (length inputs) }
    {
        self.wires.rose(RESET)
    }

    /// Whether a contact fault stands.
    pub fn has_contact_fault(&self) -> bool
        ensures { (config : Settings) (inputs : List InputData) → Watched self.now config inputs
            → result ≡ has_contact_fault config.disc (words_of inputs) (length inputs) }
    {
        self.wires.faulted()
    }

    /// Whether the pit is latched at the last tick that was taken: its station was at INSPECTION, and no good reset came since (5.12.1.5).
    pub fn is_pit_latched(&self) -> bool
        ensures { (config : Settings) (inputs : List InputData) → Watched self.now config inputs → result ≡ is_pit_latched config inputs }
    {
        self.pit.latched()
    }

    /// Whether the door contacts are faulty at the last tick that was taken (5.12.1.9).
    pub fn are_doors_faulty(&self) -> bool
        ensures { (config : Settings) (inputs : List InputData) → Watched self.now config inputs → result ≡ are_doors_faulty config inputs }
    {
        self.doors.faulty()
    }
}
