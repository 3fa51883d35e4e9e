//! The head of a script: the settings of a run, as a TOML table with the keys of `Key`.
#![tactic(auto)]

ghost use Rattle.std.specs.Prelude.{◌≡◌, ◌⊎◌, ◌≢◌, ◌<◌, ℕ, Err, None, Some, IfErr, IfSome, get_or};
ghost use Rattle.toml.specs.Errors.{IsBlank};
ghost use Rattle.lift_model.specs.Trace.{identifiers, configured};
ghost use Rattle.lift_config.specs.Head.{key_name, read_head, head_fault};

mod table;

use lift_base::SOURCES;
use std::alloc::Global;
use std::marker::Model;

/// A key of the head. A fault is looked for in this order.
#[derive(Clone, Copy, Debug, PartialEq, Eq)]
pub enum Key {
    Version,
    Ticks,
    Sct,
    Srvt,
    Disc,
    DoorTicks,
    Roof,
    Pit,
    Car,
    Doors,
    Panel,
    Platform,
}

impl Key {
    /// The key as it stands in the head.
    pub fn name(self) -> &'static str
        ensures { result.now ≡ key_name self }
    {
        match self {
            Key::Version => "version",
            Key::Ticks => "ticks",
            Key::Sct => "sct",
            Key::Srvt => "srvt",
            Key::Disc => "disc",
            Key::DoorTicks => "door_ticks",
            Key::Roof => "roof",
            Key::Pit => "pit",
            Key::Car => "car",
            Key::Doors => "doors",
            Key::Panel => "panel",
            Key::Platform => "platform",
        }
    }
}

/// Why a head has no settings.
#[derive(Clone, Copy, Debug, PartialEq, Eq)]
pub enum ConfigFault {
    NotToml,
    Missing(Key),
    /// The value is no integer in its range, or an identifier that an earlier key has.
    BadValue(Key),
    /// The head has a key that is not known.
    Extra,
    NoMemory,
}

/// What the head of a script says. Times are in ticks.
#[derive(Clone, Copy, Debug, PartialEq, Eq)]
pub struct Config {
    /// How many ticks a run has at most, 1 to 200,000.
    pub ticks: u32,
    /// How long a value lives, the safeguard cycle time (EN 50325-5; counted in ticks is own), 1 to 1000.
    pub sct: u32,
    /// How far apart the two frames of a pair are at most, the validation time (EN 50325-5; in ticks is own), 1 to `sct`.
    pub srvt: u32,
    /// How many ticks in a row a wire is discrepant until that is a fault (own), 1 to 1000.
    pub disc: u32,
    /// How many ticks in a row the doors contradict each other until that is a fault (own), 1 to 1000.
    pub door: u32,
    /// The identifiers of the sources' plain frames (own): odd, 257 to 383, and no two the same. The inverted frame has the next.
    pub roof: u16,
    pub pit: u16,
    /// `None` where the car has no station.
    pub car: Option<u16>,
    pub doors: u16,
    pub panel: u16,
    /// `None` where there is no station on the platform.
    pub platform: Option<u16>,
}

impl Model for Config {
    ghost use Rattle.lift_model.specs.Records.{Settings};
    ghost use Rattle.lift_config.specs.Ranges.{IsInRange};

    ghost Value = { Settings };

    ghost view = { λ c. record {
      ticks = c.ticks;
      sct = c.sct;
      srvt = c.srvt;
      disc = c.disc;
      door = c.door;
      roof = c.roof;
      pit = c.pit;
      car = c.car;
      doors = c.doors;
      panel = c.panel;
      platform = c.platform;
    } };

    ghost invariant = { λ c. IsInRange (record {
      ticks = c.ticks;
      sct = c.sct;
      srvt = c.srvt;
      disc = c.disc;
      door = c.door;
      roof = c.roof;
      pit = c.pit;
      car = c.car;
      doors = c.doors;
      panel = c.panel;
      platform = c.platform;
    }) };

    ghost inverse = { λ c. record {
      ticks = c.ticks;
      sct = c.sct;
      srvt = c.srvt;
      disc = c.disc;
      door = c.door;
      roof = c.roof;
      pit = c.pit;
      car = c.car;
      doors = c.doors;
      panel = c.panel;
      platform = c.platform;
    } };
}

ghost use Rattle.lift_config.specs.Ranges.{IsInRange};

impl Config {
    /// Every config keeps its ranges.
    pub fn known(&self)
        ensures { IsInRange self.now }
    {
        let _ticks = self.ticks;
    }

    /// The plain identifiers of the sources, in their order.
    pub fn identifiers(&self) -> [Option<u16>; SOURCES]
        ensures value { result ≡ identifiers self.now }
        ensures below { (i : ℕ) → IfSome (get_or result i None) (λ id. id < 2048) }
    {
        [
            Some(self.roof),
            Some(self.pit),
            self.car,
            Some(self.doors),
            Some(self.panel),
            self.platform,
        ]
    }

    /// Of each source, in their order, whether it is configured.
    pub fn configured(&self) -> [bool; SOURCES]
        ensures { result ≡ configured self.now }
    {
        [
            true,
            true,
            self.car.is_some(),
            true,
            true,
            self.platform.is_some(),
        ]
    }

    /// The config that the text of a head means. Else its first fault: no TOML, then the keys in their order, then a further key.
    pub fn read(alloc: Global, head: &[u8]) -> Result<Config, ConfigFault>
        ensures meaning { (result ≡ Err ConfigFault.NoMemory) ⊎ (result ≡ read_head head.now) }
        ensures fault { IfErr result (λ e. e ≢ ConfigFault.NoMemory → head_fault head.now ≡ Some e) }
        ensures memory { result ≡ Err ConfigFault.NoMemory → ¬ IsBlank head.now }
    {
        match toml::table_from_slice(alloc, head) {
            Ok(table) => table::config_of(&table),
            Err(fault) => {
                if fault.is_memory() {
                    return Err(ConfigFault::NoMemory);
                }
                Err(ConfigFault::NotToml)
            }
        }
    }
}
