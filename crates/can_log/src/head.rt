// The head of a log's script, which may leave its ticks to the log (own).
ghost use Rattle.std.specs.Prelude.{◌≡◌, ◌≤◌, ◌⊎◌, true, Err, IfOk};
ghost use Rattle.lift_base.specs.declared.limits.TheConstants.{MOST_TICKS};
ghost use Rattle.lift_config.specs.Head.{read_head};
ghost use Rattle.can_log.specs.Heads.{lacks_ticks, head_with, with_a_tick, log_head, most_of, taking_of, settings_of};

use crate::log::Taking;
use lift_base::MOST_TICKS;
use lift_config::{Config, ConfigFault, Key};
use lift_io::NoMemory;
use std::alloc::Global;

/// A head that was read.
#[derive(Clone, Copy, Debug, PartialEq, Eq)]
pub struct Head {
    config: Config,
    is_open: bool,
}

fn lacks_ticks(fault: ConfigFault) -> bool
    ensures { result ≡ lacks_ticks fault }
{
    match fault {
        ConfigFault::Missing(Key::Ticks) => true,
        _ => false,
    }
}

fn with_ticks(config: Config, ticks: u32) -> Config
    requires some { 1 ≤ ticks }
    requires most { ticks ≤ MOST_TICKS }
    ensures { result ≡ record config { ticks = ticks } }
{
    Config { ticks, ..config }
}

fn with_a_tick(alloc: Global, text: &[u8]) -> Result<Vec<u8>, NoMemory>
    ensures { IfOk result (λ longer. longer.items ≡ with_a_tick text.now) }
{
    let Ok(mut longer) = Vec::from_slice(alloc, text) else {
        return Err(NoMemory);
    };
    match longer.extend_from_slice(b"\nticks = 1\n") {
        Ok(()) => Ok(longer),
        Err(_) => Err(NoMemory),
    }
}

/// Reads a head that lacks its ticks, with a line for one.
fn read_open(alloc: Global, text: &[u8]) -> Result<Head, ConfigFault>
    ensures { (result ≡ Err ConfigFault.NoMemory) ⊎ (result ≡ head_with true (read_head (with_a_tick text.now))) }
{
    let Ok(longer) = with_a_tick(alloc, text) else {
        return Err(ConfigFault::NoMemory);
    };
    match Config::read(alloc, &longer) {
        Ok(config) => Ok(Head {
            config,
            is_open: true,
        }),
        Err(fault) => Err(fault),
    }
}

impl Head {
    /// The head that a text means. Where it has no `ticks`, the log says how many there are.
    pub fn read(alloc: Global, text: &[u8]) -> Result<Head, ConfigFault>
        ensures { (result ≡ Err ConfigFault.NoMemory) ⊎ (result ≡ log_head text.now) }
    {
        match Config::read(alloc, text) {
            Ok(config) => Ok(Head {
                config,
                is_open: false,
            }),
            Err(fault) => {
                if lacks_ticks(fault) {
                    read_open(alloc, text)
                } else {
                    Err(fault)
                }
            }
        }
    }

    /// How many ticks a log may have.
    pub fn most(&self) -> u32
        ensures { result ≡ most_of self.now }
    {
        if self.is_open {
            MOST_TICKS
        } else {
            self.config.ticks
        }
    }

    /// How a log is taken where a tick lasts so many milliseconds.
    pub fn taking(&self, milliseconds: u32) -> Taking
        ensures { result ≡ taking_of self.now milliseconds }
    {
        Taking {
            ids: self.config.identifiers(),
            tick: 1000 * u64::from(milliseconds),
            most: self.most(),
        }
    }

    /// The settings of the script of a log with so many ticks. A head that leaves them to the log has as many, and at least one.
    pub fn settings(&self, ticks: u32) -> Config
        requires { ticks ≤ most_of self.now }
        ensures value { result ≡ settings_of self.now ticks }
        ensures room { ticks ≤ result.ticks }
    {
        if self.is_open {
            with_ticks(self.config, ticks.max(1))
        } else {
            self.config
        }
    }
}
