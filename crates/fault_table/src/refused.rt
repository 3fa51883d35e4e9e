// Why there is no table, with its status and its text (own).
use csv::Error;
use fault_runs::NoRun;
use fault_script::ScriptFault;
use lift_config::ConfigFault;
use lift_io::NoMemory;
use std::io;
use std::io::ErrorKind;

/// Why there is no table.
#[derive(Clone, Copy, Debug, PartialEq, Eq)]
pub enum Refused {
    NoMemory,
    Script(ScriptFault),
    /// A line of the script gives a side a fault already.
    HasFaults,
    /// There is no fault with this number, or the first number is above the second.
    NoFault,
    /// The input or the output failed.
    Device,
    /// A step of a round was not possible. No script leads to it.
    Step,
}

fn head_name(fault: ConfigFault) -> &'static str {
    match fault {
        ConfigFault::NotToml => "toml",
        ConfigFault::Missing(key) | ConfigFault::BadValue(key) => key.name(),
        ConfigFault::Extra => "extra",
        ConfigFault::NoMemory => "memory",
    }
}

impl From<NoRun> for Refused {
    fn from(none: NoRun) -> Refused {
        match none {
            NoRun::NoMemory => Refused::NoMemory,
            NoRun::HasFaults => Refused::HasFaults,
            NoRun::NoFault => Refused::NoFault,
            NoRun::Step => Refused::Step,
        }
    }
}

impl Refused {
    /// The exit status.
    pub fn status(self) -> u8 {
        match self {
            Refused::NoMemory | Refused::Script(ScriptFault::NoMemory) => 1,
            Refused::NoFault => 2,
            Refused::Script(_) => 3,
            Refused::HasFaults => 4,
            Refused::Step => 5,
            Refused::Device => 15,
        }
    }

    /// The number of the script's line that is refused.
    pub fn line(self) -> Option<u32> {
        match self {
            Refused::Script(ScriptFault::BadLine(line))
            | Refused::Script(ScriptFault::TooManyTicks(line))
            | Refused::Script(ScriptFault::TooManyFrames(line))
            | Refused::Script(ScriptFault::TooManyLines(line))
            | Refused::Script(ScriptFault::LineTooLong(line)) => Some(line),
            _ => None,
        }
    }

    /// The key at which the script's head is refused, or what else is wrong with the head.
    pub fn key(self) -> Option<&'static str> {
        match self {
            Refused::Script(ScriptFault::BadHead(fault)) => Some(head_name(fault)),
            Refused::Script(ScriptFault::HeadSize) => Some("size"),
            _ => None,
        }
    }

    /// What is wrong.
    pub fn text(self) -> &'static str {
        match self {
            Refused::NoMemory | Refused::Script(ScriptFault::NoMemory) => "no memory",
            Refused::NoFault => "there is no fault with this number",
            Refused::HasFaults => "the script has a line that gives a side a fault",
            Refused::Step => "a step of a round was not possible",
            Refused::Device => "the input or the output failed",
            Refused::Script(ScriptFault::BadHead(_)) => "the head is bad",
            Refused::Script(ScriptFault::HeadSize) => "the head is too long",
            Refused::Script(ScriptFault::BadLine(_)) => "no line of a replay",
            Refused::Script(ScriptFault::TooManyTicks(_)) => "more ticks than the head says",
            Refused::Script(ScriptFault::TooManyFrames(_)) => "a 17th frame in a tick",
            Refused::Script(ScriptFault::TooManyLines(_)) => "a 65th line in a tick",
            Refused::Script(ScriptFault::LineTooLong(_)) => "a line of more than 200 bytes",
            Refused::Script(ScriptFault::NoEnd) => "the script has no end",
        }
    }

    /// A device's error.
    pub fn of_device(error: io::Error) -> Refused {
        if error.kind() == ErrorKind::OutOfMemory {
            Refused::NoMemory
        } else {
            Refused::Device
        }
    }

    /// There was no memory.
    pub fn of_memory(_none: NoMemory) -> Refused {
        Refused::NoMemory
    }

    /// An error of a table in memory.
    pub fn of_table(_error: Error) -> Refused {
        Refused::NoMemory
    }
}
