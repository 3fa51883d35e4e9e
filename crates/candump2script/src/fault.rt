// Why there is no script, with its status and its text (own).
use can_log::{LogFault, Refusal};
use lift_config::ConfigFault;
use std::io::ErrorKind;
use std::{fmt, io};

/// What the program reads from or writes to.
#[derive(Clone, Copy, Debug, PartialEq, Eq)]
pub enum Device<'a> {
    /// A file, by the path that the words give.
    File(&'a str),
    Input,
    Output,
    /// Standard error, on which it tells of the log.
    Messages,
}

impl<'a> Device<'a> {
    fn name(self) -> &'a str {
        match self {
            Device::File(path) => path,
            Device::Input => "standard input",
            Device::Output => "standard output",
            Device::Messages => "standard error",
        }
    }
}

/// Why there is no script.
#[derive(Clone, Copy, Debug, PartialEq, Eq)]
pub enum Fault<'a> {
    NoMemory,
    /// This failed.
    Device(Device<'a>),
    Head(ConfigFault),
    /// A line of the wires' file, counted from 1.
    Row(u64),
    /// A row whose time is before that of the row above it.
    RowGoesBack(u64),
    Log(u64, Refusal),
}

impl<'a> Fault<'a> {
    /// The exit status.
    pub fn status(self) -> u8 {
        match self {
            Fault::NoMemory | Fault::Head(ConfigFault::NoMemory) => 1,
            Fault::Head(_) => 3,
            Fault::Row(_) | Fault::RowGoesBack(_) => 4,
            Fault::Log(_, _) => 5,
            Fault::Device(_) => 15,
        }
    }

    // The number of the line that is refused.
    fn line(self) -> Option<u64> {
        match self {
            Fault::Row(line) | Fault::RowGoesBack(line) | Fault::Log(line, _) => Some(line),
            Fault::NoMemory | Fault::Device(_) | Fault::Head(_) => None,
        }
    }

    // The key of the head that is refused.
    fn key(self) -> Option<&'static str> {
        match self {
            Fault::Head(ConfigFault::Missing(key) | ConfigFault::BadValue(key)) => Some(key.name()),
            _ => None,
        }
    }

    // What is wrong.
    fn text(self) -> &'static str {
        match self {
            Fault::NoMemory | Fault::Head(ConfigFault::NoMemory) => "no memory",
            Fault::Device(Device::File(_) | Device::Input) => "cannot be read",
            Fault::Device(Device::Output | Device::Messages) => "cannot be written",
            Fault::Head(ConfigFault::NotToml) => "the head is not TOML",
            Fault::Head(ConfigFault::Missing(_)) => "the head lacks the key",
            Fault::Head(ConfigFault::BadValue(_)) => "the head has a bad value of the key",
            Fault::Head(ConfigFault::Extra) => "the head has a key that is not known",
            Fault::Row(_) => "no row of the wires",
            Fault::RowGoesBack(_) => "the time of a row goes back",
            Fault::Log(_, Refusal::NoLogLine) => "no line of a log",
            Fault::Log(_, Refusal::TimeGoesBack) => "the time goes back",
            Fault::Log(_, Refusal::TooManyTicks) => "more ticks than the head says",
            Fault::Log(_, Refusal::TooManyFrames) => "a 17th frame in a tick",
        }
    }

    /// The error of a device.
    pub fn of_device(device: Device<'a>, error: io::Error) -> Fault<'a> {
        if error.kind() == ErrorKind::OutOfMemory {
            Fault::NoMemory
        } else {
            Fault::Device(device)
        }
    }

    /// A log's fault.
    pub fn of_log(fault: LogFault) -> Fault<'a> {
        match fault {
            LogFault::Line(line, why) => Fault::Log(line, why),
            LogFault::NoMemory => Fault::NoMemory,
        }
    }
}

impl fmt::Display for Fault<'_> {
    fn fmt<W: fmt::Write>(&self, f: &mut fmt::Formatter<W>) -> fmt::Result {
        if let Some(line) = self.line() {
            write!(f, "line {line}: ")?;
        }
        if let Fault::Device(device) = self {
            write!(f, "{} ", device.name())?;
        }
        f.write_str(self.text())?;
        match self.key() {
            Some(key) => write!(f, " {key}"),
            None => Ok(()),
        }
    }
}
