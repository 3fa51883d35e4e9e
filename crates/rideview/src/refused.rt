// Why there is no page, with the status and the text of `replay` (own).
ghost use Rattle.std.specs.Prelude.{◌≡◌};
ghost use Rattle.rideview.specs.declared.refused.Refused.TheVariants.{Memory};

use fault_script::ScriptFault;
use lift_config::ConfigFault;
use lift_io::NoMemory;
use script_model::{LineRefusal, Refusal};
use std::alloc::{AllocError, Global};
use std::fmt::Write;

/// Why there is no page.
#[derive(Clone, Copy, Debug, PartialEq, Eq)]
pub enum Refused {
    Memory,
    /// The input failed.
    Read,
    /// The output failed.
    Write,
    /// The text has no script.
    Text(Refusal),
}

impl From<NoMemory> for Refused {
    ghost from_gives = { λ _ refused. refused ≡ Memory };

    fn from(_: NoMemory) -> Self {
        Refused::Memory
    }
}

impl From<AllocError> for Refused {
    ghost from_gives = { λ _ refused. refused ≡ Memory };

    fn from(_: AllocError) -> Self {
        Refused::Memory
    }
}

fn text_status(refusal: Refusal) -> u8 {
    match refusal {
        Refusal::BadHead(_) | Refusal::HeadSize => 5,
        Refusal::Line(_, LineRefusal::BadLine) => 6,
        Refusal::Line(_, LineRefusal::LineTooLong) => 8,
        Refusal::Line(_, _) => 7,
        Refusal::NoEnd => 9,
    }
}

fn head_name(fault: ConfigFault) -> &'static str {
    match fault {
        ConfigFault::NotToml => "toml",
        ConfigFault::Missing(key) => key.name(),
        ConfigFault::BadValue(key) => key.name(),
        ConfigFault::Extra => "extra",
        ConfigFault::NoMemory => "memory",
    }
}

fn line_name(refusal: LineRefusal) -> &'static str {
    match refusal {
        LineRefusal::BadLine => "line ",
        LineRefusal::TooManyTicks | LineRefusal::TooManyFrames | LineRefusal::TooManyLines =>
            "too_many ",
        LineRefusal::LineTooLong => "long_line ",
    }
}

fn add_refusal(text: &mut String, refusal: Refusal) -> Result<(), AllocError> {
    match refusal {
        Refusal::BadHead(fault) => {
            text.push_str("head ")?;
            text.push_str(head_name(fault))
        }
        Refusal::HeadSize => text.push_str("head size"),
        Refusal::Line(line, refusal) => {
            text.push_str(line_name(refusal))?;
            write!(text, "{line}")
        }
        Refusal::NoEnd => text.push_str("no_end"),
    }
}

impl Refused {
    /// The exit status.
    pub fn status(self) -> u8 {
        match self {
            Refused::Memory => 1,
            Refused::Read => 3,
            Refused::Write => 4,
            Refused::Text(refusal) => text_status(refusal),
        }
    }

    /// The fault of a text that was not read to a script.
    pub fn of_script(fault: ScriptFault) -> Refused {
        match fault.refusal() {
            Some(refusal) => Refused::Text(refusal),
            None => Refused::Memory,
        }
    }

    /// The line that says so.
    pub fn text(self, alloc: Global) -> Result<String, AllocError> {
        let mut text = String::new(alloc);
        text.push_str("refused: ")?;
        match self {
            Refused::Memory => text.push_str("memory")?,
            Refused::Read => text.push_str("read")?,
            Refused::Write => text.push_str("write")?,
            Refused::Text(refusal) => add_refusal(&mut text, refusal)?,
        }
        text.push_str("\n")?;
        Ok(text)
    }
}
