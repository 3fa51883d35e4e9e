// Why a text has no script.
ghost use Rattle.std.specs.Prelude.{◌≡◌};

use lift_config::ConfigFault;
use script_model::{LineRefusal, Refusal};

/// Why a text was not read to a script: its first refusal, with the number of its line, counted from 1 over the whole text; or there
/// was no memory.
#[derive(Clone, Copy, Debug, PartialEq, Eq)]
pub enum ScriptFault {
    BadHead(ConfigFault),
    HeadSize,
    BadLine(u32),
    TooManyTicks(u32),
    TooManyFrames(u32),
    TooManyLines(u32),
    LineTooLong(u32),
    NoEnd,
    NoMemory,
}

impl ScriptFault {
    ghost use Rattle.fault_script.specs.Refusals.{refusal_of};
    ghost use Rattle.std.specs.Prelude.{Some};
    ghost use Rattle.script_model.specs.declared.refusals.Refusal.TheVariants.{Line};

    /// The line of this number is refused.
    pub fn at_line(line: u32, refusal: LineRefusal) -> ScriptFault
        ensures { refusal_of result ≡ Some (Line line refusal) }
    {
        match refusal {
            LineRefusal::BadLine => ScriptFault::BadLine(line),
            LineRefusal::TooManyTicks => ScriptFault::TooManyTicks(line),
            LineRefusal::TooManyFrames => ScriptFault::TooManyFrames(line),
            LineRefusal::TooManyLines => ScriptFault::TooManyLines(line),
            LineRefusal::LineTooLong => ScriptFault::LineTooLong(line),
        }
    }

    /// The refusal of the text. `NoMemory` says nothing of the text, and has none.
    pub fn refusal(self) -> Option<Refusal>
        ensures { result ≡ refusal_of self }
    {
        let refusal = match self {
            ScriptFault::BadHead(fault) => Refusal::BadHead(fault),
            ScriptFault::HeadSize => Refusal::HeadSize,
            ScriptFault::BadLine(line) => Refusal::Line(line, LineRefusal::BadLine),
            ScriptFault::TooManyTicks(line) => Refusal::Line(line, LineRefusal::TooManyTicks),
            ScriptFault::TooManyFrames(line) => Refusal::Line(line, LineRefusal::TooManyFrames),
            ScriptFault::TooManyLines(line) => Refusal::Line(line, LineRefusal::TooManyLines),
            ScriptFault::LineTooLong(line) => Refusal::Line(line, LineRefusal::LineTooLong),
            ScriptFault::NoEnd => Refusal::NoEnd,
            ScriptFault::NoMemory => return None,
        };
        Some(refusal)
    }
}
