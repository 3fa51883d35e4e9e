// Where more bytes lead a part of the reader.
use crate::script_fault::ScriptFault;
use script_model::LineRefusal;

/// Where more bytes lead a part of the reader: further, to the end of what it reads, or to a refusal.
#[derive(Clone, Copy, Debug, PartialEq, Eq)]
pub enum Went {
    More,
    Whole,
    Refused(ScriptFault),
}

/// Where a line leads the place: further, to the end of the text, or to the refusal of this line.
#[derive(Clone, Copy, Debug, PartialEq, Eq)]
pub enum LineWent {
    More,
    Whole,
    Refused(LineRefusal),
    NoMemory,
}
