// The head of a text: its lines until `%%`, gathered byte by byte (own).
ghost use Rattle.std.specs.Prelude.{◌≡◌, ◌<◌, ◌≤◌, ◌+◌, ◌++◌, [], ◌∷◌, length, IfOk, IfErr};
ghost use Rattle.script_model.specs.Meaning.{take_byte, head_line_ends};

use crate::script_fault::ScriptFault;
use crate::went::Went;
use lift_base::{Form, HEAD_TOO_LONG};
use side_lines::Places;
use std::alloc::Global;
use std::marker::Model;

/// The whole lines of the head so far, and the bytes of the next.
#[derive(Drop)]
pub struct Head {
    form: Form,
    places: Places,
    lines: Vec<u8>,
    line: Vec<u8>,
    number: u32,
}

impl Model for Head {
    ghost use Rattle.lift_base.specs.declared.limits.TheConstants.{HEAD_TOO_LONG};
    ghost use Rattle.std.specs.Prelude.{length, ◌≤◌, ◌<◌, ◌+◌};
    ghost use Rattle.fault_script.specs.Views.{HeadData};

    ghost Value = { HeadData };

    ghost view = { λ h. record { form = h.form; places = h.places; lines = h.lines.items; line = h.line.items; number = h.number } };

    ghost invariant = { λ h. (length h.lines.items + length h.line.items < HEAD_TOO_LONG) × (h.number ≤ length h.lines.items + 1) };
}

impl Head {
    ghost use Rattle.fault_script.specs.Views.{in_head};
    ghost use Rattle.fault_script.specs.Went.{HeadWent, HeadFed};

    /// Nothing was read.
    pub fn open(alloc: Global, form: Form, places: Places) -> Head
        ensures { result ≡ record { form = form; places = places; lines = []; line = []; number = 1 } }
    {
        Head {
            form,
            places,
            lines: Vec::new(alloc),
            line: Vec::new(alloc),
            number: 1,
        }
    }

    /// Takes the next piece of the text, and tells after how many bytes of it the head is whole, where it is.
    pub fn feed(&mut self, piece: &[u8]) -> Result<Option<usize>, ScriptFault>
        ensures { HeadFed result self.old self.new piece.now }
    {
        for (i, b) in piece.iter().enumerate() {
            match self.take(*b) {
                Went::More => {}
                Went::Whole => return Ok(Some(i + 1)),
                Went::Refused(fault) => return Err(fault),
            }
        }
        Ok(None)
    }

    /// Takes one more byte.
    fn take(&mut self, b: u8) -> Went
        ensures { HeadWent result self.old self.new (take_byte (in_head self.old) b) }
    {
        if b == b'\n' {
            return self.end_line();
        }
        if self.lines.len() + self.line.len() + 1 >= HEAD_TOO_LONG {
            return Went::Refused(ScriptFault::HeadSize);
        }
        match self.line.push(b) {
            Ok(()) => Went::More,
            Err(_) => Went::Refused(ScriptFault::NoMemory),
        }
    }

    fn end_line(&mut self) -> Went
        ensures { HeadWent result self.old self.new (head_line_ends self.old.form self.old.places self.old.lines self.old.line
            self.old.number) }
    {
        if self.line.as_slice() == b"%%".as_slice() {
            return Went::Whole;
        }
        if self.lines.len() + self.line.len() + 1 >= HEAD_TOO_LONG {
            return Went::Refused(ScriptFault::HeadSize);
        }
        match self.keep_line() {
            Ok(()) => Went::More,
            Err(fault) => Went::Refused(fault),
        }
    }

    /// Keeps the line that was begun, and its line feed.
    fn keep_line(&mut self) -> Result<(), ScriptFault>
        requires { length self.old.lines + length self.old.line + 1 < HEAD_TOO_LONG }
        ensures ok { IfOk result (λ _. self.new
            ≡ record self.old { lines = self.old.lines ++ (self.old.line ++ 10 ∷ []); line = []; number = self.old.number + 1 }) }
        ensures memory { IfErr result (λ fault. fault ≡ ScriptFault.NoMemory) }
    {
        self.line.push(b'\n').map_err(|_| ScriptFault::NoMemory)?;
        self.lines
            .extend_from_slice(&self.line)
            .map_err(|_| ScriptFault::NoMemory)?;
        self.line.clear();
        self.number += 1;
        Ok(())
    }

    /// The form of the script whose head this is.
    pub fn form(&self) -> Form
        ensures { result ≡ self.now.form }
    {
        self.form
    }

    /// The places of the crew.
    pub fn places(&self) -> Places
        ensures { result ≡ self.now.places }
    {
        self.places
    }

    /// The whole lines.
    pub fn lines(&self) -> &[u8]
        ensures { result.now ≡ self.now.lines }
    {
        &self.lines
    }

    /// The number of the line that was begun.
    pub fn number(&self) -> u32
        ensures value { result ≡ self.now.number }
        ensures few { result ≤ HEAD_TOO_LONG }
    {
        self.number
    }
}
