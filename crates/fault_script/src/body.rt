// The lines after the head. A whole line is judged where it lies in the piece; of a line that is begun its bytes are kept (own).
ghost use Rattle.std.specs.Prelude.{ℕ, ◌≡◌, ◌<◌, ◌≤◌, ◌+◌, ◌++◌, [], ◌∷◌, length, IfOk, IfErr, MatchBool};
ghost use Rattle.lift_config.specs.Head.{read_head};
ghost use Rattle.script_model.specs.Judging.{judge_line, at_start};
ghost use Rattle.script_model.specs.Meaning.{take_bytes, line_ends, finished, head_read, Stopped, No};
ghost use Rattle.script_model.specs.declared.refusals.Refusal.TheVariants.{Line};

use crate::fed::Fed;
use crate::place::Place;
use crate::script_fault::ScriptFault;
use crate::went::{LineWent, Went};
use arrayvec::ArrayVec;
use lift_base::{Form, HEAD_TOO_LONG, LONGEST_LINE};
use lift_config::{Config, ConfigFault};
use lift_script::Script;
use memchr::memchr;
use side_lines::Places;
use std::alloc::Global;
use std::marker::Model;

/// The place after the whole lines, and the bytes of the next.
#[derive(Drop)]
pub struct Body {
    place: Place,
    line: ArrayVec<u8, LONGEST_LINE>,
    number: u32,
}

impl Model for Body {
    ghost use Rattle.lift_base.specs.declared.limits.TheConstants.{HEAD_TOO_LONG};
    ghost use Rattle.std.specs.Prelude.{◌≤◌, ◌+◌};
    ghost use Rattle.script_model.specs.Judging.{weight};
    ghost use Rattle.fault_script.specs.Views.{BodyData};

    ghost Value = { BodyData };

    ghost view = { λ b. record { place = b.place; line = b.line.items; number = b.number } };

    ghost invariant = { λ b. b.number ≤ HEAD_TOO_LONG + 1 + weight b.place };
}

impl Body {
    ghost use Rattle.fault_script.specs.Views.{in_line};
    ghost use Rattle.fault_script.specs.Went.{BodyWent, BodyFed, Begins};
    ghost use Rattle.script_model.specs.Meaning.{NoFeed};
    ghost use Rattle.fault_script.specs.Says.{Says};
    ghost use Rattle.fault_script.specs.Refusals.{Stops};
    ghost use Rattle.fault_script.specs.Tells.{EndsWithin};

    /// The line of this number comes first, after a head with these lines.
    pub fn open(
        alloc: Global,
        form: Form,
        places: Places,
        lines: &[u8],
        number: u32,
    ) -> Result<Body, ScriptFault>
        requires { number ≤ HEAD_TOO_LONG + 1 }
        ensures { (used : ℕ) → Begins result used (head_read form places (read_head lines.now) number used) }
    {
        match Config::read(alloc, lines) {
            Ok(config) => Body::start(alloc, form, places, config, number),
            Err(ConfigFault::NoMemory) => Err(ScriptFault::NoMemory),
            Err(fault) => Err(ScriptFault::BadHead(fault)),
        }
    }

    fn start(
        alloc: Global,
        form: Form,
        places: Places,
        config: Config,
        number: u32,
    ) -> Result<Body, ScriptFault>
        requires { number ≤ HEAD_TOO_LONG + 1 }
        ensures ok { IfOk result (λ body. body ≡ record { place = at_start form places config; line = []; number = number }) }
        ensures memory { IfErr result (λ fault. fault ≡ ScriptFault.NoMemory) }
    {
        let script = Script::open(alloc, config).map_err(|_| ScriptFault::NoMemory)?;
        Ok(Body {
            place: Place::start(form, places, script),
            line: ArrayVec::new(),
            number,
        })
    }

    /// Takes the next piece of the text.
    pub fn feed(&mut self, piece: &[u8]) -> Result<Fed, ScriptFault>
        ensures fed { (used : ℕ) → BodyFed result self.new used (length piece.now) (take_bytes (in_line self.old used) piece.now) }
        ensures within { IfOk result (λ fed. EndsWithin fed (length piece.now)) }
    {
        let mut rest = piece;
        while let Some(end) = memchr(b'\n', rest) {
            match self.take_line(&rest[..end]) {
                Went::More => rest = &rest[end + 1..],
                Went::Whole => return Ok(Fed::Ended(piece.len() - rest.len() + end + 1)),
                Went::Refused(fault) => return Err(fault),
            }
        }
        match self.begin_line(rest) {
            Ok(()) => Ok(Fed::More),
            Err(fault) => Err(fault),
        }
    }

    /// Takes the first bytes of a line. Its line feed is still to come.
    fn begin_line(&mut self, bytes: &[u8]) -> Result<(), ScriptFault>
        requires { NoFeed bytes.now }
        ensures ok { IfOk result (λ _. (used : ℕ)
            → take_bytes (in_line self.old used) bytes.now ≡ in_line self.new (used + length bytes.now)) }
        ensures err { IfErr result (λ fault. (used : ℕ) → Stops fault (take_bytes (in_line self.old used) bytes.now)) }
    {
        if self.is_too_long(bytes) {
            return Err(ScriptFault::LineTooLong(self.number));
        }
        self.keep(bytes);
        Ok(())
    }

    /// Takes the last bytes of a line, and its line feed.
    fn take_line(&mut self, bytes: &[u8]) -> Went
        requires { NoFeed bytes.now }
        ensures { (used : ℕ) → BodyWent result self.new (used + (length bytes.now + 1))
            (take_bytes (in_line self.old used) (bytes.now ++ 10 ∷ [])) }
    {
        if self.is_too_long(bytes) {
            return Went::Refused(ScriptFault::LineTooLong(self.number));
        }
        if self.line.is_empty() {
            return self.judge(bytes);
        }
        self.keep(bytes);
        self.end_line()
    }

    /// Whether the line has more bytes than it may with these.
    fn is_too_long(&self, bytes: &[u8]) -> bool
        ensures value { MatchBool result (LONGEST_LINE < length self.now.line + length bytes.now)
            (length self.now.line + length bytes.now ≤ LONGEST_LINE) }
        ensures few { length self.now.line ≤ LONGEST_LINE }
    {
        bytes.len() > LONGEST_LINE - self.line.len()
    }

    /// Keeps more bytes of a line.
    #[cold]
    #[inline(never)]
    fn keep(&mut self, bytes: &[u8])
        requires { length self.old.line + length bytes.now ≤ LONGEST_LINE }
        ensures { self.new ≡ record self.old { line = self.old.line ++ bytes.now } }
    {
        match self.line.try_extend_from_slice(bytes) {
            Ok(()) => {}
            Err(_) => unreachable!(),
        }
    }

    /// Judges a whole line, where none is kept.
    fn judge(&mut self, line: &[u8]) -> Went
        requires { self.old.line ≡ [] }
        ensures { (used : ℕ) → BodyWent result self.new used
            (line_ends self.old.place (judge_line self.old.place self.old.number line.now) self.old.number used) }
    {
        match self.place.take(self.number, line) {
            LineWent::More => {
                self.number += 1;
                Went::More
            }
            LineWent::Whole => Went::Whole,
            LineWent::Refused(refusal) => {
                Went::Refused(ScriptFault::at_line(self.number, refusal))
            }
            LineWent::NoMemory => Went::Refused(ScriptFault::NoMemory),
        }
    }

    /// Judges the line that was kept, which is whole.
    #[cold]
    #[inline(never)]
    fn end_line(&mut self) -> Went
        ensures { (used : ℕ) → BodyWent result self.new used
            (line_ends self.old.place (judge_line self.old.place self.old.number self.old.line) self.old.number used) }
    {
        let line = std::mem::replace(&mut self.line, ArrayVec::new());
        self.judge(&line)
    }

    /// The text ends here: a last line counts only where it is `e`.
    pub fn finish(self) -> Result<Script, ScriptFault>
        ensures { (used : ℕ) → Says result (finished (in_line self used)) }
    {
        let Body {
            mut place,
            line,
            number,
        } = self;
        if line.as_slice() != b"e".as_slice() {
            return Err(ScriptFault::NoEnd);
        }
        match place.take(number, &line) {
            LineWent::More => Err(ScriptFault::NoEnd),
            LineWent::Whole => Ok(place.script()),
            LineWent::Refused(refusal) => Err(ScriptFault::at_line(number, refusal)),
            LineWent::NoMemory => Err(ScriptFault::NoMemory),
        }
    }

    /// The script so far.
    pub fn script(self) -> Script
        ensures { result ≡ self.place.script }
    {
        self.place.script()
    }
}
