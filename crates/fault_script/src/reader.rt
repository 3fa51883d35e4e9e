// Reads a text in pieces: the head, then the lines, to the script or to the first refusal (own).
ghost use Rattle.std.specs.Prelude.{ℕ, ◌≡◌, ◌+◌, length, IfOk, IfErr, Err};
ghost use Rattle.script_model.specs.Judging.{ScriptData};
ghost use Rattle.script_model.specs.Meaning.{Reading, InHead, take_bytes, finished, reading, meaning};
ghost use Rattle.saboteur.specs.Held.{places_of};
ghost use Rattle.script_model.specs.Rules.{KeepsForm};
ghost use Rattle.fault_script.specs.Says.{Says};

use crate::body::Body;
use crate::fed::Fed;
use crate::head::Head;
use crate::script_fault::ScriptFault;
use lift_base::Form;
use lift_io::NoMemory;
use lift_script::Script;
use saboteur::Crew;
use side_lines::{Places, places};
use std::alloc::Global;
use std::marker::Model;

/// How far a text was read.
#[derive(Drop)]
pub enum State {
    Head(Head),
    Body(Body),
    Ended(Script),
    Stopped(ScriptFault),
}

impl State {
    ghost use Rattle.std.specs.Prelude.{[], Ok};
    ghost use Rattle.fault_script.specs.Reads.{Stands, IsPastHead, IsOver};
    ghost use Rattle.fault_script.specs.Tells.{Tells, EndsWithin};
    ghost use Rattle.fault_script.specs.Views.{HeadData, BodyData, behind_head};

    /// Nothing was read.
    #[tactic(auto, unfolding(crate::specs::Reads::Stands))]
    pub fn open(alloc: Global, form: Form, places: Places) -> State
        ensures { Stands result (InHead form places [] [] 1) }
    {
        State::Head(Head::open(alloc, form, places))
    }

    // A call pays for the size of its locals, so the few that have a whole state stand apart from the one for each piece.

    /// After a whole head.
    #[tactic(auto, unfolding(crate::specs::Reads::Stands))]
    fn behind(alloc: Global, head: &Head) -> State
        ensures past { IsPastHead result }
        ensures stands { (used : ℕ) → Stands result (behind_head head.now used) }
    {
        match Body::open(
            alloc,
            head.form(),
            head.places(),
            head.lines(),
            head.number() + 1,
        ) {
            Ok(body) => State::Body(body),
            Err(fault) => State::Stopped(fault),
        }
    }

    /// The head is whole.
    #[cold]
    #[inline(never)]
    fn begin(&mut self, alloc: Global)
        ensures past { IsPastHead self.new }
        ensures stands { (head : HeadData) (used : ℕ) → self.old ≡ State.Head head → Stands self.new (behind_head head used) }
    {
        if let State::Head(head) = self {
            *self = State::behind(alloc, head);
        }
    }

    #[cold]
    #[inline(never)]
    fn stop(&mut self, fault: ScriptFault)
        ensures { self.new ≡ State.Stopped fault }
    {
        *self = State::Stopped(fault);
    }

    /// The line `e` has come: the script is whole.
    #[cold]
    #[inline(never)]
    fn end(&mut self)
        ensures { (body : BodyData) → self.old ≡ State.Body body → self.new ≡ State.Ended body.place.script }
    {
        let state = std::mem::replace(self, State::Stopped(ScriptFault::NoEnd));
        *self = match state {
            State::Body(body) => State::Ended(body.script()),
            state => state,
        };
    }

    /// Takes the next piece of the text.
    pub fn feed(&mut self, alloc: Global, piece: &[u8]) -> Result<Fed, ScriptFault>
        ensures stands { (r : Reading) → Stands self.old r → Stands self.new (take_bytes r piece.now) }
        ensures tells { (r : Reading) → Stands self.old r → Tells result r (take_bytes r piece.now) }
        ensures within { IfOk result (λ fed. EndsWithin fed (length piece.now)) }
        ensures refused { IfErr result (λ fault. self.new ≡ State.Stopped fault) }
        ensures again { (fault : ScriptFault) → self.old ≡ State.Stopped fault → result ≡ Err fault }
        ensures ended { IfOk result (λ fed. IsOver fed self.new) }
        ensures over { (script : ScriptData) → self.old ≡ State.Ended script → result ≡ Ok (Fed.Ended 0) }
    {
        if let State::Head(head) = self {
            return match head.feed(piece) {
                Ok(None) => Ok(Fed::More),
                Ok(Some(n)) => {
                    self.begin(alloc);
                    match self.feed_lines(&piece[n..]) {
                        Ok(Fed::More) => Ok(Fed::More),
                        Ok(Fed::Ended(k)) => Ok(Fed::Ended(n + k)),
                        Err(fault) => Err(fault),
                    }
                }
                Err(fault) => {
                    self.stop(fault);
                    Err(fault)
                }
            };
        }
        self.feed_lines(piece)
    }

    /// Takes a piece of the text after its head.
    fn feed_lines(&mut self, piece: &[u8]) -> Result<Fed, ScriptFault>
        requires { IsPastHead self.old }
        ensures stands { (r : Reading) → Stands self.old r → Stands self.new (take_bytes r piece.now) }
        ensures tells { (r : Reading) → Stands self.old r → Tells result r (take_bytes r piece.now) }
        ensures within { IfOk result (λ fed. EndsWithin fed (length piece.now)) }
        ensures refused { IfErr result (λ fault. self.new ≡ State.Stopped fault) }
        ensures again { (fault : ScriptFault) → self.old ≡ State.Stopped fault → result ≡ Err fault }
        ensures ended { IfOk result (λ fed. IsOver fed self.new) }
        ensures over { (script : ScriptData) → self.old ≡ State.Ended script → result ≡ Ok (Fed.Ended 0) }
    {
        match self {
            State::Head(_) => unreachable!(),
            State::Body(body) => match body.feed(piece) {
                Ok(Fed::More) => Ok(Fed::More),
                Ok(Fed::Ended(k)) => {
                    self.end();
                    Ok(Fed::Ended(k))
                }
                Err(fault) => {
                    self.stop(fault);
                    Err(fault)
                }
            },
            State::Ended(_) => Ok(Fed::Ended(0)),
            State::Stopped(fault) => Err(*fault),
        }
    }

    /// The text ends here.
    pub fn finish(self) -> Result<Script, ScriptFault>
        ensures says { (r : Reading) → Stands self r → Says result (finished r) }
        ensures refused { (fault : ScriptFault) → self ≡ State.Stopped fault → result ≡ Err fault }
        ensures ended { (script : ScriptData) → self ≡ State.Ended script → result ≡ Ok script }
    {
        match self {
            State::Head(_) => Err(ScriptFault::NoEnd),
            State::Body(body) => body.finish(),
            State::Ended(script) => Ok(script),
            State::Stopped(fault) => Err(fault),
        }
    }
}

/// A text that is fed in pieces. It keeps the head until its line `%%`, and then at most one unfinished line.
#[derive(Drop)]
pub struct ScriptReader {
    alloc: Global,
    state: State,
}

impl Model for ScriptReader {
    ghost use Rattle.fault_script.specs.declared.reader.State.{State};

    ghost Value = { State };

    ghost view = { λ r. r.state };
}

impl ScriptReader {
    ghost use Rattle.std.specs.Prelude.{Bool, List, [], ◌++◌, Ok, IsOk};
    ghost use Rattle.lift_base.specs.declared.forms.Form.{Form};
    ghost use Rattle.script_model.specs.Rules.{KeepsForm};
    ghost use Rattle.saboteur.specs.Held.{places_of};
    ghost use Rattle.fault_script.specs.Reads.{HasRead, IsOver};
    ghost use Rattle.fault_script.specs.Tells.{Tells, EndsWithin};

    /// Nothing was read of a text of this form, for this crew. It takes no memory yet.
    pub fn open(alloc: Global, form: Form, crew: &Crew) -> Result<ScriptReader, NoMemory>
        ensures ok { IsOk result }
        ensures read { IfOk result (λ reader. HasRead reader form (places_of crew.now) []) }
    {
        Ok(ScriptReader {
            alloc,
            state: State::open(alloc, form, places(crew)),
        })
    }

    /// Takes the next piece of the text. `More`: so far there is neither a refusal nor a line `e` with its line feed. `Ended(k)`: the
    /// first `k` bytes of the piece end the text; 0 where it had ended before. A refusal comes with the byte that decides it, and again
    /// at each later call.
    pub fn feed(&mut self, piece: &[u8]) -> Result<Fed, ScriptFault>
        // However the text is cut, the reader stands for the pieces joined.
        ensures read { (form : Form) (places : List Bool) (text : List ℕ) → HasRead self.old form places text
            → HasRead self.new form places (text ++ piece.now) }
        ensures tells { (form : Form) (places : List Bool) (text : List ℕ) → HasRead self.old form places text
            → Tells result (reading form places text) (reading form places (text ++ piece.now)) }
        ensures within { IfOk result (λ fed. EndsWithin fed (length piece.now)) }
        ensures refused { IfErr result (λ fault. self.new ≡ State.Stopped fault) }
        ensures again { (fault : ScriptFault) → self.old ≡ State.Stopped fault → result ≡ Err fault }
        ensures ended { IfOk result (λ fed. IsOver fed self.new) }
        ensures over { (script : ScriptData) → self.old ≡ State.Ended script → result ≡ Ok (Fed.Ended 0) }
    {
        self.state.feed(self.alloc, piece)
    }

    /// The text ends here: its script, or its first refusal. What `feed` refused is refused again.
    pub fn finish(self) -> Result<Script, ScriptFault>
        ensures says { (form : Form) (places : List Bool) (text : List ℕ) → HasRead self form places text
            → Says result (meaning form places text) }
        ensures rules { (form : Form) (places : List Bool) (text : List ℕ) → HasRead self form places text
            → IfOk result (KeepsForm form places) }
        ensures refused { (fault : ScriptFault) → self ≡ State.Stopped fault → result ≡ Err fault }
        ensures ended { (script : ScriptData) → self ≡ State.Ended script → result ≡ Ok script }
    {
        self.state.finish()
    }
}

/// Reads a whole text of this form, for this crew: its script, or its first refusal. `NoMemory` says nothing of the text.
/// The script keeps its form: what a replay's lines do to the sides keeps the rules that an engine asks, and a simulation has neither
/// frames nor faults.
pub fn read_script(
    alloc: Global,
    form: Form,
    crew: &Crew,
    text: &[u8],
) -> Result<Script, ScriptFault>
    ensures says { Says result (meaning form (places_of crew.now) text.now) }
    ensures rules { IfOk result (KeepsForm form (places_of crew.now)) }
{
    let mut reader = match ScriptReader::open(alloc, form, crew) {
        Ok(reader) => reader,
        Err(NoMemory) => return Err(ScriptFault::NoMemory),
    };
    let _ = reader.feed(text);
    reader.finish()
}
