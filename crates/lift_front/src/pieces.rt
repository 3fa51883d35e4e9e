// Reads the script of a command, in pieces (own).
ghost use Rattle.std.specs.Prelude.{◌≡◌, Bool, List, [], IfOk, MatchResult};
ghost use Rattle.lift_base.specs.declared.forms.Form.{Form};
ghost use Rattle.fault_script.specs.Reads.{HasRead};
ghost use Rattle.saboteur.specs.Held.{places_in, plans_of};
ghost use Rattle.script_model.specs.Rules.{KeepsForm};
ghost use Rattle.lift_front.specs.Calls.{IsCalm, call};
ghost use Rattle.lift_front.specs.Scripts.{Text, HasScript, NotRead};
ghost use Rattle.lift_front.specs.Feeding.{IsFed};

use crate::fault::Fault;
use fault_script::{Fed, ScriptReader};
use lift_base::Form;
use lift_io::{Failed, NoMemory, Source};
use lift_script::Script;
use saboteur::Crew;
use std::alloc::Global;

/// How many bytes are read at once.
const PIECE: usize = 4096;

/// Feeds a reader what the source gives, up to the end of the text or of the input, or to the byte that refuses the text. No read follows
/// one of these.
fn feed<S: Source>(reader: &mut ScriptReader, source: &mut S) -> Result<(), Fault>
    ensures { let told = call S.left S.faults source.old source.new in (form : Form) (places : List Bool)
        → HasRead reader.old form places [] → MatchResult result
        (λ _. IsCalm told × IsFed form places reader.new told.bytes_before told.bytes_after)
        (λ fault. NotRead (Text form places) fault told) }
{
    let mut piece = [0; PIECE];
    'reads: for _ in 0..u64::MAX {
        let count = match source.read(&mut piece) {
            Ok(count) => count,
            Err(Failed) => return Err(Fault::Read),
        };
        if count == 0 {
            return Ok(());
        }
        match reader.feed(&piece[..count]) {
            Ok(Fed::More) => {}
            Ok(Fed::Ended(_)) => return Ok(()),
            Err(fault) => return Err(Fault::of_script(fault)),
        }
    }
    // No text goes on for so many reads.
    Err(Fault::Memory)
}

fn open(alloc: Global, form: Form, crew: &Crew) -> Result<ScriptReader, NoMemory>
    ensures { IfOk result (λ reader. HasRead reader form (places_in (plans_of plan crew.now)) []) }
{
    ScriptReader::open(alloc, form, crew)
}

/// The script of this form that the text of the source means for this crew.
pub fn read<S: Source>(
    alloc: Global,
    form: Form,
    crew: &Crew,
    source: &mut S,
) -> Result<Script, Fault>
    ensures { let told = call S.left S.faults source.old source.new in let places = places_in (plans_of plan crew.now) in MatchResult result
        (λ script. IsCalm told × HasScript (Text form places) told.bytes_before script × KeepsForm form places script)
        (λ fault. NotRead (Text form places) fault told) }
{
    let mut reader = match open(alloc, form, crew) {
        Ok(reader) => reader,
        Err(NoMemory) => return Err(Fault::Memory),
    };
    match feed(&mut reader, source) {
        Ok(()) => match reader.finish() {
            Ok(script) => Ok(script),
            Err(fault) => Err(Fault::of_script(fault)),
        },
        Err(fault) => Err(fault),
    }
}
