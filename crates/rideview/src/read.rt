// Reads the script of a ride, in pieces (own).
ghost use Rattle.std.specs.Prelude.{Bool, List, [], IfOk};
ghost use Rattle.lift_base.specs.declared.forms.Form.TheVariants.{Replay};
ghost use Rattle.saboteur.specs.Held.{places_of};
ghost use Rattle.script_model.specs.Rules.{KeepsRules};
ghost use Rattle.fault_script.specs.Reads.{HasRead};
ghost use Rattle.rideview.specs.Feeding.{WasFed};

use crate::refused::Refused;
use fault_script::{Fed, ScriptReader};
use lift_base::Form;
use lift_io::{Failed, NoMemory, Source};
use lift_script::Script;
use saboteur::Crew;
use std::alloc::Global;

/// How many bytes are read at once.
const PIECE: usize = 4096;

/// Feeds a reader what the source gives, up to the end of the text or of the input, or to the byte that refuses the text. No read follows
/// one of these.
fn feed<S: Source>(reader: &mut ScriptReader, source: &mut S) -> Result<(), Refused>
    ensures { (places : List Bool) → HasRead reader.old Replay places [] → IfOk result (λ _. WasFed places reader.new) }
{
    let mut piece = [0; PIECE];
    'reads: for _ in 0..u64::MAX {
        let count = match source.read(&mut piece) {
            Ok(count) => count,
            Err(Failed) => return Err(Refused::Read),
        };
        if count == 0 {
            return Ok(());
        }
        match reader.feed(&piece[..count]) {
            Ok(Fed::More) => {}
            Ok(Fed::Ended(_)) => return Ok(()),
            Err(fault) => return Err(Refused::of_script(fault)),
        }
    }
    // No text goes on for so many reads.
    Err(Refused::Memory)
}

/// The replay that the text of the source means for this crew.
pub fn read<S: Source>(alloc: Global, crew: &Crew, source: &mut S) -> Result<Script, Refused>
    ensures { IfOk result (KeepsRules (places_of crew.now)) }
{
    let mut reader = match ScriptReader::open(alloc, Form::Replay, crew) {
        Ok(reader) => reader,
        Err(NoMemory) => return Err(Refused::Memory),
    };
    match feed(&mut reader, source) {
        Ok(()) => match reader.finish() {
            Ok(script) => Ok(script),
            Err(fault) => Err(Refused::of_script(fault)),
        },
        Err(refused) => Err(refused),
    }
}
