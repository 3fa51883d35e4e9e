// Laws of a log's text and script. No body can break them (own).
ghost use Rattle.std.specs.Prelude.{Bool, List};
ghost use Rattle.std.specs.List.{AllByRecursion};
ghost use Rattle.lift_base.specs.declared.forms.Form.TheVariants.{Replay};
ghost use Rattle.lift_model.specs.Records.{Settings};
ghost use Rattle.script_model.specs.Judging.{ScriptData};
ghost use Rattle.script_model.specs.Meaning.{MeansScript};
ghost use Rattle.script_model.specs.Valid.{IsReplay};
ghost use Rattle.can_log.specs.declared.wires.WireRow.{WireRow};
ghost use Rattle.can_log.specs.Taken.{LogData};
ghost use Rattle.can_log.specs.Scripts.{script_of};
ghost use Rattle.can_log.specs.RunsText.{log_text, IsHeard};
ghost use Rattle.can_log.specs.Rows.{HasRanges};

/// Reading the text of a script that has neither true words nor faults gives the script.
pub fn written_runs_are_read()
    ensures { (places : List Bool) (s : ScriptData) → IsReplay places s → AllByRecursion IsHeard s.inputs
        → MeansScript Replay places (log_text s) s }
{}

/// So does reading the text of a log's script.
pub fn log_scripts_are_read()
    ensures { (places : List Bool) (config : Settings) (log : LogData) (rows : List WireRow) → HasRanges config log rows
        → MeansScript Replay places (log_text (script_of config log rows)) (script_of config log rows) }
{}
