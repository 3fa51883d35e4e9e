// What the clauses grant, tick by tick (own).
ghost use Rattle.std.specs.Prelude.{◌≡◌, ◌+◌, ◌<◌, [], length, take, IfOk};
ghost use Rattle.lift_model.specs.Grant.{grant};
ghost use Rattle.fault_runs.specs.Lines.{kinds_to};

use channel_masks::MaskChannel;
use grant_model::Channel;
use lift_base::Kind;
use lift_config::Config;
use lift_io::NoMemory;
use lift_script::Script;
use lift_trace::Trace;
use std::alloc::Global;

// The kind that is granted at the tick after so many.
fn kind_after<C: Channel>(channel: &mut C, config: &Config, trace: &Trace, before: u32) -> Kind
    requires few { before < length trace.now.inputs }
    requires stands { C.stands channel.old config.now (take before trace.now.inputs) }
    ensures stands { C.stands channel.new config.now (take (before + 1) trace.now.inputs) }
    ensures kind { result ≡ (grant config.now trace.now.inputs (before + 1)).kind }
{
    let _few = trace.len();
    channel.catch_up(trace, before + 1);
    channel.verdict().kind
}

fn kinds_of<C: Channel>(
    alloc: Global,
    channel: &mut C,
    config: &Config,
    trace: &Trace,
) -> Result<Vec<Kind>, NoMemory>
    requires { C.stands channel.old config.now [] }
    ensures { IfOk result (λ kinds. kinds.items ≡ kinds_to config.now trace.now.inputs (length trace.now.inputs)) }
{
    let mut kinds = Vec::new(alloc);
    for before in 0..trace.len() {
        let kind = kind_after(channel, config, trace, before);
        if kinds.push(kind).is_err() {
            return Err(NoMemory);
        }
    }
    Ok(kinds)
}

/// The kind that the clauses grant at each tick.
pub fn granted_kinds(alloc: Global, script: &Script) -> Result<Vec<Kind>, NoMemory>
    ensures { IfOk result (λ kinds. kinds.items ≡ kinds_to script.now.config script.now.inputs (length script.now.inputs)) }
{
    let config = *script.config();
    let mut channel = MaskChannel::new(&config);
    kinds_of(alloc, &mut channel, &config, script.trace())
}
