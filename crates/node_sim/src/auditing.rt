// The audit of a run: one pass over its trace and its path (own).
ghost use Rattle.std.specs.Prelude.{◌≡◌, ◌+◌, ◌<◌, ◌^◌, not, ◌&&◌, ◌||◌, ◌==◌, length, if◌then◌else◌, None};
ghost use Rattle.lift_model.specs.Records.{SideFaultData};
ghost use Rattle.core_model.specs.Settling.{out_at};
ghost use Rattle.core_model.specs.Words.{is_off, stamp_of};
ghost use Rattle.round_model.specs.Lawful.{AreBacked};
ghost use Rattle.round_model.specs.Parts.{faults_of, failed_by};
ghost use Rattle.node_sim.specs.Audited.{audited};

use crate::listeners::{Listeners, first_wrong, older};
use channel_words::stamp_of;
use contactor_pair::{Path, Settled};
use lift_base::{Kind, Side};
use lift_script::Script;
use lift_trace::Input;
use script_model::Audit;

fn is_on(settled: &Settled) -> bool
    ensures { result ≡ not (is_off settled.now.power) }
{
    settled.power != Kind::Off
}

/// A side's command word.
fn word_of(settled: &Settled, side: Side) -> u64
    ensures { result ≡ (out_at side settled.now).word }
{
    match side {
        Side::A => settled.a.word,
        Side::B => settled.b.word,
    }
}

/// Whether a side has failed after a tick, where it had before.
fn is_failed(before: bool, input: &Input, side: Side) -> bool
    ensures { result ≡ failed_by before (faults_of side input.now) }
{
    match side {
        Side::A => !input.faults.a.exchange && (before || input.faults.a.fail),
        Side::B => !input.faults.b.exchange && (before || input.faults.b.fail),
    }
}

/// How old the oldest pair was at the stamp of a side's command word, which is the tick before `t` or the one before that: `last` and
/// `before` say it of these two.
fn side_age(
    t: u32,
    on: bool,
    healthy: bool,
    word: u64,
    last: Option<u32>,
    before: Option<u32>,
) -> Option<u32>
    requires { t < 2 ^ 24 }
    ensures { result ≡ (if on && healthy then (if stamp_of word + 1 == t then last else before) else None) }
{
    if !on || !healthy {
        return None;
    }
    if stamp_of(word) + 1 == t {
        last
    } else {
        before
    }
}

/// One, where power is on and no side is healthy.
fn unhealthy(on: bool, a: bool, b: bool) -> u32
    ensures { result ≡ (if on && not (a || b) then 1 else 0) }
{
    if on && !(a || b) { 1 } else { 0 }
}

/// Audits a run of a script in which each side that is healthy by the script is backed. It takes no memory.
pub fn audit_run(script: &Script, path: &Path) -> Audit
    requires long { length path.now.settled ≡ length script.now.inputs }
    requires backed { AreBacked script.now.config script.now.inputs path.now.settled }
    ensures { result ≡ audited script.now.config script.now.inputs path.now.settled }
{
    let mut listeners = Listeners::new(script.config());
    let mut wrong = None;
    let mut oldest = None;
    let mut count = 0;
    let mut failed_a = false;
    let mut failed_b = false;
    // How old the oldest pair is at the tick before, and at the one before that.
    let mut last = None;
    let mut before = None;
    for n in 0..path.len() {
        let t = n + 1;
        let settled = path.get(t);
        let on = is_on(&settled);
        let a = side_age(t, on, !failed_a, word_of(&settled, Side::A), last, before);
        let b = side_age(t, on, !failed_b, word_of(&settled, Side::B), last, before);
        oldest = older(oldest, older(a, b));
        count += unhealthy(on, !failed_a, !failed_b);
        let input = script.trace().get(t);
        wrong = first_wrong(wrong, listeners.take_tick(input, t));
        before = last;
        last = listeners.oldest(t);
        failed_a = is_failed(failed_a, input, Side::A);
        failed_b = is_failed(failed_b, input, Side::B);
    }
    Audit {
        wrong,
        oldest,
        unhealthy: count,
    }
}
