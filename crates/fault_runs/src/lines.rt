// What a run with a fault shows beside the run without it (own).
ghost use Rattle.std.specs.Prelude.{◌≡◌, ◌≤◌, ◌||◌, Some, None, length, if◌then◌else◌};
ghost use Rattle.core_model.specs.Settling.{no_settled};
ghost use Rattle.lift_model.specs.Bits.{or_else};
ghost use Rattle.lift_model.specs.Ticks.{some_to};
ghost use Rattle.core_model.specs.Words.{is_off, is_same};
ghost use Rattle.fault_runs.specs.Lines.{IsLine, at, count_to, differs, differs_at, first_to, is_back_at, is_granted, is_lost, is_lost_at, is_ungranted_at, reason_of};

use contactor_pair::{Out, Path, Settled};
use lift_base::Kind;
use report::{Reason, reason_at};

/// What a run with a fault shows beside the run without it. Ticks are counted from 1.
#[derive(Clone, Copy, Debug, PartialEq, Eq)]
pub struct Line {
    /// The first tick whose power, alarm or contactors are not those of the other run.
    pub differs: Option<u32>,
    /// The first tick, from the fault's on, that is Off where the other run has power.
    pub off: Option<u32>,
    /// Why that tick is Off.
    pub reason: Option<Reason>,
    /// How many ticks have power of a kind that the clauses granted neither one tick before nor two.
    pub ungranted: u32,
    /// Some tick after the Off has power.
    pub comes_back: bool,
}

fn nothing() -> Settled
    ensures { result ≡ no_settled }
{
    let none = Out {
        kind: Kind::Off,
        forced: false,
        word: 0,
        seen: 0,
    };
    Settled {
        power: Kind::Off,
        alarm: false,
        a: none,
        b: none,
    }
}

// What tick `t` settled, and nothing where the path ended before it.
fn at(path: &Path, t: u32) -> Settled
    requires { 1 ≤ t }
    ensures { result ≡ at path.now.settled t }
{
    if t <= path.len() {
        path.get(t)
    } else {
        nothing()
    }
}

fn is_same(a: Kind, b: Kind) -> bool
    ensures { result ≡ is_same a b }
{
    a == b
}

fn is_off(kind: Kind) -> bool
    ensures { result ≡ is_off kind }
{
    kind == Kind::Off
}

fn is_different(settled: Settled, usual: Settled) -> bool
    ensures { result ≡ differs settled usual }
{
    let powers = is_same(settled.power, usual.power);
    let alarms = settled.alarm == usual.alarm;
    let firsts = is_same(settled.a.kind, usual.a.kind);
    let seconds = is_same(settled.b.kind, usual.b.kind);
    !powers || !alarms || !firsts || !seconds
}

fn differs_at(path: &Path, usual: &Path, t: u32) -> bool
    requires { 1 ≤ t }
    ensures { result ≡ differs_at path.now.settled usual.now.settled t }
{
    is_different(at(path, t), at(usual, t))
}

fn is_lost(settled: Settled, usual: Settled) -> bool
    ensures { result ≡ is_lost settled usual }
{
    is_off(settled.power) && !is_off(usual.power)
}

fn is_lost_at(path: &Path, usual: &Path, from: u32, t: u32) -> bool
    requires { 1 ≤ t }
    ensures { result ≡ is_lost_at path.now.settled usual.now.settled from t }
{
    from <= t && is_lost(at(path, t), at(usual, t))
}

// Whether the clauses granted this kind at tick `t`, where that is a tick.
fn is_granted(kinds: &[Kind], t: u32, kind: Kind) -> bool
    ensures { result ≡ is_granted kinds.now t kind }
{
    if t == 0 {
        return false;
    }
    match kinds.get(t as usize - 1) {
        Some(granted) => is_same(*granted, kind),
        None => false,
    }
}

fn is_ungranted_at(path: &Path, kinds: &[Kind], t: u32) -> bool
    requires { 1 ≤ t }
    ensures { result ≡ is_ungranted_at path.now.settled kinds.now t }
{
    let power = at(path, t).power;
    let one_before = is_granted(kinds, t - 1, power);
    let two_before = is_granted(kinds, (t - 1).saturating_sub(1), power);
    !is_off(power) && !one_before && !two_before
}

fn is_back_at(path: &Path, off: Option<u32>, t: u32) -> bool
    requires { 1 ≤ t }
    ensures { result ≡ is_back_at path.now.settled off t }
{
    match off {
        Some(off) => off < t && !is_off(at(path, t).power),
        None => false,
    }
}

fn first_of(first: Option<u32>, passes: bool, t: u32) -> Option<u32>
    ensures { result ≡ or_else first (if passes then Some t else None) }
{
    match first {
        Some(first) => Some(first),
        None if passes => Some(t),
        None => None,
    }
}

fn either(a: bool, b: bool) -> bool
    ensures { result ≡ (a || b) }
{
    a || b
}

fn first_difference(path: &Path, usual: &Path) -> Option<u32>
    ensures { result ≡ first_to (length path.now.settled) (differs_at path.now.settled usual.now.settled) }
{
    let mut first = None;
    for before in 0..path.len() {
        first = first_of(first, differs_at(path, usual, before + 1), before + 1);
    }
    first
}

fn first_off(path: &Path, usual: &Path, from: u32) -> Option<u32>
    ensures { result ≡ first_to (length path.now.settled) (is_lost_at path.now.settled usual.now.settled from) }
{
    let mut first = None;
    for before in 0..path.len() {
        first = first_of(first, is_lost_at(path, usual, from, before + 1), before + 1);
    }
    first
}

fn one_if(holds: bool) -> u32
    ensures value { result ≡ (if holds then 1 else 0) }
    ensures few { result ≤ 1 }
{
    u32::from(holds)
}

fn ungranted_ticks(path: &Path, kinds: &[Kind]) -> u32
    ensures { result ≡ count_to (length path.now.settled) (is_ungranted_at path.now.settled kinds.now) }
{
    let mut count: u32 = 0;
    for before in 0..path.len() {
        count += one_if(is_ungranted_at(path, kinds, before + 1));
    }
    count
}

#[tactic(auto, unfolding(lift_model::specs::Ticks::some_to))]
fn comes_back(path: &Path, off: Option<u32>) -> bool
    ensures { result ≡ some_to (length path.now.settled) (is_back_at path.now.settled off) }
{
    let mut back = false;
    for before in 0..path.len() {
        back = either(back, is_back_at(path, off, before + 1));
    }
    back
}

fn reason_of(path: &Path, off: Option<u32>) -> Option<Reason>
    ensures { result ≡ reason_of path.now.settled off }
{
    match off {
        Some(0) | None => None,
        Some(t) => Some(reason_at(t, &at(path, t))),
    }
}

/// The line of a run, beside the run without the fault, where these kinds were granted and the fault begins in this tick.
pub fn line_of(path: &Path, usual: &Path, kinds: &[Kind], tick: u32) -> Line
    ensures { IsLine result path.now.settled usual.now.settled kinds.now tick }
{
    let off = first_off(path, usual, tick);
    Line {
        differs: first_difference(path, usual),
        off,
        reason: reason_of(path, off),
        ungranted: ungranted_ticks(path, kinds),
        comes_back: comes_back(path, off),
    }
}
