// Where power is lost: a tick that settles Off after one with power; the tick that took it, and what (own).
ghost use Rattle.std.specs.Prelude.{◌≡◌, ◌<◌, ◌≤◌, ◌^◌, ◌++◌, List, length, option_to_list, OnOk, IfOk};
ghost use Rattle.core_model.specs.Settling.{Settled, out_at};
ghost use Rattle.report.specs.Ticks.{settled_before};
ghost use Rattle.ride_lanes.specs.Losses.{AreLosses, cause_of, is_loss, is_recent, is_told, loss_at, loss_of, losses_of, teller_of};

use crate::takers::{Taker, taker_of};
use channel_words::stamp_of;
use contactor_pair::{Path, Settled};
use core_model::CONTACTOR_OPEN;
use lift_base::{Kind, Side};
use lift_io::NoMemory;
use report::reason_at;
use std::alloc::Global;

/// A loss of power.
#[derive(Clone, Copy, Debug, PartialEq, Eq)]
pub struct Loss {
    /// The tick that is off, from 2.
    pub tick: u32,
    /// The tick whose inputs or words took the power: one or two before, or the one before where no word tells it.
    pub cause: u32,
    /// The reason of the report, as a code.
    pub reason: u8,
    /// What the clause failed at.
    pub detail: u8,
    pub taker: Taker,
}

fn is_loss(before: Kind, power: Kind) -> bool
    ensures { result ≡ is_loss before power }
{
    before != Kind::Off && power == Kind::Off
}

// The side that the reason tells of: the first whose output is off.
fn teller_of(settled: &Settled) -> Side
    ensures { result ≡ teller_of settled.now }
{
    if settled.a.kind == Kind::Off {
        Side::A
    } else {
        Side::B
    }
}

fn word_of(side: Side, settled: &Settled) -> u64
    ensures { result ≡ (out_at side settled.now).word }
{
    match side {
        Side::A => settled.a.word,
        Side::B => settled.b.word,
    }
}

fn is_told(code: u8) -> bool
    ensures { result ≡ is_told code }
{
    0 < code && code <= CONTACTOR_OPEN
}

fn is_recent(stamp: u32, tick: u32) -> bool
    requires { stamp < 2 ^ 24 }
    ensures { result ≡ is_recent stamp tick }
{
    0 < stamp && (stamp + 1 == tick || stamp + 2 == tick)
}

fn cause_of(tick: u32, code: u8, word: u64) -> u32
    requires { 1 ≤ tick }
    ensures { result ≡ cause_of tick code word }
{
    let stamp = stamp_of(word);
    if is_told(code) && is_recent(stamp, tick) {
        stamp
    } else {
        tick - 1
    }
}

#[tactic(auto, unfolding(crate::specs::Losses::loss_at))]
fn loss_at(tick: u32, settled: &Settled) -> Loss
    requires { 1 ≤ tick }
    ensures { result ≡ loss_at tick settled.now }
{
    let reason = reason_at(tick, settled);
    let side = teller_of(settled);
    Loss {
        tick,
        cause: cause_of(tick, reason.code, word_of(side, settled)),
        reason: reason.code,
        detail: reason.detail,
        taker: taker_of(reason.code, reason.detail, side),
    }
}

// The power of the tick before tick `n`.
fn power_before(path: &Path, n: u32) -> Kind
    requires first { 1 ≤ n }
    requires last { n ≤ length path.now.settled }
    ensures { result ≡ (settled_before path.now.settled n).power }
{
    if n == 1 {
        return Kind::Off;
    }
    path.get(n - 1).power
}

fn loss_of(path: &Path, n: u32) -> Option<Loss>
    requires first { 1 ≤ n }
    requires last { n ≤ length path.now.settled }
    ensures { result ≡ loss_of path.now.settled n }
{
    let settled = path.get(n);
    if is_loss(power_before(path, n), settled.power) {
        Some(loss_at(n, &settled))
    } else {
        None
    }
}

fn push(losses: &mut Vec<Loss>, loss: Option<Loss>) -> Result<(), NoMemory>
    ensures { OnOk result (losses.new.items ≡ losses.old.items ++ option_to_list loss) }
{
    match loss {
        Some(loss) => losses.push(loss).map_err(|_| NoMemory),
        None => Ok(()),
    }
}

/// The losses of power of a path, in order. `NoMemory`: there is no memory for them.
#[tactic(auto, unfolding(crate::specs::Losses::losses_of))]
pub fn losses_of(alloc: Global, path: &Path) -> Result<Vec<Loss>, NoMemory>
    ensures { IfOk result (λ losses. losses.items ≡ losses_of path.now.settled) }
{
    let mut losses = Vec::new(alloc);
    for before in 0..path.len() {
        push(&mut losses, loss_of(path, before + 1))?;
    }
    Ok(losses)
}

/// Each loss of power has its mark, and nothing else has one.
pub fn losses_are_marked()
    ensures { (path : List Settled) → AreLosses path (losses_of path) }
{}
