// The data of a loss of power: its line of the report, and the lanes that took it (own).
ghost use Rattle.std.specs.Prelude.{◌≡◌, IfOk};
ghost use Rattle.rideview.specs.Data.{IsLossOf, lanes_at};

use crate::growing::push;
use crate::texts::add_reason;
use lift_io::NoMemory;
use ride_lanes::{Lane, Loss, Moment, takers_of};
use std::alloc::{AllocError, Global};
use std::fmt::Write;

/// The data of a loss.
#[derive(Drop)]
pub struct LossData {
    pub loss: Loss,
    /// Its line of the report.
    pub line: String,
    /// The lanes that took the power, and their names.
    pub lanes: Vec<Lane>,
    pub names: Vec<&'static str>,
}

fn line_of(alloc: Global, loss: &Loss) -> Result<String, AllocError> {
    let mut line = String::new(alloc);
    let tick = loss.tick;
    write!(line, "{tick} off ")?;
    add_reason(&mut line, loss.reason, loss.detail)?;
    Ok(line)
}

// The lanes that took the power, with the image of the tick that did.
fn lanes_at(alloc: Global, moments: &[Moment], loss: &Loss) -> Result<Vec<Lane>, NoMemory>
    ensures { IfOk result (λ lanes. lanes.items ≡ lanes_at moments.now loss.now) }
{
    if loss.cause == 0 || moments.len() < loss.cause as usize {
        return Ok(Vec::new(alloc));
    }
    let moment = &moments[loss.cause as usize - 1];
    takers_of(alloc, loss.taker, &moment.sight.facts.image)
}

fn names_of(alloc: Global, lanes: &[Lane]) -> Result<Vec<&'static str>, NoMemory> {
    let mut names = Vec::new(alloc);
    for lane in lanes {
        push(&mut names, lane.name())?;
    }
    Ok(names)
}

/// The data of a loss in a run of these ticks. `NoMemory`: there is no memory for it.
pub fn loss_data_of(alloc: Global, loss: Loss, moments: &[Moment]) -> Result<LossData, NoMemory>
    ensures { IfOk result (λ it. IsLossOf loss moments.now it) }
{
    let line = match line_of(alloc, &loss) {
        Ok(line) => line,
        Err(_) => return Err(NoMemory),
    };
    let lanes = lanes_at(alloc, moments, &loss)?;
    let names = names_of(alloc, &lanes)?;
    Ok(LossData {
        loss,
        line,
        lanes,
        names,
    })
}
