// The data of a ride: its lanes, its losses of power and its report (own).
ghost use Rattle.std.specs.Prelude.{◌<◌, ◌^◌, IfOk, length};
ghost use Rattle.rideview.specs.Data.{AreLanesOf, AreLossesOf, IsRideOf};

use crate::growing::push;
use crate::lane_data::{LaneData, lane_data_of};
use crate::loss_data::{LossData, loss_data_of};
use lift_io::NoMemory;
use lift_run::Run;
use lift_script::Script;
use ride_lanes::{Lane, Loss, Moment, lanes_of, losses_of, moments_of};
use std::alloc::Global;

/// The data of a ride.
#[derive(Drop)]
pub struct Ride {
    /// How many ticks it has.
    pub ticks: u32,
    pub lanes: Vec<LaneData>,
    pub losses: Vec<LossData>,
}

fn lane_data(alloc: Global, lanes: &[Lane], moments: &[Moment]) -> Result<Vec<LaneData>, NoMemory>
    requires { length moments.now < 2 ^ 24 }
    ensures { IfOk result (λ it. AreLanesOf lanes.now moments.now it.items) }
{
    let mut all = Vec::new(alloc);
    for lane in lanes {
        let it = lane_data_of(alloc, *lane, moments)?;
        push(&mut all, it)?;
    }
    Ok(all)
}

fn loss_data(alloc: Global, losses: &[Loss], moments: &[Moment]) -> Result<Vec<LossData>, NoMemory>
    ensures { IfOk result (λ it. AreLossesOf losses.now moments.now it.items) }
{
    let mut all = Vec::new(alloc);
    for loss in losses {
        let it = loss_data_of(alloc, *loss, moments)?;
        push(&mut all, it)?;
    }
    Ok(all)
}

/// The data of the run of a script. `NoMemory`: there is no memory for it.
pub fn ride_of(alloc: Global, script: &Script, run: &Run) -> Result<Ride, NoMemory>
    ensures { IfOk result (IsRideOf script.now run.now) }
{
    let moments = moments_of(alloc, script, run)?;
    let there = script.config().configured();
    let lanes = lanes_of(alloc, &there)?;
    let losses = losses_of(alloc, run.path())?;
    Ok(Ride {
        ticks: moments.len() as u32,
        lanes: lane_data(alloc, &lanes, &moments)?,
        losses: loss_data(alloc, &losses, &moments)?,
    })
}
