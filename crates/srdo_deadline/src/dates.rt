// What is kept of a source's frames as tick numbers, and what a frame makes of it.
ghost use Rattle.std.specs.Prelude.{◌≡◌, ◌≤◌, ◌+◌, ◌^◌, is_some, nat_le, Option, None, if◌then◌else◌};
ghost use Rattle.srdo_deadline.specs.Deadlines.{until_with};

use can_frame::Frame;
use srdo_pair::{judge, value_in};

/// A plain frame that is the newest, and the tick in which it came.
#[derive(Clone, Copy, Debug)]
pub struct Waiting {
    pub frame: Frame,
    pub came: u32,
}

/// The value of the newest pair, and the last tick at which it counts.
#[derive(Clone, Copy, Debug)]
pub struct Until {
    pub value: u16,
    pub last: u32,
}

/// What a plain frame leaves of the pair: it may be the one plain frame behind it.
pub fn behind_plain(waiting: Option<Waiting>, until: Option<Until>) -> Option<Until>
    ensures { result ≡ (if is_some waiting then None else until) }
{
    if waiting.is_some() { None } else { until }
}

/// The pair that an inverted frame of this tick makes with the plain frame that waits.
pub fn until_with(
    waiting: Option<Waiting>,
    frame: &Frame,
    tick: u32,
    srvt: u32,
    sct: u32,
) -> Option<Until>
    requires tick { tick ≤ 2 ^ 25 }
    requires short { sct ≤ 1000 }
    ensures { result ≡ until_with waiting frame.now tick srvt sct }
{
    let plain = waiting?;
    if judge(&plain.frame, frame) && in_time(&plain, tick, srvt) {
        Some(Until {
            value: value_in(&plain.frame),
            last: tick + sct,
        })
    } else {
        None
    }
}

fn in_time(plain: &Waiting, tick: u32, srvt: u32) -> bool
    ensures { result ≡ nat_le tick (plain.now.came + srvt) }
{
    u64::from(tick) <= u64::from(plain.came) + u64::from(srvt)
}
