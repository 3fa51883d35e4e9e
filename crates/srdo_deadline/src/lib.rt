//! A consumer of one source's frames that keeps tick numbers: when the newest plain frame came, and the last
//! tick at which the value counts. It counts nothing down. `srdo_count` does the same by counters.
#![tactic(auto)]

mod dates;

ghost use Rattle.std.specs.Prelude.{◌≡◌, ◌<◌, ◌≤◌, ◌+◌, ◌^◌, []};

use can_frame::Frame;
use dates::{Until, Waiting, behind_plain, until_with};
use srdo_pair::{Consumer, SetTo, is_inverted, is_plain};

/// A consumer that keeps tick numbers (EN 50325-5; counts in ticks are own).
#[derive(Drop)]
pub struct DeadlineSource {
    plain: u16,
    sct: u32,
    srvt: u32,
    ended: u32,
    waiting: Option<Waiting>,
    until: Option<Until>,
    ghost short: { sct ≤ 1000 },
    ghost few: { ended ≤ 2 ^ 24 },
}

impl DeadlineSource {
    ghost use Rattle.srdo_deadline.specs.Dated.{StandsFor};

    /// A consumer for the source with this plain identifier. `sct` is how many ticks a value lives after its
    /// pair's second frame, at most 1000; `srvt` how many ticks the second frame may come after the first.
    pub fn new(plain: u16, sct: u32, srvt: u32) -> DeadlineSource
        requires { sct ≤ 1000 }
        ensures { StandsFor result (record { plain = plain; sct = sct; srvt = srvt }) [] 0 }
    {
        DeadlineSource {
            plain,
            sct,
            srvt,
            ended: 0,
            waiting: None,
            until: None,
        }
    }
}

impl SetTo for DeadlineSource {
    fn set_to(plain: u16, sct: u32, srvt: u32) -> DeadlineSource {
        DeadlineSource::new(plain, sct, srvt)
    }
}

impl Consumer for DeadlineSource {
    ghost use Rattle.srdo_deadline.specs.Dated.{StandsFor};

    ghost stands = { StandsFor };

    fn frame(&mut self, frame: &Frame) {
        let tick = self.ended + 1;
        if is_plain(frame, self.plain) {
            self.until = behind_plain(self.waiting, self.until);
            self.waiting = Some(Waiting {
                frame: *frame,
                came: tick,
            });
        } else if is_inverted(frame, self.plain) {
            self.until = until_with(self.waiting, frame, tick, self.srvt, self.sct);
            self.waiting = None;
        }
    }

    fn end_tick(&mut self) {
        self.ended += 1;
    }

    fn value(&self) -> Option<u16> {
        match self.until {
            Some(until) if self.ended <= until.last => Some(until.value),
            _ => None,
        }
    }
}
