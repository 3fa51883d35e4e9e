// Which frames are a source's, and which two of them are a valid pair (EN 50325-5; ticks are own).
ghost use Rattle.std.specs.Prelude.{◌≡◌, ◌+◌, ◌||◌, ◌==◌, nat_le};
ghost use Rattle.lift_model.specs.Live.{is_pair};

use can_frame::Frame;
use srdo_pair::{is_inverted, is_plain, judge};
use std::marker::Model;

/// What is asked of a source: its plain identifier, how long a pair counts, and how far apart its frames may be.
#[derive(Clone, Copy, Debug)]
pub struct Asked {
    pub plain: u16,
    pub sct: u32,
    pub srvt: u32,
}

impl Model for Asked {
    ghost use Rattle.lift_model.specs.Live.{Source};

    ghost Value = { Source };

    ghost view = { λ a. record { plain = a.plain; sct = a.sct; srvt = a.srvt } };

    ghost inverse = { λ s. record { plain = s.plain; sct = s.sct; srvt = s.srvt } };
}

/// A frame, and the tick in which it came.
#[derive(Clone, Copy, Debug)]
pub struct Came {
    pub frame: Frame,
    pub tick: u32,
}

impl Model for Came {
    ghost use Rattle.lift_model.specs.Live.{Timed};

    ghost Value = { Timed };

    ghost view = { λ c. record { frame = c.frame; tick = c.tick } };

    ghost inverse = { λ t. record { frame = t.frame; tick = t.tick } };
}

/// Whether the frame is one of the source's.
pub fn is_of(asked: Asked, frame: &Frame) -> bool
    ensures { result ≡ ((frame.now.id == asked.plain) || (frame.now.id == asked.plain + 1)) }
{
    is_plain(frame, asked.plain) || is_inverted(frame, asked.plain)
}

fn is_in_time(asked: Asked, x: Came, y: Came) -> bool
    ensures { result ≡ nat_le y.tick (x.tick + asked.srvt) }
{
    u64::from(y.tick) <= u64::from(x.tick) + u64::from(asked.srvt)
}

/// Whether the two are a valid pair of the source.
#[tactic(auto, unfolding(lift_model::specs::Live::is_pair))]
pub fn is_pair(asked: Asked, x: Came, y: Came) -> bool
    ensures { result ≡ is_pair asked x y }
{
    is_plain(&x.frame, asked.plain)
        && is_inverted(&y.frame, asked.plain)
        && judge(&x.frame, &y.frame)
        && is_in_time(asked, x, y)
}
