//! A consumer of one source's frames that counts down: how long an inverted frame may still come, and how long
//! the value still lives. It keeps no tick number. `srdo_deadline` does the same by tick numbers.
#![tactic(auto)]

ghost use Rattle.std.specs.Prelude.{◌≡◌, ◌≤◌, [], Option, Some, None, if◌then◌else◌};
ghost use Rattle.srdo_count.specs.Steps.{is_waiting, one_left, older, pair_with};

use can_frame::Frame;
use srdo_pair::{Consumer, SetTo, is_inverted, is_plain, judge, value_in};

/// The newest frame of the source.
#[derive(Clone, Copy, Debug)]
enum Newest {
    NotPlain,
    /// A plain frame. Its inverted frame is in time for so many ticks after the present one.
    Plain(Frame, u32),
    /// A plain frame whose inverted frame would come too late.
    LatePlain,
}

/// The value of the newest pair, with the number of ticks for which it still counts.
#[derive(Clone, Copy, Debug)]
struct Live {
    value: u16,
    left: u32,
}

/// A consumer that counts down (EN 50325-5; counts in ticks are own).
#[derive(Drop)]
pub struct CountSource {
    plain: u16,
    sct: u32,
    srvt: u32,
    newest: Newest,
    live: Option<Live>,
    ghost short: { sct ≤ 1000 },
}

fn is_waiting(newest: &Newest) -> bool
    ensures { result ≡ is_waiting newest.now }
{
    match newest {
        Newest::NotPlain => false,
        _ => true,
    }
}

/// What a plain frame leaves of the live pair: it may be the one plain frame behind it.
fn behind_plain(newest: &Newest, live: Option<Live>) -> Option<Live>
    ensures { result ≡ (if is_waiting newest.now then None else live) }
{
    if is_waiting(newest) { None } else { live }
}

/// The newest frame a tick later.
fn age(newest: &mut Newest)
    ensures { newest.new ≡ older newest.old }
{
    if let Newest::Plain(_, left) = newest {
        if *left > 0 {
            *left -= 1;
        } else {
            *newest = Newest::LatePlain;
        }
    }
}

/// The live pair a tick later.
fn count_down(live: &mut Option<Live>)
    ensures { live.new ≡ one_left live.old }
{
    if let Some(pair) = live {
        if pair.left > 0 {
            pair.left -= 1;
        } else {
            *live = None;
        }
    }
}

/// The pair that an inverted frame makes with the newest frame.
fn pair_with(newest: &Newest, frame: &Frame, sct: u32) -> Option<Live>
    requires { sct ≤ 1000 }
    ensures { result ≡ pair_with newest.now frame.now sct }
{
    match newest {
        Newest::Plain(plain, _) if judge(plain, frame) => Some(Live {
            value: value_in(plain),
            left: sct + 1,
        }),
        _ => None,
    }
}

impl CountSource {
    ghost use Rattle.srdo_count.specs.Counted.{StandsFor};

    /// A consumer for the source with this plain identifier. `sct` is how many ticks a value lives after its
    /// pair's second frame, at most 1000; `srvt` how many ticks the second frame may come after the first.
    pub fn new(plain: u16, sct: u32, srvt: u32) -> CountSource
        requires { sct ≤ 1000 }
        ensures { StandsFor result (record { plain = plain; sct = sct; srvt = srvt }) [] 0 }
    {
        CountSource {
            plain,
            sct,
            srvt,
            newest: Newest::NotPlain,
            live: None,
        }
    }
}

impl SetTo for CountSource {
    fn set_to(plain: u16, sct: u32, srvt: u32) -> CountSource {
        CountSource::new(plain, sct, srvt)
    }
}

impl Consumer for CountSource {
    ghost use Rattle.srdo_count.specs.Counted.{StandsFor};

    ghost stands = { StandsFor };

    fn frame(&mut self, frame: &Frame) {
        if is_plain(frame, self.plain) {
            self.live = behind_plain(&self.newest, self.live);
            self.newest = Newest::Plain(*frame, self.srvt);
        } else if is_inverted(frame, self.plain) {
            self.live = pair_with(&self.newest, frame, self.sct);
            self.newest = Newest::NotPlain;
        }
    }

    fn end_tick(&mut self) {
        age(&mut self.newest);
        count_down(&mut self.live);
    }

    fn value(&self) -> Option<u16> {
        self.live.map(|live| live.value)
    }
}
