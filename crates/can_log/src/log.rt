// What a log comes to: the frames that are taken, each with the tick of its time, or the first line that is refused (own).
ghost use Rattle.std.specs.Prelude.{ℕ, ◌≡◌, ◌≤◌, ◌<◌, ◌+◌, nat_lt, if◌then◌else◌, length, MatchResult};
ghost use Rattle.lift_base.specs.declared.limits.TheConstants.{MOST_FRAMES};
ghost use Rattle.can_log.specs.Taken.{nothing_of, tick_at, first_or, frames_in, is_of, is_ours, with_other, with_frame, come_to, at_tick, at_stamped, at_line, log_of};
ghost use Rattle.can_log.specs.Went.{Went, IsRefusedBy};

use crate::lines::{Stamped, cut, read_line};
use can_frame::Frame;
use lift_base::{MOST_FRAMES, SOURCES};
use std::alloc::Global;
use std::marker::Model;

/// Why a line of a log is refused.
#[derive(Clone, Copy, Debug, PartialEq, Eq)]
pub enum Refusal {
    /// It has no form of a log's line.
    NoLogLine,
    /// Its time is before that of an earlier line.
    TimeGoesBack,
    /// Its tick is past the last one that a script may have.
    TooManyTicks,
    /// Its tick has sixteen frames already.
    TooManyFrames,
}

/// Why a log was not taken.
#[derive(Clone, Copy, Debug, PartialEq, Eq)]
pub enum LogFault {
    /// The first line that is refused, counted from 1.
    Line(u64, Refusal),
    NoMemory,
}

/// How a log is taken.
#[derive(Clone, Copy, Debug, PartialEq, Eq)]
pub struct Taking {
    /// The identifiers of the sources' plain frames. The inverted frame has the next.
    pub ids: [Option<u16>; SOURCES],
    /// How many microseconds a tick lasts, at least 1.
    pub tick: u64,
    /// How many ticks there may be.
    pub most: u32,
}

/// A frame that was taken, and the tick of its time, from 1.
#[derive(Clone, Copy, Debug, PartialEq, Eq)]
pub struct Taken {
    pub tick: u32,
    pub frame: Frame,
}

/// The log so far.
#[derive(Drop)]
pub struct Log {
    taking: Taking,
    first: Option<u64>,
    last: u64,
    ticks: u32,
    taken: Vec<Taken>,
    here: usize,
    others: u64,
}

impl Model for Log {
    ghost use Rattle.can_log.specs.Taken.{LogData};
    ghost use Rattle.can_log.specs.Kept.{IsLog};

    ghost Value = { LogData };

    ghost view = { λ l. record {
      taking = l.taking;
      first = l.first;
      last = l.last;
      ticks = l.ticks;
      taken = l.taken.items;
      others = l.others;
    } };

    ghost invariant = { λ l. IsLog (record {
      taking = l.taking;
      first = l.first;
      last = l.last;
      ticks = l.ticks;
      taken = l.taken.items;
      others = l.others;
    }) l.here };
}

/// How many ticks are over at a time.
pub(crate) fn ticks_before(first: u64, tick: u64, time: u64) -> u64
    requires { 0 < tick }
    ensures { result + 1 ≡ tick_at first tick time }
{
    time.saturating_sub(first) / tick
}

fn is_of(id: u16, plain: Option<u16>) -> bool
    ensures { result ≡ is_of id plain }
{
    match plain {
        Some(plain) => id == plain || u32::from(id) == u32::from(plain) + 1,
        None => false,
    }
}

fn is_ours(ids: &[Option<u16>], id: u16) -> bool
    ensures { result ≡ is_ours ids.now id }
{
    ids.iter().any(|plain| is_of(id, *plain))
}

impl Log {
    ghost use Rattle.std.specs.List.{AllByRecursion};
    ghost use Rattle.can_log.specs.Kept.{IsSorted};

    fn open(alloc: Global, taking: Taking) -> Log
        requires { 0 < taking.tick }
        ensures { result ≡ nothing_of taking }
    {
        Log {
            taking,
            first: None,
            last: 0,
            ticks: 0,
            taken: Vec::new(alloc),
            here: 0,
            others: 0,
        }
    }

    /// The time of the first frame, in microseconds; 0 where there is none.
    pub fn first(&self) -> u64
        ensures { result ≡ first_or 0 self.now.first }
    {
        self.first.unwrap_or(0)
    }

    /// The tick of the last frame: so many ticks the script has.
    pub fn ticks(&self) -> u32
        ensures { result ≡ self.now.ticks }
    {
        self.ticks
    }

    /// How many microseconds a tick lasts.
    pub fn tick(&self) -> u64
        ensures value { result ≡ self.now.taking.tick }
        ensures some { 0 < result }
    {
        self.taking.tick
    }

    /// The frames that were taken, in their order.
    pub fn taken(&self) -> &[Taken]
        ensures value { result.now ≡ self.now.taken }
        ensures sorted { IsSorted self.now.taken }
        ensures reach { AllByRecursion (λ t. (1 ≤ t.tick) × (t.tick ≤ self.now.ticks)) self.now.taken }
        ensures few { (n : ℕ) → length (frames_in n self.now.taken) ≤ MOST_FRAMES }
    {
        &self.taken
    }

    /// How many frames were not taken: foreign ones, and those of other identifiers.
    pub fn others(&self) -> u64
        ensures { result ≡ self.now.others }
    {
        self.others
    }

    fn other(&mut self)
        ensures { self.new ≡ with_other self.old }
    {
        self.others = self.others.saturating_add(1);
    }

    /// A frame of the last tick.
    fn push(&mut self, number: u64, frame: Frame) -> Result<(), LogFault>
        requires { 1 ≤ self.old.ticks }
        ensures { Went result number (if nat_lt (length (frames_in self.old.ticks self.old.taken)) MOST_FRAMES
            then Ok (with_frame self.old self.old.ticks frame) else Err Refusal.TooManyFrames) self.new }
    {
        if self.here >= MOST_FRAMES {
            return Err(LogFault::Line(number, Refusal::TooManyFrames));
        }
        let taken = Taken {
            tick: self.ticks,
            frame,
        };
        match self.taken.push(taken) {
            Ok(()) => {
                self.here += 1;
                Ok(())
            }
            Err(_) => Err(LogFault::NoMemory),
        }
    }

    fn take_data(&mut self, number: u64, frame: Frame) -> Result<(), LogFault>
        requires { 1 ≤ self.old.ticks }
        ensures { Went result number (at_tick self.old self.old.ticks (Some frame)) self.new }
    {
        if is_ours(&self.taking.ids, frame.id) {
            self.push(number, frame)
        } else {
            self.other();
            Ok(())
        }
    }

    fn take_frame(&mut self, number: u64, frame: Option<Frame>) -> Result<(), LogFault>
        requires { 1 ≤ self.old.ticks }
        ensures { Went result number (at_tick self.old self.old.ticks frame) self.new }
    {
        match frame {
            Some(frame) => self.take_data(number, frame),
            None => {
                self.other();
                Ok(())
            }
        }
    }

    /// Comes to the tick of this time.
    fn come_to(&mut self, first: u64, time: u64, n: u32)
        requires first { first ≡ first_or time self.old.first }
        requires later { self.old.last ≤ time }
        requires tick { n ≡ tick_at first self.old.taking.tick time }
        requires most { n ≤ self.old.taking.most }
        ensures { self.new ≡ come_to self.old first time }
    {
        if self.ticks < n {
            self.here = 0;
        }
        self.first = Some(first);
        self.last = time;
        self.ticks = n;
    }

    fn take_stamped(&mut self, number: u64, stamped: &Stamped) -> Result<(), LogFault>
        ensures { Went result number (at_stamped self.old (Some stamped.now)) self.new }
    {
        let time = stamped.time;
        if time < self.last {
            return Err(LogFault::Line(number, Refusal::TimeGoesBack));
        }
        let first = self.first.unwrap_or(time);
        let before = ticks_before(first, self.taking.tick, time);
        if before >= u64::from(self.taking.most) {
            return Err(LogFault::Line(number, Refusal::TooManyTicks));
        }
        self.come_to(first, time, before as u32 + 1);
        self.take_frame(number, stamped.frame)
    }

    fn take_line(&mut self, number: u64, line: &[u8]) -> Result<(), LogFault>
        ensures { Went result number (at_line self.old line.now) self.new }
    {
        if line.is_empty() {
            return Ok(());
        }
        match read_line(line) {
            Some(stamped) => self.take_stamped(number, &stamped),
            None => Err(LogFault::Line(number, Refusal::NoLogLine)),
        }
    }
}

/// Takes a log, line by line. `LogFault::Line`: the first line that is refused. `NoMemory` says nothing of the log.
pub fn read_log(alloc: Global, taking: Taking, text: &[u8]) -> Result<Log, LogFault>
    requires { 0 < taking.tick }
    ensures { MatchResult result (λ log. log_of taking text.now ≡ Ok log) (IsRefusedBy (log_of taking text.now)) }
{
    let mut log = Log::open(alloc, taking);
    let mut rest = text;
    let mut number: u64 = 1;
    while let Some((line, more)) = cut(b'\n', rest) {
        log.take_line(number, line)?;
        rest = more;
        number += 1;
    }
    log.take_line(number, rest)?;
    Ok(log)
}
