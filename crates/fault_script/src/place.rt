// How far a reading has come, and what each line does to it (own).
ghost use Rattle.std.specs.Prelude.{◌≡◌, ◌<◌, ◌≤◌, ◌+◌, ◌-◌, ◌++◌, [], ◌∷◌, length, replicate, IfOk, IfErr};
ghost use Rattle.script_model.specs.Judging.{weight};
ghost use Rattle.script_model.specs.declared.refusals.LineRefusal.TheVariants.{BadLine};
ghost use Rattle.script_model.specs.Faults.{no_faults, standings_after};
ghost use Rattle.script_model.specs.Judging.{at_start, at_entry, of_form, has_entry, is_simulation, at_frame, at_wires, at_truth, at_side_line, at_fault, at_step, with_step, at_tick, at_end, counted, judged, one_more, waits, input_on, judge_line, tick_steps, More, Refused};

use crate::lines::{end_line, frame_line, side_line, tick_line, truth_line, wires_line};
use crate::went::LineWent;
use can_frame::Frame;
use lift_base::{Form, MOST_FRAMES, MOST_LINES, MOST_TICKS, SOURCES, Side};
use lift_io::NoMemory;
use lift_script::{Script, Step, no_faults};
use lift_trace::{Faults, Frames, Input};
use script_model::{Act, Entry, Line, LineRefusal, SideLine};
use side_lines::{Places, Standings, act, faults_with};
use std::marker::Model;

/// The script so far, and what the lines since the last tick say.
#[derive(Drop)]
pub struct Place {
    form: Form,
    script: Script,
    frames: Frames,
    faults: Faults,
    /// Whether a line of this tick gave a fault.
    faulty: bool,
    wires_given: bool,
    truth_given: [bool; SOURCES],
    waiting: bool,
    others: u32,
    standings: Standings,
    a: u16,
    b: u16,
    truth: [u16; SOURCES],
}

fn is_simulation(form: Form) -> bool
    ensures { result ≡ is_simulation form }
{
    match form {
        Form::Replay | Form::Schedule => false,
        Form::Simulate => true,
    }
}

// Whether a script of this form has such a line: a simulation has neither frames nor lines of a side.
fn has_entry(form: Form, entry: &Entry) -> bool
    ensures { result ≡ has_entry form entry.now }
{
    match entry {
        Entry::Blank | Entry::Wires(_, _) | Entry::Truth(_, _) => true,
        Entry::Frame(_) | Entry::OfSide(_, _) => !is_simulation(form),
    }
}

impl Model for Place {
    ghost use Rattle.lift_base.specs.declared.limits.TheConstants.{MOST_TICKS, MOST_FRAMES, MOST_LINES};
    ghost use Rattle.std.specs.Prelude.{◌≡◌, length, ◌≤◌, false};
    ghost use Rattle.script_model.specs.Faults.{no_faults};
    ghost use Rattle.script_model.specs.Judging.{Place};

    ghost Value = { Rattle.script_model.specs.Judging.Place };

    ghost view = { λ p. record {
      form = p.form;
      script = p.script;
      frames = p.frames;
      faults = p.faults;
      wires_given = p.wires_given;
      truth_given = p.truth_given;
      waiting = p.waiting;
      others = p.others;
      standings = p.standings;
      words = record { a = p.a; b = p.b };
      truth = p.truth;
    } };

    ghost invariant = { λ p. (length p.script.inputs ≤ MOST_TICKS) × (length p.frames ≤ MOST_FRAMES) × (p.others ≤ MOST_LINES)
        × (p.faulty ≡ false → p.faults ≡ no_faults) };
}

impl Place {
    ghost use Rattle.fault_script.specs.Takes.{Takes, Grows};
    ghost use Rattle.fault_script.specs.Fits.{Fits, EntryFits, IfFits};

    /// The place behind the head, for a crew with these places.
    pub fn start(form: Form, places: Places, script: Script) -> Place
        requires { script ≡ record { config = script.config; inputs = []; steps = [] } }
        ensures { result ≡ at_start form places script.config }
    {
        Place {
            form,
            script,
            frames: Frames::new(),
            faults: no_faults(),
            faulty: false,
            wires_given: false,
            truth_given: [false; SOURCES],
            waiting: false,
            others: 0,
            standings: Standings::start(places),
            a: 0,
            b: 0,
            truth: [0; SOURCES],
        }
    }

    /// Takes the line of this number.
    #[tactic(auto, unfolding(script_model::specs::Judging::judge_line))]
    pub fn take(&mut self, number: u32, line: &[u8]) -> LineWent
        ensures takes { Takes result self.old self.new (judge_line self.old number line.now) }
        ensures grows { Grows result self.old self.new }
    {
        match line {
            [] | [b'#', ..] => self.take_said(number, Some(Line::Entry(Entry::Blank))),
            [b'f', rest @ ..] => self.take_said(number, frame_line(rest)),
            [b'w', rest @ ..] => self.take_said(number, wires_line(rest)),
            [b'u', rest @ ..] => self.take_said(number, truth_line(rest)),
            [b't', rest @ ..] => self.take_said(number, tick_line(rest)),
            [b'e', rest @ ..] => self.take_said(number, end_line(rest)),
            [c, rest @ ..] => self.take_said(number, side_line(*c, rest)),
        }
    }

    /// Takes what a line says, where it says anything. Inlined, so that for each kind of line only its own way is left.
    #[inline(always)]
    fn take_said(&mut self, number: u32, said: Option<Line>) -> LineWent
        requires { IfFits said }
        ensures takes { Takes result self.old self.new (judged self.old number said) }
        ensures grows { Grows result self.old self.new }
    {
        match said {
            Some(Line::Tick(n)) => self.take_ticks(number, n),
            Some(Line::End) => self.take_end(),
            Some(Line::Entry(entry)) => self.take_entry(number, entry),
            None => self.take_bad(),
        }
    }

    fn take_bad(&self) -> LineWent
        ensures takes { Takes result self.now self.now (counted self.now (Refused BadLine)) }
        ensures grows { Grows result self.now self.now }
    {
        if self.others >= MOST_LINES {
            return LineWent::Refused(LineRefusal::TooManyLines);
        }
        LineWent::Refused(LineRefusal::BadLine)
    }

    #[inline(always)]
    fn take_entry(&mut self, number: u32, entry: Entry) -> LineWent
        requires { EntryFits entry }
        ensures takes { Takes result self.old self.new (counted self.old (of_form self.old entry (at_entry self.old number entry))) }
        ensures grows { Grows result self.old self.new }
    {
        if self.others >= MOST_LINES {
            return LineWent::Refused(LineRefusal::TooManyLines);
        }
        if !has_entry(self.form, &entry) {
            return LineWent::Refused(LineRefusal::BadLine);
        }
        match entry {
            Entry::Blank => {
                self.count_line();
                LineWent::More
            }
            Entry::Frame(frame) => self.take_frame(frame),
            Entry::Wires(a, b) => self.take_wires(a, b),
            Entry::Truth(j, word) => self.take_truth(j, word),
            Entry::OfSide(side, line) => self.take_side_line(number, side, line),
        }
    }

    /// One more line of this tick.
    fn count_line(&mut self)
        requires { self.old.others < MOST_LINES }
        ensures { self.new ≡ one_more self.old }
    {
        self.others += 1;
    }

    fn take_frame(&mut self, frame: Frame) -> LineWent
        requires { self.old.others < MOST_LINES }
        ensures takes { Takes result self.old self.new (at_frame self.old frame) }
        ensures grows { Grows result self.old self.new }
    {
        if self.frames.len() >= MOST_FRAMES {
            return LineWent::Refused(LineRefusal::TooManyFrames);
        }
        self.frames.push(frame);
        self.wait();
        LineWent::More
    }

    fn take_wires(&mut self, a: u16, b: u16) -> LineWent
        requires { self.old.others < MOST_LINES }
        ensures takes { Takes result self.old self.new (at_wires self.old a b) }
        ensures grows { Grows result self.old self.new }
    {
        if self.wires_given {
            return LineWent::Refused(LineRefusal::BadLine);
        }
        self.a = a;
        self.b = b;
        self.wires_given = true;
        self.wait();
        LineWent::More
    }

    fn take_truth(&mut self, j: u8, word: u16) -> LineWent
        requires room { self.old.others < MOST_LINES }
        requires first { 1 ≤ j }
        requires last { j ≤ SOURCES }
        ensures takes { Takes result self.old self.new (at_truth self.old j word) }
        ensures grows { Grows result self.old self.new }
    {
        let i = j as usize - 1;
        if self.truth_given[i] {
            return LineWent::Refused(LineRefusal::BadLine);
        }
        self.truth_given[i] = true;
        self.truth[i] = word;
        self.wait();
        LineWent::More
    }

    #[cold]
    #[inline(never)]
    fn take_side_line(&mut self, number: u32, side: Side, line: SideLine) -> LineWent
        requires { self.old.others < MOST_LINES }
        ensures takes { Takes result self.old self.new (at_side_line self.old number side line) }
        ensures grows { Grows result self.old self.new }
    {
        match self.form {
            Form::Replay | Form::Simulate => self.take_fault(side, line),
            Form::Schedule => self.take_step(number, act(side, line)),
        }
    }

    /// A fault of a replay, which waits for its tick.
    fn take_fault(&mut self, side: Side, line: SideLine) -> LineWent
        requires { self.old.others < MOST_LINES }
        ensures takes { Takes result self.old self.new (at_fault self.old side line) }
        ensures grows { Grows result self.old self.new }
    {
        if !self.standings.may_come(&self.faults, side, line) {
            return LineWent::Refused(LineRefusal::BadLine);
        }
        self.faults = faults_with(self.faults, side, line);
        self.faulty = true;
        self.wait();
        LineWent::More
    }

    fn take_step(&mut self, number: u32, act: Option<Act>) -> LineWent
        requires { self.old.others < MOST_LINES }
        ensures takes { Takes result self.old self.new (at_step self.old number act) }
        ensures grows { Grows result self.old self.new }
    {
        match act {
            Some(act) => self.note_step(number, act),
            None => LineWent::Refused(LineRefusal::BadLine),
        }
    }

    /// A step of a schedule, which waits for no tick.
    fn note_step(&mut self, number: u32, act: Act) -> LineWent
        requires { self.old.others < MOST_LINES }
        ensures takes { Takes result self.old self.new
            (More (record (one_more self.old) { script = with_step self.old.script number act })) }
        ensures grows { Grows result self.old self.new }
    {
        let step = Step { line: number, act };
        if self.script.push_step(step).is_err() {
            return LineWent::NoMemory;
        }
        self.others += 1;
        LineWent::More
    }

    /// One more line waits for its tick.
    fn wait(&mut self)
        requires { self.old.others < MOST_LINES }
        ensures { self.new ≡ waits self.old }
    {
        self.waiting = true;
        self.others += 1;
    }

    fn take_end(&self) -> LineWent
        ensures takes { Takes result self.now self.now (at_end self.now) }
        ensures grows { Grows result self.now self.now }
    {
        if self.waiting {
            LineWent::Refused(LineRefusal::BadLine)
        } else {
            LineWent::Whole
        }
    }

    fn take_ticks(&mut self, number: u32, n: u32) -> LineWent
        requires first { 1 ≤ n }
        requires last { n ≤ MOST_TICKS }
        ensures takes { Takes result self.old self.new (at_tick self.old number n) }
        ensures grows { Grows result self.old self.new }
    {
        if n > self.script.room() {
            return LineWent::Refused(LineRefusal::TooManyTicks);
        }
        if self.note_ticks(number, n).is_err() {
            return LineWent::NoMemory;
        }
        let frames = std::mem::replace(&mut self.frames, Frames::new());
        let first = self.input(frames, self.faults);
        self.script.push_input(first);
        self.go_on(n - 1);
        self.follow_faults();
        self.wires_given = false;
        self.truth_given = [false; SOURCES];
        self.waiting = false;
        self.others = 0;
        LineWent::More
    }

    /// The sides stand as the faults of the tick leave them.
    fn follow_faults(&mut self)
        ensures { self.new ≡ record self.old { standings = standings_after self.old.standings self.old.faults; faults = no_faults } }
    {
        if self.faulty {
            self.standings.follow(&self.faults);
            self.faults = no_faults();
            self.faulty = false;
        }
    }

    /// The steps of a schedule's ticks.
    fn note_ticks(&mut self, number: u32, n: u32) -> Result<(), NoMemory>
        ensures err { IfErr result (λ _. self.new ≡ self.old) }
        ensures ok { IfOk result (λ _. self.new ≡ record self.old {
          script = record self.old.script { steps = self.old.script.steps ++ tick_steps self.old.form number n };
        }) }
    {
        match self.form {
            Form::Replay | Form::Simulate => Ok(()),
            Form::Schedule => self.script.push_ticks(number, n),
        }
    }

    /// The input of a tick with these frames and faults.
    fn input(&self, frames: Frames, faults: Faults) -> Input
        ensures { result ≡ record { frames = frames; words = self.now.words; truth = self.now.truth; faults = faults } }
    {
        Input {
            frames,
            a: self.a,
            b: self.b,
            truth: self.truth,
            faults,
        }
    }

    /// More ticks, without frames and faults.
    fn go_on(&mut self, n: u32)
        requires room { length self.old.script.inputs + n ≤ self.old.script.config.ticks }
        requires few { self.old.script.config.ticks ≤ MOST_TICKS }
        ensures { self.new ≡ record self.old {
          script = record self.old.script { inputs = self.old.script.inputs ++ replicate n (input_on self.old) };
        } }
    {
        for _ in 0..n {
            let next = self.input(Frames::new(), no_faults());
            self.script.push_input(next);
        }
    }

    /// The script so far.
    pub fn script(self) -> Script
        ensures { result ≡ self.script }
    {
        self.script
    }
}
