// An object that acts for a failed side and answers what it sees: no answer gives power that was not granted.
ghost use Rattle.lift_model.specs.Plans.{untold};

use crate::calls::{FRAMES, HEAD, OPEN, REQUEST, joined, replayed};
use lift_base::{Kind, Override};
use lift_run::Run;
use saboteur::{Crew, Deed, Saboteur};
use std::alloc::Global;
use std::process::Abort;
use std::thread::Threads;

// What an object answers to the word that it sees, as both of its words.
#[derive(Clone, Copy, Debug)]
enum Answer {
    Seen,
    Inverse,
    // The seen word, with the next stamp.
    NextStamp,
    // The first word that it ever saw.
    First,
}

// An object that answers so, in each tick or only in even ones, with this order to its contactor.
#[derive(Drop)]
struct Adaptive {
    answer: Answer,
    only_even: bool,
    order: Override,
    first: Option<u64>,
}

const STAMP: u64 = 0xFF_FFFF;

fn with_next_stamp(word: u64) -> u64 {
    (word & !STAMP) | (word.wrapping_add(1) & STAMP)
}

impl Saboteur for Adaptive {
    ghost plan = { λ _. untold };

    fn act(&mut self, tick: u32, seen: u64) -> Deed {
        let first = self.first.unwrap_or(seen);
        self.first = Some(first);
        let word = match self.answer {
            Answer::Seen => seen,
            Answer::Inverse => !seen,
            Answer::NextStamp => with_next_stamp(seen),
            Answer::First => first,
        };
        let stored = if self.only_even && tick % 2 == 1 {
            None
        } else {
            Some(word)
        };
        Deed {
            publish: stored,
            command: stored,
            contactor: self.order,
        }
    }
}

const ANSWERS: [Answer; 4] = [
    Answer::Seen,
    Answer::Inverse,
    Answer::NextStamp,
    Answer::First,
];

const ORDERS: [Override; 6] = [
    Override::Keep,
    Override::Follow,
    Override::Force(Kind::Off),
    Override::Force(Kind::Full),
    Override::Force(Kind::Up),
    Override::Force(Kind::Down),
];

// The power at tick `t`, off where there is no such tick.
fn power_at(run: &Run, t: u32) -> Kind {
    if 1 <= t && t <= run.path().len() {
        run.path().get(t).power
    } else {
        Kind::Off
    }
}

// Full is granted at ticks 1 to 20, and nothing after them. So power may be full at ticks 2 to 22; at tick 2 both sides are healthy.
fn is_granted(run: &Run) -> bool {
    let mut good = power_at(run, 2) == Kind::Full;
    for t in 1..41 {
        let power = power_at(run, t);
        let may_be_full = 2 <= t && t <= 22;
        good = good && (power == Kind::Off || (may_be_full && power == Kind::Full));
    }
    good
}

// A crew of this object.
fn crew_of<R: Abort>(rt: &R, alloc: Global, object: Adaptive) -> Crew {
    let object: Box<dyn Saboteur + Send> = Box::new(alloc, object).expect(rt, "memory");
    Crew::of(Vec::from_array(alloc, [Some(object)]).expect(rt, "memory"))
}

// A ride of forty ticks. Side A fails in the third, and is handed the object. In tick 21 the car door opens.
fn is_safe<R: Threads + Abort>(rt: &R, alloc: Global, crew: Crew) -> bool {
    let lines = "t 2\nx A\ng A 0\nt 18\n";
    let pieces = &[HEAD, FRAMES, REQUEST, lines, FRAMES, OPEN, "t 20\ne\n"];
    let text = joined(rt, alloc, pieces);
    let outcome = replayed(rt, alloc, &text, crew);
    outcome.status == 0 && outcome.run.rounds() == 40 && is_granted(&outcome.run)
}

#[test]
fn no_answer_gives_power_that_was_not_granted(rt: HostRuntime) {
    for answer in ANSWERS {
        for order in ORDERS {
            for only_even in [false, true] {
                let object = Adaptive {
                    answer,
                    only_even,
                    order,
                    first: None,
                };
                let crew = crew_of(&rt, rt.alloc(), object);
                assert!(rt;
                    is_safe(&rt, rt.alloc(), crew),
                    "{answer:?} {order:?} {only_even}"
                );
            }
        }
    }
}
