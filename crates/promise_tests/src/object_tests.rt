// Two sides that act at the same time, and objects that are dropped.
ghost use Rattle.lift_model.specs.Plans.{untold};

use crate::calls::{HEAD, joined, replayed};
use saboteur::{Crew, Deed, Saboteur};
use std::alloc::Global;
use std::process::Abort;
use std::sync::Arc;
use std::sync::atomic::{AtomicU64, Ordering};
use std::thread::Threads;

// An object that raises its flag, and looks for the other's.
#[derive(Drop)]
struct Watcher {
    flag: Arc<AtomicU64, Global>,
    other: Arc<AtomicU64, Global>,
    saw: Arc<AtomicU64, Global>,
}

impl Saboteur for Watcher {
    ghost plan = { λ _. untold };

    fn act(&mut self, _tick: u32, _seen: u64) -> Deed {
        self.flag.store(1, Ordering::SeqCst);
        for _ in 0..50_000_000u64 {
            if self.other.load(Ordering::SeqCst) == 1 {
                self.saw.fetch_add(1, Ordering::SeqCst);
                break;
            }
        }
        Deed::idle()
    }
}

// A value that two objects share.
fn shared<R: Abort>(rt: &R, alloc: Global) -> Arc<AtomicU64, Global> {
    Arc::new(alloc, AtomicU64::new(0)).expect(rt, "memory")
}

// The same value.
fn same<R: Abort>(rt: &R, shared: &Arc<AtomicU64, Global>) -> Arc<AtomicU64, Global> {
    Arc::try_clone(shared).expect(rt, "memory")
}

// A crew of these two.
fn crew_of<R: Abort>(
    rt: &R,
    alloc: Global,
    a: Box<dyn Saboteur + Send>,
    b: Box<dyn Saboteur + Send>,
) -> Crew {
    Crew::of(Vec::from_array(alloc, [Some(a), Some(b)]).expect(rt, "memory"))
}

// Two watchers of one another.
fn watchers<R: Abort>(rt: &R, alloc: Global, saw: &Arc<AtomicU64, Global>) -> Crew {
    let flag_a = shared(rt, alloc);
    let flag_b = shared(rt, alloc);
    let a = Watcher {
        flag: same(rt, &flag_a),
        other: same(rt, &flag_b),
        saw: same(rt, saw),
    };
    let b = Watcher {
        flag: flag_b,
        other: flag_a,
        saw: same(rt, saw),
    };
    let a: Box<dyn Saboteur + Send> = Box::new(alloc, a).expect(rt, "memory");
    let b: Box<dyn Saboteur + Send> = Box::new(alloc, b).expect(rt, "memory");
    crew_of(rt, alloc, a, b)
}

#[test]
fn both_channels_at_once(rt: HostRuntime) {
    let alloc = rt.alloc();
    let saw = shared(&rt, alloc);
    let crew = watchers(&rt, alloc, &saw);
    let text = joined(&rt, alloc, &[HEAD, "x A\ng A 0\nx B\ng B 1\nt\ne\n"]);
    replayed(&rt, alloc, &text, crew);
    assert!(rt; saw.load(Ordering::SeqCst) == 2);
}

// An object that raises a flag when it is dropped.
struct Flagged {
    flag: Arc<AtomicU64, Global>,
}

impl Drop for Flagged {
    fn drop(self) {
        self.flag.store(1, Ordering::SeqCst);
        let Flagged { flag: _ } = self;
    }
}

impl Saboteur for Flagged {
    ghost plan = { λ _. untold };

    fn act(&mut self, _tick: u32, _seen: u64) -> Deed {
        Deed::idle()
    }
}

// An object that notes of each tick up to 8 in which it acts whether a flag is raised.
#[derive(Drop)]
struct Notes {
    flag: Arc<AtomicU64, Global>,
    noted: Arc<AtomicU64, Global>,
}

impl Saboteur for Notes {
    ghost plan = { λ _. untold };

    fn act(&mut self, tick: u32, _seen: u64) -> Deed {
        if tick < 8 && self.flag.load(Ordering::SeqCst) == 1 {
            self.noted.fetch_or(1 << tick, Ordering::SeqCst);
        }
        Deed::idle()
    }
}

// An object that raises a flag when it is dropped, and one that notes the flag.
fn noted_flag<R: Abort>(
    rt: &R,
    alloc: Global,
    flag: &Arc<AtomicU64, Global>,
    noted: &Arc<AtomicU64, Global>,
) -> Crew {
    let flagged = Flagged {
        flag: same(rt, flag),
    };
    let notes = Notes {
        flag: same(rt, flag),
        noted: same(rt, noted),
    };
    let a: Box<dyn Saboteur + Send> = Box::new(alloc, flagged).expect(rt, "memory");
    let b: Box<dyn Saboteur + Send> = Box::new(alloc, notes).expect(rt, "memory");
    crew_of(rt, alloc, a, b)
}

// Both sides fail in tick 1; A is given an object that raises a flag when it is dropped. Tick 3 has this line, and there are five ticks.
// In which of them the flag was raised, and whether it is in the end.
fn drops<R: Threads + Abort>(rt: &R, alloc: Global, line: &str) -> (u64, u64) {
    let flag = shared(rt, alloc);
    let noted = shared(rt, alloc);
    let crew = noted_flag(rt, alloc, &flag, &noted);
    let start = "x A\nx B\ng A 0\ng B 1\nt 2\n";
    let text = joined(rt, alloc, &[HEAD, start, line, "t 3\ne\n"]);
    replayed(rt, alloc, &text, crew);
    (noted.load(Ordering::SeqCst), flag.load(Ordering::SeqCst))
}

#[test]
fn objects_are_dropped_by_dismissal_exchange_and_at_the_end(rt: HostRuntime) {
    assert!(rt; drops(&rt, rt.alloc(), "d A\n") == (0b11_1000, 1));
    assert!(rt; drops(&rt, rt.alloc(), "r A\n") == (0b11_1000, 1));
    assert!(rt; drops(&rt, rt.alloc(), "") == (0, 1));
}
