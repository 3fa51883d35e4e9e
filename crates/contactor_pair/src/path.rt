// What each tick settled, from the first on.
ghost use Rattle.std.specs.Prelude.{◌≡◌, ◌<◌, ◌≤◌, ◌-◌, ◌^◌, [], ◌∷◌, ◌++◌, length, get_or, IfOk};
ghost use Rattle.core_model.specs.Settling.{no_settled};

use crate::settling::Settled;
use lift_io::NoMemory;
use std::alloc::Global;
use std::marker::Model;

/// What each tick settled, the first of them tick 1. A contract sees the list, and the room.
#[derive(Drop)]
pub struct Path {
    settled: Vec<Settled>,
    room: u32,
}

impl Model for Path {
    ghost use Rattle.std.specs.Prelude.{length, ◌≤◌, ◌<◌, ◌^◌, vec_capacity};
    ghost use Rattle.contactor_pair.specs.Settles.{PathData};

    ghost Value = { PathData };

    ghost view = { λ p. record { settled = p.settled.items; room = p.room } };

    ghost invariant = { λ p. (length p.settled.items ≤ p.room) × (p.room ≤ vec_capacity p.settled) × (p.room < 2 ^ 24) };
}

impl Path {
    /// An empty path with room for that many ticks, all of it taken now.
    pub fn open(alloc: Global, ticks: u32) -> Result<Path, NoMemory>
        requires { ticks < 2 ^ 24 }
        ensures { IfOk result (λ path. path ≡ record { settled = []; room = ticks }) }
    {
        match Vec::with_capacity(alloc, ticks as usize) {
            Ok(settled) => Ok(Path {
                settled,
                room: ticks,
            }),
            Err(_) => Err(NoMemory),
        }
    }

    /// A path of no ticks and no room. Takes no memory.
    pub fn empty(alloc: Global) -> Path
        ensures { result ≡ record { settled = []; room = 0 } }
    {
        Path {
            settled: Vec::new(alloc),
            room: 0,
        }
    }

    /// What the next tick settled. Takes no memory.
    pub fn push(&mut self, settled: Settled)
        requires { length self.old.settled < self.old.room }
        ensures { self.new ≡ record { settled = self.old.settled ++ settled ∷ []; room = self.old.room } }
    {
        match self.settled.push(settled) {
            Ok(()) => {}
            Err(_) => unreachable!(),
        }
    }

    /// How many ticks are settled.
    pub fn len(&self) -> u32
        ensures value { result ≡ length self.now.settled }
        ensures fits { result ≤ self.now.room }
        ensures small { self.now.room < 2 ^ 24 }
    {
        self.settled.len() as u32
    }

    /// What tick `n` settled, from 1.
    pub fn get(&self, n: u32) -> Settled
        requires first { 1 ≤ n }
        requires last { n ≤ length self.now.settled }
        ensures { result ≡ get_or self.now.settled (n - 1) no_settled }
    {
        self.settled[n as usize - 1]
    }
}
