// What was given at each tick, from the first on.
ghost use Rattle.std.specs.Prelude.{◌≡◌, ◌<◌, ◌≤◌, ◌-◌, ◌^◌, [], ◌∷◌, ◌++◌, length, get_or, IfOk};
ghost use Rattle.core_model.specs.Supplies.{nothing_given};

use crate::gating::Given;
use lift_io::NoMemory;
use std::alloc::Global;
use std::marker::Model;

/// What was given at each tick, the first of them tick 1. A contract sees the list, and the room.
#[derive(Drop)]
pub struct Supplies {
    given: Vec<Given>,
    room: u32,
}

impl Model for Supplies {
    ghost use Rattle.std.specs.Prelude.{length, ◌≤◌, ◌<◌, ◌^◌, vec_capacity};
    ghost use Rattle.level_guard.specs.Supplies.{SuppliesData};

    ghost Value = { SuppliesData };

    ghost view = { λ s. record { given = s.given.items; room = s.room } };

    ghost invariant = { λ s. (length s.given.items ≤ s.room) × (s.room ≤ vec_capacity s.given) × (s.room < 2 ^ 24) };
}

impl Supplies {
    /// An empty list with room for that many ticks, all of it taken now.
    pub fn open(alloc: Global, ticks: u32) -> Result<Supplies, NoMemory>
        requires { ticks < 2 ^ 24 }
        ensures { IfOk result (λ supplies. supplies ≡ record { given = []; room = ticks }) }
    {
        match Vec::with_capacity(alloc, ticks as usize) {
            Ok(given) => Ok(Supplies { given, room: ticks }),
            Err(_) => Err(NoMemory),
        }
    }

    /// What is given at the next tick. Takes no memory.
    pub fn push(&mut self, given: Given)
        requires { length self.old.given < self.old.room }
        ensures { self.new ≡ record { given = self.old.given ++ given ∷ []; room = self.old.room } }
    {
        self.given.push_reserved(given);
    }

    /// How many ticks there are.
    pub fn len(&self) -> u32
        ensures value { result ≡ length self.now.given }
        ensures fits { result ≤ self.now.room }
        ensures small { self.now.room < 2 ^ 24 }
    {
        self.given.len() as u32
    }

    /// What was given at tick `n`, from 1.
    pub fn get(&self, n: u32) -> Given
        requires first { 1 ≤ n }
        requires last { n ≤ length self.now.given }
        ensures { result ≡ get_or self.now.given (n - 1) nothing_given }
    {
        self.given[n as usize - 1]
    }
}
