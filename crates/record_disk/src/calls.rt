// The calls of one kind, and which of them fail.
ghost use Rattle.std.specs.Prelude.{◌≡◌, ◌↔◌, [], IsTrue};
ghost use Rattle.record_disk.specs.Memory.{IsListed, none_made, one_made};

use std::marker::Model;

/// How many calls of a kind were made, and the numbers of those that fail, the first being 1. Contracts see it as `CallsData`.
#[derive(Drop)]
pub(crate) struct Calls {
    failing: Vec<u32>,
    made: u64,
}

impl Model for Calls {
    ghost use Rattle.std.specs.Prelude.{◌≤◌, ◌-◌, ◌^◌};
    ghost use Rattle.record_disk.specs.Memory.{CallsData};

    ghost Value = { CallsData };

    ghost view = { λ c. record { failing = c.failing.items; made = c.made } };

    ghost invariant = { λ c. c.made ≤ 2 ^ 64 - 1 };
}

impl Calls {
    /// None was made yet.
    pub(crate) fn failing_at(failing: Vec<u32>) -> Calls
        ensures { result ≡ none_made failing.items }
    {
        Calls { failing, made: 0 }
    }

    /// Counts a call, and tells whether it fails. At its last value the count stays.
    pub(crate) fn next_fails(&mut self) -> bool
        ensures fails { IsTrue result ↔ IsListed self.old }
        ensures made { self.new ≡ one_made self.old }
    {
        self.made = self.made.saturating_add(1);
        self.failing.iter().any(|n| u64::from(*n) == self.made)
    }

    /// Forgets the calls that were made, and those that were to fail.
    pub(crate) fn clear(&mut self)
        ensures { self.new ≡ none_made [] }
    {
        self.failing.clear();
        self.made = 0;
    }
}
