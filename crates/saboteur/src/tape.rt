// An object that tells a list of deeds (own).
ghost use Rattle.std.specs.Prelude.{◌≡◌, drop};
ghost use Rattle.lift_model.specs.Plans.{Plan, deeds};

use crate::deed::Deed;
use crate::traits::Saboteur;
use std::marker::Model;

/// Answers its deeds in order, and after them none. A contract sees the deeds that it has not answered yet.
#[derive(Drop)]
pub struct Tape {
    script: Vec<Deed>,
    next: usize,
}

impl Model for Tape {
    ghost use Rattle.std.specs.Prelude.{List, drop};
    ghost use Rattle.lift_model.specs.Records.{DeedData};

    ghost Value = { List DeedData };

    ghost view = { λ t. drop t.next t.script.items };
}

impl Tape {
    /// Answers these deeds.
    pub fn of(deeds: Vec<Deed>) -> Tape
        ensures { result ≡ deeds.items }
    {
        Tape {
            script: deeds,
            next: 0,
        }
    }
}

impl Saboteur for Tape {
    ghost plan = { λ t. deeds t };

    fn act(&mut self, _tick: u32, _seen: u64) -> Deed {
        if self.next < self.script.len() {
            let deed = self.script[self.next];
            self.next += 1;
            deed
        } else {
            Deed::idle()
        }
    }
}
