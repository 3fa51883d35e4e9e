// How the two sides stand as a tick begins, and which places of the crew are left (own).
ghost use Rattle.std.specs.Prelude.{◌≡◌};
ghost use Rattle.saboteur.specs.Held.{places_of};
ghost use Rattle.script_model.specs.Faults.{all_stand, may_come, left_by, standings_after};

use crate::faults::{Places, may_stand, stands_after};
use lift_base::Side;
use lift_trace::Faults;
use saboteur::{Crew, MOST_PLACES};
use script_model::{SideLine, Standing};
use std::marker::Model;

/// Which places of the crew hold an object.
pub fn places(crew: &Crew) -> Places
    ensures { result ≡ places_of crew.now }
{
    let mut places = [false; MOST_PLACES];
    for i in 0..MOST_PLACES {
        places[i] = crew.holds(i);
    }
    places
}

/// The places that are left, and how the sides stand.
#[derive(Drop)]
pub struct Standings {
    left: Places,
    a: Standing,
    b: Standing,
}

impl Model for Standings {
    ghost use Rattle.script_model.specs.Faults.{Standings};

    ghost Value = { Rattle.script_model.specs.Faults.Standings };

    ghost view = { λ s. record { left = s.left; a = s.a; b = s.b } };
}

impl Standings {
    /// Before the first tick: both sides are healthy.
    pub fn start(places: Places) -> Standings
        ensures { result ≡ all_stand places }
    {
        let healthy = Standing {
            failed: false,
            holds: false,
        };
        Standings {
            left: places,
            a: healthy,
            b: healthy,
        }
    }

    /// Whether a line of this side may come after those of the tick that gave these faults.
    pub fn may_come(&self, faults: &Faults, side: Side, line: SideLine) -> bool
        ensures { result ≡ may_come self.now faults.now side line }
    {
        let Faults { a, b } = *faults;
        match side {
            Side::A => may_stand(&self.left, b.give, self.a, a, line),
            Side::B => may_stand(&self.left, a.give, self.b, b, line),
        }
    }

    /// The place of a gift is empty from now on.
    fn give(&mut self, place: Option<u8>)
        ensures { self.new ≡ record self.old { left = left_by self.old.left place } }
    {
        if let Some(place) = place {
            let place = place as usize;
            if place < self.left.len() {
                self.left[place] = false;
            }
        }
    }

    /// After a tick with these faults.
    pub fn follow(&mut self, faults: &Faults)
        ensures { self.new ≡ standings_after self.old faults.now }
    {
        self.give(faults.a.give);
        self.give(faults.b.give);
        self.a = stands_after(self.a, faults.a);
        self.b = stands_after(self.b, faults.b);
    }
}
