// Objects that tell a mask: they answer the word that their side saw, with the mask's bits inverted (own).
ghost use Rattle.std.specs.Prelude.{◌≡◌};
ghost use Rattle.lift_model.specs.Plans.{Plan, mask, masked};

use crate::deed::Deed;
use crate::traits::Saboteur;
use lift_base::Override;

/// Answers the seen word as both words.
#[derive(Drop)]
pub struct Echo;

impl Saboteur for Echo {
    ghost plan = { λ _. mask 0 };

    fn act(&mut self, _tick: u32, seen: u64) -> Deed {
        masked(seen, 0)
    }
}

/// Answers the seen word with all bits inverted as both words.
#[derive(Drop)]
pub struct Invert;

impl Saboteur for Invert {
    ghost plan = { λ _. mask 18446744073709551615 };

    fn act(&mut self, _tick: u32, seen: u64) -> Deed {
        masked(seen, u64::MAX)
    }
}

fn masked(seen: u64, mask: u64) -> Deed
    ensures { result ≡ masked mask seen }
{
    Deed {
        publish: Some(seen ^ mask),
        command: Some(seen ^ mask),
        contactor: Override::Keep,
    }
}
