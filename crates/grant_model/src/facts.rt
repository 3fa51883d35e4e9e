// What the clauses look at, at one tick.
ghost use Rattle.std.specs.Prelude.{◌≡◌, ◌<◌, suc, option_map, Decides};
ghost use Rattle.lift_model.specs.Bits.{first_below};
ghost use Rattle.lift_model.specs.Grant.{is_missing};

use crate::same_image::is_same_image;
use chain_table::Image;
use lift_base::SOURCES;
use std::marker::Model;

/// What the clauses look at, at one tick. Contracts see it as `Facts` of the definitions.
#[derive(Clone, Copy, Debug)]
pub struct Facts {
    /// Of each source, by index, whether it is configured.
    pub there: [bool; SOURCES],
    /// The number of the first of them that has no value.
    pub missing: Option<u8>,
    pub image: Image,
    pub contact_fault: bool,
    pub pit_latched: bool,
    pub doors_faulty: bool,
}

impl Model for Facts {
    ghost use Rattle.lift_model.specs.Grant.{Facts as FactsData};

    ghost Value = { FactsData };

    ghost view = { λ s. record {
      there = s.there;
      missing = s.missing;
      image = s.image;
      contact_fault = s.contact_fault;
      pit_latched = s.pit_latched;
      doors_faulty = s.doors_faulty;
    } };

    ghost inverse = { λ f. record {
      there = f.there;
      missing = f.missing;
      image = f.image;
      contact_fault = f.contact_fault;
      pit_latched = f.pit_latched;
      doors_faulty = f.doors_faulty;
    } };
}

/// The source is configured and has no value.
fn is_missing(there: &[bool; SOURCES], image: &Image, source: usize) -> bool
    requires { source < SOURCES }
    ensures { result ≡ is_missing there.now image.now source }
{
    there[source] && image.values[source].is_none()
}

/// The number of the first source that is configured and has no value. `None` exactly where each has one.
pub fn first_missing(there: &[bool; SOURCES], image: &Image) -> Option<u8>
    ensures { result ≡ option_map suc (first_below SOURCES (is_missing there.now image.now)) }
{
    for source in 0..SOURCES {
        if is_missing(there, image, source) {
            return Some(source as u8 + 1);
        }
    }
    None
}

fn is_same_there(x: &[bool; SOURCES], y: &[bool; SOURCES]) -> bool
    ensures { Decides result (x.now ≡ y.now) }
{
    *x == *y
}

/// Whether the facts are equal.
pub fn is_same_facts(x: &Facts, y: &Facts) -> bool
    ensures { Decides result (x.now ≡ y.now) }
{
    x.missing == y.missing
        && x.contact_fault == y.contact_fault
        && x.pit_latched == y.pit_latched
        && x.doors_faulty == y.doors_faulty
        && is_same_there(&x.there, &y.there)
        && is_same_image(&x.image, &y.image)
}
