// The verdict of a tick, by walking the clauses.
ghost use Rattle.std.specs.Prelude.{◌≡◌, unwrap_or};
ghost use Rattle.lift_model.specs.Grant.{wanted, verdict_of};
ghost use Rattle.lift_model.specs.Stations.{mode_of};

use crate::clauses::{first_fault, is_bypassed};
use chain_table::Image;
use grant_model::Facts;
use lift_base::{Kind, Mode, Verdict};
use station_rules::{button, emergency_button, mode};

/// The kind that the mode asks for. Off where there is none.
fn wanted(image: &Image, mode: Mode) -> Kind
    requires { mode ≡ mode_of image.now }
    ensures { result ≡ unwrap_or (wanted image.now) Kind.Off }
{
    match mode {
        Mode::Normal => Kind::Full,
        Mode::Inspection => button(image).unwrap_or(Kind::Off),
        Mode::Emergency => emergency_button(image).unwrap_or(Kind::Off),
    }
}

/// Off with the first clause that fails, else the mode's kind with clause 0.
#[tactic(auto, unfolding(lift_model::specs::Grant::verdict_of))]
pub fn verdict(facts: &Facts) -> Verdict
    ensures { result ≡ verdict_of facts.now }
{
    let image = &facts.image;
    let mode = mode(image);
    let (kind, clause, detail) = match first_fault(facts, mode) {
        Some((clause, detail)) => (Kind::Off, clause, detail),
        None => (wanted(image, mode), 0, 0),
    };
    Verdict {
        kind,
        clause,
        detail,
        mode,
        bypass: is_bypassed(image),
    }
}
