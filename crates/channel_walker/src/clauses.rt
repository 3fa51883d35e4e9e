// The twelve clauses, each asked by itself: it gives the detail at which it fails, or None. Their order is own.
ghost use Rattle.std.specs.Prelude.{◌≡◌, ◌≤◌, ◌&&◌, ◌||◌, not, is_none, if◌then◌else◌, None, IfSome, Some, slice_get, ◌<◌};
ghost use Rattle.lift_model.specs.Bits.{or_else};
ghost use Rattle.lift_model.specs.Chain.{source_has, inoperative, first_open};
ghost use Rattle.lift_model.specs.Grant.{fault_if, limit_detail, clauses, first_fault};
ghost use Rattle.lift_model.specs.Stations.{button, emergency_button, mode_of, is_normal, is_inspection, is_emergency, bypasses};
ghost use Rattle.lift_model.specs.Wires.{is_made, first_discrepant};
ghost use Rattle.channel_walker.specs.Details.{detail_of, order, first_failing};

use crate::contacts::{Operation, first_open};
use chain_table::Image;
use grant_model::Facts;
use lift_base::door_bits::MONITOR;
use lift_base::panel_bits::{BYPASS_CAR, BYPASS_LANDING};
use lift_base::{CONTACT_FAULT, DOORS, DOWN_LIMIT, Kind, Mode, PANEL, REQUEST, UP_LIMIT};
use station_rules::{button, emergency_button};

/// The clauses.
#[derive(Clone, Copy, Debug)]
pub enum Clause {
    /// K1: each configured source has a value (EN 50325-5).
    Values,
    /// K2: no wire is discrepant, and no contact fault stands (own).
    Wires,
    /// K3: not both bypasses at a time (5.12.1.8).
    OneBypass,
    /// K4: no bypass in normal operation (5.12.1.8).
    NoBypass,
    /// K5: normal operation wants the pit's reset (5.12.1.5).
    PitReset,
    /// K6: normal operation wants good door contacts (5.12.1.9).
    Doors,
    /// K7: each contact that is not inoperative is made (5.11.2).
    Chain,
    /// K8: a bypassed car door is seen closed by the monitor (5.12.1.8).
    Monitor,
    /// K9: the inspecting stations show the same buttons (5.12.1.5).
    Buttons,
    /// K10: one emergency button (5.12.1.6).
    EmergencyButtons,
    /// K11: the drive requests normal motion (own).
    Request,
    /// K12: inspection stays within the limits of normal travel (5.12.1.5).
    Limits,
}

/// How many clauses there are.
const CLAUSES: usize = 12;

/// The clauses in the order in which they are asked. A `static`, since a look-up in a `const` copies the whole list.
static ORDER: [Clause; CLAUSES] = [
    Clause::Values,
    Clause::Wires,
    Clause::OneBypass,
    Clause::NoBypass,
    Clause::PitReset,
    Clause::Doors,
    Clause::Chain,
    Clause::Monitor,
    Clause::Buttons,
    Clause::EmergencyButtons,
    Clause::Request,
    Clause::Limits,
];

fn fault_if(holds: bool, detail: u8) -> Option<u8>
    ensures { result ≡ fault_if holds detail }
{
    if holds { Some(detail) } else { None }
}

/// The first discrepant wire, else the detail of a contact fault where one stands.
fn wire_fails(facts: &Facts) -> Option<u8>
    ensures { result ≡ or_else (first_discrepant facts.now.image.words) (fault_if facts.now.contact_fault CONTACT_FAULT) }
{
    match facts.image.first_discrepant() {
        Some(wire) => Some(wire),
        None => fault_if(facts.contact_fault, CONTACT_FAULT),
    }
}

fn has_car_bypass(image: &Image) -> bool
    ensures { result ≡ source_has image.now PANEL BYPASS_CAR }
{
    image.bit(PANEL, BYPASS_CAR)
}

fn has_landing_bypass(image: &Image) -> bool
    ensures { result ≡ source_has image.now PANEL BYPASS_LANDING }
{
    image.bit(PANEL, BYPASS_LANDING)
}

/// Whether a door is bypassed.
pub fn is_bypassed(image: &Image) -> bool
    ensures { result ≡ bypasses image.now }
{
    has_car_bypass(image) || has_landing_bypass(image)
}

fn both_bypassed(image: &Image) -> Option<u8>
    ensures { result ≡ fault_if (source_has image.now PANEL BYPASS_CAR && source_has image.now PANEL BYPASS_LANDING) 0 }
{
    fault_if(has_car_bypass(image) && has_landing_bypass(image), 0)
}

/// 1 for the car door, 2 for the landing doors.
fn bypassed_in(image: &Image, mode: Mode) -> Option<u8>
    ensures { result ≡ fault_if (is_normal mode && bypasses image.now) (if source_has image.now PANEL BYPASS_CAR then 1 else 2) }
{
    let detail = if has_car_bypass(image) { 1 } else { 2 };
    in_normal(mode, is_bypassed(image), detail)
}

/// What is a fault in normal operation alone.
fn in_normal(mode: Mode, holds: bool, detail: u8) -> Option<u8>
    ensures { result ≡ fault_if (is_normal mode && holds) detail }
{
    match mode {
        Mode::Normal => fault_if(holds, detail),
        _ => None,
    }
}

fn open_contact(facts: &Facts, mode: Mode) -> Option<u8>
    ensures { result ≡ first_open facts.now.image facts.now.there
        (inoperative mode (source_has facts.now.image PANEL BYPASS_CAR) (source_has facts.now.image PANEL BYPASS_LANDING)) }
{
    let operation = Operation {
        mode,
        bypass_car: has_car_bypass(&facts.image),
        bypass_landing: has_landing_bypass(&facts.image),
    };
    first_open(&facts.image, &facts.there, operation)
}

fn monitor_is_open(image: &Image) -> Option<u8>
    ensures { result ≡ fault_if (source_has image.now PANEL BYPASS_CAR && not (source_has image.now DOORS MONITOR)) 0 }
{
    fault_if(has_car_bypass(image) && !image.bit(DOORS, MONITOR), 0)
}

fn no_button(image: &Image, mode: Mode) -> Option<u8>
    ensures { result ≡ fault_if (is_inspection mode && is_none (button image.now)) 0 }
{
    match mode {
        Mode::Inspection => fault_if(button(image).is_none(), 0),
        _ => None,
    }
}

fn no_emergency_button(image: &Image, mode: Mode) -> Option<u8>
    ensures { result ≡ fault_if (is_emergency mode && is_none (emergency_button image.now)) 0 }
{
    match mode {
        Mode::Emergency => fault_if(emergency_button(image).is_none(), 0),
        _ => None,
    }
}

/// 1 for the upper limit, 2 for the lower one, where the car is asked to run towards it.
fn limit_towards(image: &Image, direction: Option<Kind>) -> Option<u8>
    ensures { result ≡ limit_detail image.now direction }
{
    match direction {
        Some(Kind::Up) => fault_if(!image.made(UP_LIMIT), 1),
        Some(Kind::Down) => fault_if(!image.made(DOWN_LIMIT), 2),
        _ => None,
    }
}

fn limit_is_reached(image: &Image, mode: Mode) -> Option<u8>
    ensures { result ≡ (if is_inspection mode then limit_detail image.now (button image.now) else None) }
{
    match mode {
        Mode::Inspection => limit_towards(image, button(image)),
        _ => None,
    }
}

/// The detail at which the clause fails. None where it holds.
#[tactic(auto, unfolding(crate::specs::Details::detail_of))]
fn detail_of(clause: Clause, facts: &Facts, mode: Mode) -> Option<u8>
    ensures { result ≡ detail_of facts.now mode clause }
{
    let image = &facts.image;
    match clause {
        Clause::Values => facts.missing,
        Clause::Wires => wire_fails(facts),
        Clause::OneBypass => both_bypassed(image),
        Clause::NoBypass => bypassed_in(image, mode),
        Clause::PitReset => in_normal(mode, facts.pit_latched, 0),
        Clause::Doors => in_normal(mode, facts.doors_faulty, 0),
        Clause::Chain => open_contact(facts, mode),
        Clause::Monitor => monitor_is_open(image),
        Clause::Buttons => no_button(image, mode),
        Clause::EmergencyButtons => no_emergency_button(image, mode),
        Clause::Request => in_normal(mode, !image.made(REQUEST), 0),
        Clause::Limits => limit_is_reached(image, mode),
    }
}

#[tactic(auto, unfolding(crate::specs::Details::order))]
fn clause_at(i: usize) -> Clause
    requires { i < 12 }
    ensures { Some result ≡ slice_get order i }
{
    ORDER[i]
}

/// Asks the clauses in turn, up to the first that fails: its number and its detail.
fn first_failing(facts: &Facts, mode: Mode) -> Option<(u8, u8)>
    ensures first { result ≡ first_failing facts.now mode 1 order }
    ensures numbered { IfSome result (λ fault. fault.0 ≤ 12) }
{
    for i in 0..CLAUSES {
        if let Some(detail) = detail_of(clause_at(i), facts, mode) {
            return Some((i as u8 + 1, detail));
        }
    }
    None
}

/// The number and the detail of the first clause that fails in the mode that is asked for.
pub fn first_fault(facts: &Facts, mode: Mode) -> Option<(u8, u8)>
    requires { mode ≡ mode_of facts.now.image }
    ensures first { result ≡ first_fault 1 (clauses facts.now) }
    ensures numbered { IfSome result (λ fault. fault.0 ≤ 12) }
{
    first_failing(facts, mode)
}
