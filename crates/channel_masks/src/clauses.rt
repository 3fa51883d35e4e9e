// The twelve clauses over one image as one set: those that fail, cut to those that the mode asks, and the first is the
// lowest bit. The order of the clauses is own.
ghost use Rattle.std.specs.Prelude.{◌≡◌, ℕ, ◌<◌, ◌≤◌, ◌^◌, ◌&&◌, ◌||◌, not, true, None, Some, IfSome, is_some, is_none, unwrap_or, get_or, if◌then◌else◌};
ghost use Rattle.lift_model.specs.Bits.{has, first_below};
ghost use Rattle.lift_model.specs.Wires.{is_made, first_discrepant};
ghost use Rattle.lift_model.specs.Chain.{source_has};
ghost use Rattle.lift_model.specs.Stations.{button, emergency_button, mode_of, bypasses};
ghost use Rattle.channel_masks.specs.Gap.{gap_of};
ghost use Rattle.lift_model.specs.Grant.{limit_detail, wanted, clauses, first_fault, verdict_from, verdict_of};

use crate::contacts::first_open;
use crate::masks::{asked, inoperative};
use crate::sets::{lowest, set_of};
use chain_table::Image;
use grant_model::Facts;
use lift_base::door_bits::MONITOR;
use lift_base::panel_bits::{BYPASS_CAR, BYPASS_LANDING};
use lift_base::{CONTACT_FAULT, DOORS, DOWN_LIMIT, Kind, Mode, PANEL, REQUEST, UP_LIMIT, Verdict};
use station_rules::{button, emergency_button, mode};

fn bypass_car(image: &Image) -> bool
    ensures { result ≡ source_has image.now PANEL BYPASS_CAR }
{
    image.bit(PANEL, BYPASS_CAR)
}

fn bypass_landing(image: &Image) -> bool
    ensures { result ≡ source_has image.now PANEL BYPASS_LANDING }
{
    image.bit(PANEL, BYPASS_LANDING)
}

fn both_bypassed(image: &Image) -> bool
    ensures { result ≡ (source_has image.now PANEL BYPASS_CAR && source_has image.now PANEL BYPASS_LANDING) }
{
    bypass_car(image) && bypass_landing(image)
}

fn is_bypassed(image: &Image) -> bool
    ensures { result ≡ bypasses image.now }
{
    bypass_car(image) || bypass_landing(image)
}

/// The car door is bypassed, and the monitor doesn't show it closed.
fn is_monitor_open(image: &Image) -> bool
    ensures { result ≡ (source_has image.now PANEL BYPASS_CAR && not (source_has image.now DOORS MONITOR)) }
{
    bypass_car(image) && !image.bit(DOORS, MONITOR)
}

fn is_not_requested(image: &Image) -> bool
    ensures { result ≡ not (is_made image.now.words REQUEST) }
{
    !image.made(REQUEST)
}

/// The inspecting stations do not show the same single direction.
fn has_no_button(image: &Image) -> bool
    ensures { result ≡ is_none (button image.now) }
{
    button(image).is_none()
}

/// The panel shows no single direction.
fn has_no_emergency_button(image: &Image) -> bool
    ensures { result ≡ is_none (emergency_button image.now) }
{
    emergency_button(image).is_none()
}

/// 1 for the car door, 2 for the landing doors.
fn bypassed_door(image: &Image) -> u8
    ensures { result ≡ (if source_has image.now PANEL BYPASS_CAR then 1 else 2) }
{
    if bypass_car(image) { 1 } else { 2 }
}

/// A wire is discrepant, or a contact fault stands.
fn wire_fails(image: &Image, contact_fault: bool) -> bool
    ensures { result ≡ (is_some (first_discrepant image.now.words) || contact_fault) }
{
    image.first_discrepant().is_some() || contact_fault
}

/// The first contact that the mode looks at and that is not made.
fn first_open_in(facts: &Facts, mode: Mode) -> Option<u8>
    ensures { result ≡ gap_of facts.now mode }
{
    let image = &facts.image;
    first_open(
        image,
        &facts.there,
        inoperative(mode, bypass_car(image), bypass_landing(image)),
    )
}

/// The limit of the direction that the stations show is reached: 1 up, 2 down.
fn limit_reached(image: &Image) -> Option<u8>
    ensures { result ≡ limit_detail image.now (button image.now) }
{
    match button(image) {
        Some(Kind::Up) if !image.made(UP_LIMIT) => Some(1),
        Some(Kind::Down) if !image.made(DOWN_LIMIT) => Some(2),
        _ => None,
    }
}

/// The clauses that the mode asks and that fail, bit i for clause i + 1.
fn failing(facts: &Facts, mode: Mode, gap: Option<u8>) -> u16
    requires mode { mode ≡ mode_of facts.now.image }
    requires gap { gap ≡ gap_of facts.now mode }
    ensures fails { (i : ℕ) → i < 12 → has result i ≡ is_some (get_or (clauses facts.now) i None) }
    ensures small { result < 2 ^ 12 }
{
    let image = &facts.image;
    let fails = [
        facts.missing.is_some(),
        wire_fails(image, facts.contact_fault),
        both_bypassed(image),
        is_bypassed(image),
        facts.pit_latched,
        facts.doors_faulty,
        gap.is_some(),
        is_monitor_open(image),
        has_no_button(image),
        has_no_emergency_button(image),
        is_not_requested(image),
        limit_reached(image).is_some(),
    ];
    set_of(&fails) & asked(mode)
}

/// What the clause with index `i` fails at.
fn detail(facts: &Facts, gap: Option<u8>, i: u8) -> u8
    requires clause { i < 12 }
    requires gap { gap ≡ gap_of facts.now (mode_of facts.now.image) }
    requires fails { is_some (get_or (clauses facts.now) i None) ≡ true }
    ensures { get_or (clauses facts.now) i None ≡ Some result }
{
    let image = &facts.image;
    let details = [
        facts.missing.unwrap_or(0),
        image.first_discrepant().unwrap_or(CONTACT_FAULT),
        0,
        bypassed_door(image),
        0,
        0,
        gap.unwrap_or(0),
        0,
        0,
        0,
        0,
        limit_reached(image).unwrap_or(0),
    ];
    details[i as usize]
}

/// The index of the first clause that the mode asks and that fails.
fn first_failing(facts: &Facts, mode: Mode, gap: Option<u8>) -> Option<u8>
    requires mode { mode ≡ mode_of facts.now.image }
    requires gap { gap ≡ gap_of facts.now mode }
    ensures first { result ≡ first_below 12 (λ i. is_some (get_or (clauses facts.now) i None)) }
    ensures clause { IfSome result (λ i. i < 12) }
    ensures fails { IfSome result (λ i. is_some (get_or (clauses facts.now) i None) ≡ true) }
{
    lowest(failing(facts, mode, gap))
}

/// The first clause that fails, with its number and its detail.
fn first_fault(facts: &Facts, mode: Mode) -> Option<(u8, u8)>
    requires mode { mode ≡ mode_of facts.now.image }
    ensures value { result ≡ first_fault 1 (clauses facts.now) }
    ensures numbered { IfSome result (λ fault. fault.0 ≤ 12) }
{
    let gap = first_open_in(facts, mode);
    match first_failing(facts, mode, gap) {
        Some(i) => Some((i + 1, detail(facts, gap, i))),
        None => None,
    }
}

/// The kind that the mode asks for. Off where there is none.
fn wanted(image: &Image, mode: Mode) -> Kind
    requires { mode ≡ mode_of image.now }
    ensures { result ≡ unwrap_or (wanted image.now) Kind.Off }
{
    match mode {
        Mode::Normal => Kind::Full,
        Mode::Inspection => button(image).unwrap_or(Kind::Off),
        Mode::Emergency => emergency_button(image).unwrap_or(Kind::Off),
    }
}

/// Off with the clause that fails, else the mode's kind with clause 0.
fn verdict_from(image: &Image, mode: Mode, fault: Option<(u8, u8)>) -> Verdict
    requires mode { mode ≡ mode_of image.now }
    requires numbered { IfSome fault (λ f. f.0 ≤ 12) }
    ensures { result ≡ verdict_from image.now fault }
{
    let bypass = is_bypassed(image);
    match fault {
        Some((clause, detail)) => Verdict {
            kind: Kind::Off,
            clause,
            detail,
            mode,
            bypass,
        },
        None => Verdict {
            kind: wanted(image, mode),
            clause: 0,
            detail: 0,
            mode,
            bypass,
        },
    }
}

/// The verdict over these facts.
pub fn verdict(facts: &Facts) -> Verdict
    ensures { result ≡ verdict_of facts.now }
{
    let mode = mode(&facts.image);
    verdict_from(&facts.image, mode, first_fault(facts, mode))
}
