// Why power is off, as it is printed: a clause and what it is taken after, or a reason of the project's own.
ghost use Rattle.std.specs.Prelude.{◌≡◌, ◌++◌};
ghost use Rattle.script_model.specs.Report.{around as around_name, bare_text as text_of_code, reason_text as text_of_reason, source_named, wire_or_fault as wire_named, name_at, one_of as one_named};
ghost use Rattle.chain_table.specs.Names.{contact_names};
ghost use Rattle.report.specs.Names.{text_in};

use chain_table::{contact_name, source_name, wire_name};
use core_model::{CHANGEOVER, COMPARE, CONTACTOR_CLOSED, CONTACTOR_OPEN, LOCKED};
use lift_base::{CONTACT_FAULT, CONTACTS, WIRES};
use script_model::{FORCED, KINDS_DIFFER, STALE};

/// The text of a reason in three pieces.
#[derive(Clone, Copy, Debug)]
pub struct ReasonText {
    pub before: &'static str,
    pub name: &'static str,
    pub behind: &'static str,
}

fn around(found: Option<&'static str>, before: &'static str, behind: &'static str) -> ReasonText
    ensures { result.before.now ++ result.name.now ++ result.behind.now ≡ around_name (text_in found.entry) before.now behind.now }
{
    match found {
        Some(name) => ReasonText {
            before,
            name,
            behind,
        },
        None => ReasonText {
            before: "unknown own",
            name: "",
            behind: "",
        },
    }
}

fn source(detail: u8) -> Option<&'static str>
    ensures { text_in result ≡ source_named detail }
{
    match detail {
        1..=6 => Some(source_name(detail)),
        _ => None,
    }
}

fn wire_or_fault(detail: u8) -> Option<&'static str>
    ensures { text_in result ≡ wire_named detail }
{
    match detail {
        CONTACT_FAULT => Some("fault"),
        wire if wire < WIRES => Some(wire_name(wire)),
        _ => None,
    }
}

fn contact(detail: u8) -> Option<&'static str>
    ensures { text_in result ≡ name_at contact_names detail }
{
    if detail < CONTACTS {
        Some(contact_name(detail))
    } else {
        None
    }
}

fn one_of(first: &'static str, second: &'static str, detail: u8) -> Option<&'static str>
    ensures { text_in result ≡ one_named first.now second.now detail }
{
    match detail {
        1 => Some(first),
        2 => Some(second),
        _ => None,
    }
}

// The reasons that have no detail.
fn bare_text(code: u8) -> &'static str
    ensures { result.now ≡ text_of_code code }
{
    match code {
        0 => "none own",
        3 => "K3 both_bypasses 5.12.1.8",
        5 => "K5 pit_latch 5.12.1.5",
        6 => "K6 doors_faulty 5.12.1.9",
        8 => "K8 monitor 5.12.1.8",
        9 => "K9 buttons 5.12.1.5",
        10 => "K10 buttons 5.12.1.6",
        11 => "K11 request own",
        COMPARE => "compare own",
        LOCKED => "locked own",
        CONTACTOR_CLOSED => "contactor_closed own",
        CHANGEOVER => "changeover own",
        CONTACTOR_OPEN => "contactor_open own",
        STALE => "stale own",
        FORCED => "forced own",
        KINDS_DIFFER => "kinds_differ own",
        _ => "unknown own",
    }
}

/// The text of a reason: its code, and the detail of a clause that has one.
#[tactic(auto, unfolding(script_model::specs::Report::reason_text))]
pub fn reason_text(code: u8, detail: u8) -> ReasonText
    ensures { result.before.now ++ result.name.now ++ result.behind.now ≡ text_of_reason code detail }
{
    match code {
        1 => around(source(detail), "K1 ", " EN 50325-5"),
        2 => around(wire_or_fault(detail), "K2 ", " own"),
        4 => around(
            one_of("bypass_car", "bypass_landing", detail),
            "K4 ",
            " 5.12.1.8",
        ),
        7 => around(contact(detail), "K7 ", " 5.11.2"),
        12 => around(
            one_of("up_limit", "down_limit", detail),
            "K12 ",
            " 5.12.1.5",
        ),
        _ => ReasonText {
            before: bare_text(code),
            name: "",
            behind: "",
        },
    }
}
