// What a cell says: the word of its state, and its text where that says more (own).
ghost use Rattle.std.specs.Prelude.{◌≡◌};
ghost use Rattle.rideview.specs.Form.{is_asked, is_clause};

use lift_base::{DOWN_LIMIT, Kind, Mode, Override, PIT_RESET, REQUEST, RESET, UP_LIMIT};
use report::{kind_name, reason_text};
use ride_lanes::{Cell, Contact, Deeds, Given, Ruled, Sees, Standing, Wire};
use std::alloc::{AllocError, Global};
use std::fmt::Write;

fn power_state(kind: Kind, alarm: bool) -> &'static str {
    match (kind, alarm) {
        (_, false) => kind_name(kind),
        (Kind::Off, true) => "off alarm",
        (Kind::Full, true) => "full alarm",
        (Kind::Up, true) => "up alarm",
        (Kind::Down, true) => "down alarm",
    }
}

fn forced_state(kind: Kind) -> &'static str {
    match kind {
        Kind::Off => "forced off",
        Kind::Full => "forced full",
        Kind::Up => "forced up",
        Kind::Down => "forced down",
    }
}

/// A side is off for a reason of its own, and by no clause.
fn is_own(code: u8) -> bool {
    13 <= code && code <= 17
}

/// A clause fails: the code is its number.
pub fn is_clause(code: u8) -> bool
    ensures { result ≡ is_clause code }
{
    1 <= code && code <= 12
}

/// Somebody asks to run: the loss has another reason than that the buttons are released, or that the request is off.
pub fn is_asked(code: u8) -> bool
    ensures { result ≡ is_asked code }
{
    code < 9 || 11 < code
}

fn given_state(given: Given) -> &'static str {
    match given {
        Given::Kind(kind) => kind_name(kind),
        Given::Forced(kind) => forced_state(kind),
        Given::Stale(_) => "stale",
        Given::Off(code, _) if is_own(code) => "own",
        Given::Off(_, _) => "off",
    }
}

fn ruled_state(ruled: Ruled) -> &'static str {
    match ruled {
        Ruled::Granted(_) => "granted",
        Ruled::Fails(clause, _) if is_asked(clause) => "fails",
        Ruled::Fails(_, _) => "not asked",
    }
}

fn contact_state(contact: Contact) -> &'static str {
    match contact {
        Contact::Made => "made",
        Contact::Open => "open",
        Contact::PastMade => "made, looked past",
        Contact::PastOpen | Contact::NotLookedAt => "open, looked past",
        Contact::Discrepant => "discrepant",
        Contact::NoSource => "gap",
    }
}

fn wire_state(i: u8, wire: Wire) -> &'static str {
    match (i, wire) {
        (_, Wire::Discrepant) => "discrepant",
        (RESET | PIT_RESET, Wire::Made) => "pressed",
        (RESET | PIT_RESET, Wire::Off) => "off",
        (_, Wire::Made) => "made",
        (REQUEST, Wire::Off) => "not asked",
        (_, Wire::Off) => "open",
    }
}

fn side_state(cell: Cell) -> &'static str {
    match cell {
        Cell::Given(given) => given_state(given),
        Cell::Sees(Sees::Agree) => "agree",
        Cell::Sees(Sees::Differ(_, _)) => "differ",
        Cell::Standing(Standing::Healthy) => "healthy",
        Cell::Standing(Standing::Held) => "held",
        Cell::Standing(Standing::Failed) => "failed",
        Cell::Standing(Standing::Acts(_)) => "acts",
        _ => "gap",
    }
}

/// The word of its state.
pub fn state_of(cell: Cell) -> &'static str {
    match cell {
        Cell::Power(kind, alarm) => power_state(kind, alarm),
        Cell::Mode(Mode::Normal) => "normal",
        Cell::Mode(Mode::Inspection) => "inspection",
        Cell::Mode(Mode::Emergency) => "emergency",
        Cell::Ruled(ruled) => ruled_state(ruled),
        Cell::Value(Some(_)) => "value",
        Cell::Value(None) => "no value",
        Cell::Contact(contact) => contact_state(contact),
        Cell::Wire(i, wire) => wire_state(i, wire),
        Cell::Latch(true) => "stands",
        Cell::Latch(false) => "free",
        _ => side_state(cell),
    }
}

/// Adds the text of a reason, as the report has it.
pub fn add_reason(text: &mut String, code: u8, detail: u8) -> Result<(), AllocError> {
    let reason = reason_text(code, detail);
    text.push_str(reason.before)?;
    text.push_str(reason.name)?;
    text.push_str(reason.behind)
}

fn order_name(order: Override) -> &'static str {
    match order {
        Override::Keep => "keep",
        Override::Follow => "follow",
        Override::Force(kind) => kind_name(kind),
    }
}

// Adds what a line does, after what parts it from the one before.
fn add_deed(text: &mut String, there: bool, words: &str) -> Result<(), AllocError> {
    if !there {
        return Ok(());
    }
    if !text.is_empty() {
        text.push_str(", ")?;
    }
    text.push_str(words)
}

fn add_word(text: &mut String, verb: &str, word: Option<u64>) -> Result<(), AllocError> {
    match word {
        Some(word) => {
            add_deed(text, true, verb)?;
            write!(text, " {word:016X}")
        }
        None => Ok(()),
    }
}

fn add_deeds(text: &mut String, deeds: &Deeds) -> Result<(), AllocError> {
    add_deed(text, deeds.exchange, "is exchanged")?;
    add_deed(text, deeds.fail, "fails")?;
    add_word(text, "publishes", deeds.publish)?;
    add_word(text, "commands", deeds.command)?;
    if deeds.contactor != Override::Keep {
        add_deed(text, true, "contactor ")?;
        text.push_str(order_name(deeds.contactor))?;
    }
    add_deed(text, deeds.dismiss, "its object is dismissed")?;
    if let Some(place) = deeds.give {
        add_deed(text, true, "is given object ")?;
        write!(text, "{place}")?;
    }
    Ok(())
}

fn add_side(text: &mut String, cell: Cell) -> Result<(), AllocError> {
    match cell {
        Cell::Given(Given::Stale(stamp)) => write!(text, "stale command of tick {stamp}"),
        Cell::Given(Given::Off(code, detail)) => {
            text.push_str("off ")?;
            add_reason(text, code, detail)
        }
        Cell::Sees(Sees::Nothing) => text.push_str("compares nothing"),
        Cell::Sees(Sees::Differ(seen, own)) => {
            write!(text, "differ {seen:016X} from {own:016X}")
        }
        Cell::Standing(Standing::Failed) => text.push_str("has failed, says nothing new"),
        Cell::Standing(Standing::Acts(deeds)) => add_deeds(text, &deeds),
        _ => Ok(()),
    }
}

fn add_text(text: &mut String, cell: Cell) -> Result<(), AllocError> {
    match cell {
        Cell::Ruled(Ruled::Granted(kind)) => {
            text.push_str("granted ")?;
            text.push_str(kind_name(kind))
        }
        Cell::Ruled(Ruled::Fails(clause, detail)) => add_reason(text, clause, detail),
        Cell::Contact(Contact::NotLookedAt) => text.push_str("open, not looked at"),
        Cell::Contact(Contact::NoSource) => text.push_str("its source has no value"),
        Cell::Wire(UP_LIMIT | DOWN_LIMIT, Wire::Off) => text.push_str("reached"),
        Cell::Wire(REQUEST, Wire::Off) => text.push_str("off"),
        _ => add_side(text, cell),
    }
}

/// What it says, where that is more than its state.
pub fn text_of(alloc: Global, cell: Cell) -> Result<Option<String>, AllocError> {
    let mut text = String::new(alloc);
    add_text(&mut text, cell)?;
    if text.is_empty() {
        Ok(None)
    } else {
        Ok(Some(text))
    }
}
