// What each lane shows of a tick (own). A bar is a run of it.
ghost use Rattle.std.specs.Prelude.{◌≡◌, ◌<◌, Decides};
ghost use Rattle.lift_model.specs.Grant.{is_missing};
ghost use Rattle.ride_lanes.specs.Cells.{cell_at, contact_at, deeds_of, does_something, given_at, is_past, lacks_value, made_or_open, monitor_at, ruled_at, seen_at, standing_at, value_of, wire_at};

use crate::lanes::Lane;
use crate::moments::Moment;
use chain_table::{Image, inoperative, is_contact_made};
use channel_words::{detail_of, publish_word, reason_of, stamp_of};
use contactor_pair::Out;
use lift_base::door_bits::MONITOR;
use lift_base::panel_bits::{BYPASS_CAR, BYPASS_LANDING};
use lift_base::{
    CAR, CAR_DOOR_CONTACT, CONTACTS, DOORS, Kind, Mode, Override, PANEL, PIT, PLATFORM, ROOF,
    SOURCES, UP_LIMIT, Verdict, WIRES,
};
use lift_run::Turn;
use lift_trace::SideFaults;
use report::is_stale;

/// What a side's contactor gives.
#[derive(Clone, Copy, Debug, PartialEq, Eq)]
pub enum Given {
    /// What its command asks for.
    Kind(Kind),
    /// What is forced on it.
    Forced(Kind),
    /// Off, since its command is of this tick: too old, or ahead.
    Stale(u32),
    /// Off by its command, for this reason with this detail.
    Off(u8, u8),
}

/// How the word that a side saw compares with its own.
#[derive(Clone, Copy, Debug, PartialEq, Eq)]
pub enum Sees {
    /// It compared nothing.
    Nothing,
    Agree,
    /// The word that it saw, and its own.
    Differ(u64, u64),
}

/// The verdict of the clauses.
#[derive(Clone, Copy, Debug, PartialEq, Eq)]
pub enum Ruled {
    Granted(Kind),
    /// The first clause that fails, and at what.
    Fails(u8, u8),
}

/// A contact of the chain, or the monitoring signal.
#[derive(Clone, Copy, Debug, PartialEq, Eq)]
pub enum Contact {
    Made,
    Open,
    /// Made, and not looked at.
    PastMade,
    /// Open, and not looked at.
    PastOpen,
    /// The monitoring signal is off while the car door's contact is looked at.
    NotLookedAt,
    /// Its wire is discrepant.
    Discrepant,
    /// Its source has no value.
    NoSource,
}

/// A wire.
#[derive(Clone, Copy, Debug, PartialEq, Eq)]
pub enum Wire {
    Made,
    Off,
    Discrepant,
}

/// What lines of the script do to a side.
#[derive(Clone, Copy, Debug, PartialEq, Eq)]
pub struct Deeds {
    pub fail: bool,
    pub exchange: bool,
    pub dismiss: bool,
    pub publish: Option<u64>,
    pub command: Option<u64>,
    pub contactor: Override,
    pub give: Option<u8>,
}

/// How a side stands.
#[derive(Clone, Copy, Debug, PartialEq, Eq)]
pub enum Standing {
    Healthy,
    Held,
    /// It has failed, and nothing is done to it now.
    Failed,
    Acts(Deeds),
}

/// What a lane shows at one tick.
#[derive(Clone, Copy, Debug, PartialEq, Eq)]
pub enum Cell {
    /// Power, and whether the alarm sounds with it.
    Power(Kind, bool),
    Given(Given),
    Sees(Sees),
    Mode(Mode),
    Ruled(Ruled),
    /// The live value of a source. `None`: it has none.
    Value(Option<u16>),
    Contact(Contact),
    /// A wire that is no contact, by its bit.
    Wire(u8, Wire),
    /// Whether a latch stands.
    Latch(bool),
    Standing(Standing),
}

fn same_given(x: Given, y: Given) -> bool
    ensures { Decides result (x ≡ y) }
{
    x == y
}

fn same_sees(x: Sees, y: Sees) -> bool
    ensures { Decides result (x ≡ y) }
{
    x == y
}

fn same_mode(x: Mode, y: Mode) -> bool
    ensures { Decides result (x ≡ y) }
{
    x == y
}

fn same_kind(x: Kind, y: Kind) -> bool
    ensures { Decides result (x ≡ y) }
{
    x == y
}

fn same_ruled(x: Ruled, y: Ruled) -> bool
    ensures { Decides result (x ≡ y) }
{
    x == y
}

fn same_contact(x: Contact, y: Contact) -> bool
    ensures { Decides result (x ≡ y) }
{
    x == y
}

fn same_wire(x: Wire, y: Wire) -> bool
    ensures { Decides result (x ≡ y) }
{
    x == y
}

fn same_word(x: Option<u64>, y: Option<u64>) -> bool
    ensures { Decides result (x ≡ y) }
{
    x == y
}

fn same_value(x: Option<u16>, y: Option<u16>) -> bool
    ensures { Decides result (x ≡ y) }
{
    x == y
}

fn same_place(x: Option<u8>, y: Option<u8>) -> bool
    ensures { Decides result (x ≡ y) }
{
    x == y
}

fn same_order(x: Override, y: Override) -> bool
    ensures { Decides result (x ≡ y) }
{
    x == y
}

fn same_deeds(x: Deeds, y: Deeds) -> bool
    ensures { Decides result (x ≡ y) }
{
    x.fail == y.fail
        && x.exchange == y.exchange
        && x.dismiss == y.dismiss
        && same_word(x.publish, y.publish)
        && same_word(x.command, y.command)
        && same_order(x.contactor, y.contactor)
        && same_place(x.give, y.give)
}

fn same_standing(x: Standing, y: Standing) -> bool
    ensures { Decides result (x ≡ y) }
{
    match (x, y) {
        (Standing::Healthy, Standing::Healthy) => true,
        (Standing::Held, Standing::Held) => true,
        (Standing::Failed, Standing::Failed) => true,
        (Standing::Acts(x), Standing::Acts(y)) => same_deeds(x, y),
        _ => false,
    }
}

/// Whether both are the same.
pub fn is_same(x: Cell, y: Cell) -> bool
    ensures { Decides result (x ≡ y) }
{
    match (x, y) {
        (Cell::Power(x, a), Cell::Power(y, b)) => same_kind(x, y) && a == b,
        (Cell::Given(x), Cell::Given(y)) => same_given(x, y),
        (Cell::Sees(x), Cell::Sees(y)) => same_sees(x, y),
        (Cell::Mode(x), Cell::Mode(y)) => same_mode(x, y),
        (Cell::Ruled(x), Cell::Ruled(y)) => same_ruled(x, y),
        (Cell::Value(x), Cell::Value(y)) => same_value(x, y),
        (Cell::Contact(x), Cell::Contact(y)) => same_contact(x, y),
        (Cell::Wire(i, x), Cell::Wire(j, y)) => i == j && same_wire(x, y),
        (Cell::Latch(x), Cell::Latch(y)) => x == y,
        (Cell::Standing(x), Cell::Standing(y)) => same_standing(x, y),
        _ => false,
    }
}

fn given_at(tick: u32, out: &Out) -> Given
    ensures { result ≡ given_at tick out.now }
{
    let word = out.word;
    if out.forced {
        Given::Forced(out.kind)
    } else if 0 < stamp_of(word) && is_stale(word, tick) {
        Given::Stale(stamp_of(word))
    } else if out.kind == Kind::Off {
        Given::Off(reason_of(word), detail_of(word))
    } else {
        Given::Kind(out.kind)
    }
}

// A side saw the other's word of this tick or of the tick before, and this word is its own. One that did not decide compares nothing.
fn seen_at(moment: &Moment, turn: &Turn, exchanged: bool) -> Sees
    ensures { result ≡ seen_at moment.now turn.now exchanged }
{
    if !turn.acted || turn.failed || exchanged || turn.command.is_none() {
        return Sees::Nothing;
    }
    let stamp = stamp_of(u64::from(moment.tick));
    let own = publish_word(stamp, &moment.sight.verdict);
    let before = publish_word(stamp.saturating_sub(1), &moment.sight.before);
    if turn.seen == own || turn.seen == before {
        Sees::Agree
    } else {
        Sees::Differ(turn.seen, own)
    }
}

fn ruled_at(verdict: &Verdict) -> Ruled
    ensures { result ≡ ruled_at verdict.now }
{
    if verdict.clause == 0 {
        Ruled::Granted(verdict.kind)
    } else {
        Ruled::Fails(verdict.clause, verdict.detail)
    }
}

// The value of a source, by its number from 1.
fn value_of(image: &Image, number: u8) -> Option<u16>
    ensures { result ≡ value_of image.now number }
{
    if 1 <= number && number as usize <= SOURCES {
        image.values[number as usize - 1]
    } else {
        None
    }
}

/// Whether a mode looks past a contact.
pub fn is_past(mode: Mode, image: &Image, i: u8) -> bool
    requires { i < CONTACTS }
    ensures { result ≡ is_past mode image.now i }
{
    let car = image.bit(PANEL, BYPASS_CAR);
    let landing = image.bit(PANEL, BYPASS_LANDING);
    inoperative(mode, car, landing) >> i & 1 == 1
}

fn lacks(there: &[bool; SOURCES], image: &Image, source: usize) -> bool
    requires { source < SOURCES }
    ensures { result ≡ is_missing there.now image.now source }
{
    there[source] && image.values[source].is_none()
}

// The source of a contact has no value. Those on wires have none.
fn lacks_value(there: &[bool; SOURCES], image: &Image, i: u8) -> bool
    ensures { result ≡ lacks_value there.now image.now i }
{
    match i {
        0..=6 => false,
        7 => lacks(there, image, PIT),
        8 | 10 => lacks(there, image, ROOF),
        9 => lacks(there, image, CAR),
        11..=13 => lacks(there, image, DOORS),
        _ => lacks(there, image, PLATFORM),
    }
}

fn made_or_open(made: bool, past: bool) -> Contact
    ensures { result ≡ made_or_open made past }
{
    match (made, past) {
        (true, false) => Contact::Made,
        (false, false) => Contact::Open,
        (true, true) => Contact::PastMade,
        (false, true) => Contact::PastOpen,
    }
}

fn contact_at(mode: Mode, there: &[bool; SOURCES], image: &Image, i: u8) -> Contact
    ensures { result ≡ contact_at mode there.now image.now i }
{
    if CONTACTS <= i {
        Contact::NoSource
    } else if i < UP_LIMIT && image.discrepant(i) {
        Contact::Discrepant
    } else if lacks_value(there, image, i) {
        Contact::NoSource
    } else {
        made_or_open(is_contact_made(image, there, i), is_past(mode, image, i))
    }
}

// The signal that shows the car door closed is looked at while the car door's contact is not.
fn monitor_at(mode: Mode, image: &Image) -> Contact
    ensures { result ≡ monitor_at mode image.now }
{
    if image.values[DOORS].is_none() {
        Contact::NoSource
    } else if image.bit(DOORS, MONITOR) {
        Contact::Made
    } else if is_past(mode, image, CAR_DOOR_CONTACT) {
        Contact::Open
    } else {
        Contact::NotLookedAt
    }
}

fn wire_at(image: &Image, wire: u8) -> Wire
    ensures { result ≡ wire_at image.now wire }
{
    if WIRES <= wire {
        Wire::Off
    } else if image.discrepant(wire) {
        Wire::Discrepant
    } else if image.made(wire) {
        Wire::Made
    } else {
        Wire::Off
    }
}

// A line of the script other than a hold acts on a side.
fn does_something(lines: &SideFaults) -> bool
    ensures { result ≡ does_something lines.now }
{
    lines.fail
        || lines.exchange
        || lines.dismiss
        || lines.publish.is_some()
        || lines.command.is_some()
        || lines.contactor != Override::Keep
        || lines.give.is_some()
}

fn deeds_of(lines: &SideFaults) -> Deeds
    ensures { result ≡ deeds_of lines.now }
{
    Deeds {
        fail: lines.fail,
        exchange: lines.exchange,
        dismiss: lines.dismiss,
        publish: lines.publish,
        command: lines.command,
        contactor: lines.contactor,
        give: lines.give,
    }
}

fn standing_at(turn: &Turn, lines: &SideFaults) -> Standing
    ensures { result ≡ standing_at turn.now lines.now }
{
    if does_something(lines) {
        Standing::Acts(deeds_of(lines))
    } else if !turn.acted {
        Standing::Held
    } else if turn.failed {
        Standing::Failed
    } else {
        Standing::Healthy
    }
}

/// What a lane shows of a tick.
pub fn cell_at(lane: Lane, moment: &Moment) -> Cell
    ensures { result ≡ cell_at lane moment.now }
{
    let verdict = &moment.sight.verdict;
    let facts = &moment.sight.facts;
    match lane {
        Lane::Power => Cell::Power(moment.settled.power, moment.settled.alarm),
        Lane::Gives(side) => Cell::Given(given_at(moment.tick, moment.out(side))),
        Lane::Sees(side) => {
            Cell::Sees(seen_at(moment, moment.turn(side), moment.lines(side).exchange))
        }
        Lane::Mode => Cell::Mode(verdict.mode),
        Lane::Clause => Cell::Ruled(ruled_at(verdict)),
        Lane::Source(number) => Cell::Value(value_of(&facts.image, number)),
        Lane::Contact(i) => Cell::Contact(contact_at(verdict.mode, &facts.there, &facts.image, i)),
        Lane::Monitor => Cell::Contact(monitor_at(verdict.mode, &facts.image)),
        Lane::Wire(wire) => Cell::Wire(wire, wire_at(&facts.image, wire)),
        Lane::ContactFault => Cell::Latch(facts.contact_fault),
        Lane::PitLatch => Cell::Latch(facts.pit_latched),
        Lane::DoorsFaulty => Cell::Latch(facts.doors_faulty),
        Lane::Faults(side) => Cell::Standing(standing_at(moment.turn(side), moment.lines(side))),
    }
}
