// The signals of the dump: where each stands, how many bits it has, and what it tells of a tick (own).
use channel_words::{detail_of, reason_of, stamp_of};
use lift_base::{CAR_DOOR_CONTACT, CONTACTS, Kind, Mode, SOURCES, Side, WIRES};
use lift_io::NoMemory;
use ride_lanes::{Cell, Contact, Lane, Moment, Sees, Wire, cell_at, is_past};
use std::alloc::Global;

/// What a signal tells.
#[derive(Clone, Copy, Debug)]
pub enum Signal {
    /// What a lane shows.
    Lane(Lane),
    Alarm,
    /// Power is lost at this tick.
    Lost,
    Kind(Side),
    Stamp(Side),
    Reason(Side),
    Detail(Side),
    Forced(Side),
    Failed(Side),
    Held(Side),
    GrantKind,
    GrantClause,
    GrantDetail,
    /// The mode looks past a contact.
    Past(u8),
    /// The monitoring signal is not looked at.
    MonitorPast,
}

/// A value of a signal.
#[derive(Clone, Copy, Debug, PartialEq, Eq)]
pub enum Level {
    Number(u64),
    /// Nothing tells it.
    Unknown,
    /// There is none.
    Floating,
}

/// A row of the dump.
#[derive(Clone, Copy, Debug)]
pub struct Row {
    /// The scope in which it stands, within that of the ride. None: in that itself.
    pub scope: Option<&'static str>,
    pub name: &'static str,
    pub width: u32,
    pub signal: Signal,
    /// The level that was written last.
    pub last: Option<Level>,
}

fn flag(holds: bool) -> Level {
    Level::Number(u64::from(holds))
}

fn kind_level(kind: Kind) -> Level {
    Level::Number(match kind {
        Kind::Off => 0,
        Kind::Full => 1,
        Kind::Up => 2,
        Kind::Down => 3,
    })
}

fn mode_level(mode: Mode) -> Level {
    Level::Number(match mode {
        Mode::Normal => 0,
        Mode::Inspection => 1,
        Mode::Emergency => 2,
    })
}

fn contact_level(contact: Contact) -> Level {
    match contact {
        Contact::Made | Contact::PastMade => flag(true),
        Contact::Open | Contact::PastOpen | Contact::NotLookedAt => flag(false),
        Contact::Discrepant => Level::Unknown,
        Contact::NoSource => Level::Floating,
    }
}

// What a lane shows that has a signal.
fn lane_level(cell: Cell) -> Level {
    match cell {
        Cell::Power(kind, _) => kind_level(kind),
        Cell::Mode(mode) => mode_level(mode),
        Cell::Value(Some(word)) => Level::Number(u64::from(word)),
        Cell::Contact(contact) => contact_level(contact),
        Cell::Wire(_, Wire::Made) | Cell::Latch(true) | Cell::Sees(Sees::Differ(_, _)) => {
            flag(true)
        }
        Cell::Wire(_, Wire::Off) | Cell::Latch(false) | Cell::Sees(Sees::Agree) => flag(false),
        _ => Level::Unknown,
    }
}

impl Signal {
    /// What it tells of a tick at which power is lost or not.
    pub fn level(self, moment: &Moment, lost: bool) -> Level {
        let verdict = &moment.sight.verdict;
        let image = &moment.sight.facts.image;
        match self {
            Signal::Lane(lane) => lane_level(cell_at(lane, moment)),
            Signal::Alarm => flag(moment.settled.alarm),
            Signal::Lost => flag(lost),
            Signal::Kind(side) => kind_level(moment.out(side).kind),
            Signal::Stamp(side) => Level::Number(u64::from(stamp_of(moment.out(side).word))),
            Signal::Reason(side) => Level::Number(u64::from(reason_of(moment.out(side).word))),
            Signal::Detail(side) => Level::Number(u64::from(detail_of(moment.out(side).word))),
            Signal::Forced(side) => flag(moment.out(side).forced),
            Signal::Failed(side) => flag(moment.turn(side).failed),
            Signal::Held(side) => flag(!moment.turn(side).acted),
            Signal::GrantKind => kind_level(verdict.kind),
            Signal::GrantClause => Level::Number(u64::from(verdict.clause)),
            Signal::GrantDetail => Level::Number(u64::from(verdict.detail)),
            Signal::Past(i) => flag(i < CONTACTS && is_past(verdict.mode, image, i)),
            Signal::MonitorPast => flag(!is_past(verdict.mode, image, CAR_DOOR_CONTACT)),
        }
    }
}

// The rows as they are listed.
#[derive(Drop)]
struct Rows {
    rows: Vec<Row>,
    scope: Option<&'static str>,
}

impl Rows {
    fn add(&mut self, name: &'static str, width: u32, signal: Signal) -> Result<(), NoMemory> {
        let row = Row {
            scope: self.scope,
            name,
            width,
            signal,
            last: None,
        };
        self.rows.push(row).map_err(|_| NoMemory)
    }

    // A lane under its own name.
    fn add_lane(&mut self, lane: Lane, width: u32) -> Result<(), NoMemory> {
        self.add(lane.name(), width, Signal::Lane(lane))
    }

    fn add_ride(&mut self) -> Result<(), NoMemory> {
        self.add_lane(Lane::Power, 2)?;
        self.add("alarm", 1, Signal::Alarm)?;
        self.add("lost", 1, Signal::Lost)
    }

    fn add_side(&mut self, scope: &'static str, side: Side) -> Result<(), NoMemory> {
        self.scope = Some(scope);
        self.add("kind", 2, Signal::Kind(side))?;
        self.add("stamp", 24, Signal::Stamp(side))?;
        self.add("reason", 6, Signal::Reason(side))?;
        self.add("detail", 8, Signal::Detail(side))?;
        self.add("forced", 1, Signal::Forced(side))?;
        self.add("failed", 1, Signal::Failed(side))?;
        self.add("held", 1, Signal::Held(side))?;
        self.add("differs", 1, Signal::Lane(Lane::Sees(side)))
    }

    fn add_grant(&mut self) -> Result<(), NoMemory> {
        self.scope = Some("grant");
        self.add_lane(Lane::Mode, 2)?;
        self.add("kind", 2, Signal::GrantKind)?;
        self.add("clause", 4, Signal::GrantClause)?;
        self.add("detail", 8, Signal::GrantDetail)
    }

    fn add_contacts(&mut self) -> Result<(), NoMemory> {
        self.scope = Some("contact");
        for i in 0..CONTACTS {
            self.add_lane(Lane::Contact(i), 1)?;
        }
        self.add_lane(Lane::Monitor, 1)?;
        self.scope = Some("past");
        for i in 0..CONTACTS {
            self.add(Lane::Contact(i).name(), 1, Signal::Past(i))?;
        }
        self.add(Lane::Monitor.name(), 1, Signal::MonitorPast)
    }

    fn add_inputs(&mut self) -> Result<(), NoMemory> {
        self.scope = Some("source");
        for source in 0..SOURCES {
            self.add_lane(Lane::Source(source as u8 + 1), 16)?;
        }
        self.add_contacts()?;
        self.scope = Some("wire");
        for i in 0..WIRES {
            self.add_lane(Lane::Wire(i), 1)?;
        }
        Ok(())
    }

    fn add_latches(&mut self) -> Result<(), NoMemory> {
        self.scope = Some("latch");
        self.add_lane(Lane::ContactFault, 1)?;
        self.add_lane(Lane::PitLatch, 1)?;
        self.add_lane(Lane::DoorsFaulty, 1)
    }
}

/// The rows of the dump in their order. `NoMemory`: there is no memory for them.
pub fn rows_of(alloc: Global) -> Result<Vec<Row>, NoMemory> {
    let mut rows = Rows {
        rows: Vec::new(alloc),
        scope: None,
    };
    rows.add_ride()?;
    rows.add_side("A", Side::A)?;
    rows.add_side("B", Side::B)?;
    rows.add_grant()?;
    rows.add_inputs()?;
    rows.add_latches()?;
    let Rows { rows, .. } = rows;
    Ok(rows)
}
