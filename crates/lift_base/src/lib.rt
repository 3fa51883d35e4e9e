//! The plain words of the product: kinds of motion, sides, modes, verdicts, and each number that a rule names.
#![tactic(auto)]

ghost use Rattle.std.specs.Prelude.{◌≡◌};
ghost use Rattle.lift_base.specs.Ruling.{initial};

mod contacts;
pub mod door_bits;
mod forms;
mod limits;
pub mod panel_bits;
mod sources;
pub mod station_bits;
mod supplies;
mod wires;

pub use contacts::{
    CAR_DOOR_CONTACT, CAR_DOOR_SET, CHAIN_CLAUSE, CONTACT_FAULT, EMERGENCY_SET,
    LANDING_DOORS_CONTACT, LANDING_LOCKS_CONTACT, LANDING_SET, PLATFORM_STOP_CONTACT,
};
pub use forms::Form;
pub use limits::{
    HEAD_TOO_LONG, LONGEST_LINE, LONGEST_SPAN, MOST_FRAMES, MOST_LINES, MOST_TICKS,
    MOST_TICKS_BEFORE,
};
pub use sources::{CAR, DOORS, PANEL, PIT, PLATFORM, ROOF};
use std::marker::Model;
pub use supplies::Supply;
pub use wires::{DOWN_LIMIT, LEVEL, PIT_RESET, REQUEST, RESET, UP_LIMIT, WIRES};

/// How many sources send values in CAN frames: roof, pit, car, doors, panel, platform. Arrays, loops and definitions cite this count.
pub const SOURCES: usize = 6;

/// How many contacts the safety chain has (EN 81-20, 5.11.2; which ones is own).
pub const CONTACTS: u8 = 15;

/// The set of all contacts, bit i for contact i.
pub const ALL_CONTACTS: u16 = (1 << CONTACTS) - 1;

/// What motion power is for: none, normal running, or one direction by constant pressure.
#[derive(Clone, Copy, Debug, PartialEq, Eq)]
pub enum Kind {
    Off,
    Full,
    Up,
    Down,
}

/// One of the two channels of the controller, with its contactor.
#[derive(Clone, Copy, Debug, PartialEq, Eq)]
pub enum Side {
    A,
    B,
}

/// How the lift is operated: normally, from an inspection station (5.12.1.5), or by emergency electrical operation (5.12.1.6).
#[derive(Clone, Copy, Debug, PartialEq, Eq)]
pub enum Mode {
    Normal,
    Inspection,
    Emergency,
}

/// What a channel has done of its round: nothing yet, or all up to this step.
#[derive(Clone, Copy, Debug, PartialEq, Eq)]
pub enum Phase {
    Rest,
    Sampled,
    Published,
    Looked,
}

/// An order to a failed side's contactor: none, to follow its command word again, or to give a kind whatever the word says.
#[derive(Clone, Copy, Debug, PartialEq, Eq)]
pub enum Override {
    Keep,
    Follow,
    Force(Kind),
}

/// What the clauses say of one tick.
#[derive(Clone, Copy, Debug, PartialEq, Eq)]
pub struct Verdict {
    /// The kind of motion that is granted. `Off` where a clause fails.
    pub kind: Kind,
    /// The number of the first clause that fails, 1 to 12. 0 where a kind is granted, and before the first tick.
    pub clause: u8,
    /// What the clause fails at: a source, a wire, a contact, a side of the bypass, a direction. 0 where it has no such thing.
    pub detail: u8,
    /// The mode that the stations and the panel ask for, told in an `Off` too.
    pub mode: Mode,
    /// Whether a door is bypassed, told in an `Off` too.
    pub bypass: bool,
}

impl Model for Verdict {
    ghost use Rattle.std.specs.Prelude.{◌≤◌};
    ghost use Rattle.lift_base.specs.Ruling.{Ruling};

    ghost Value = { Ruling };

    ghost view = { λ v. record { kind = v.kind; clause = v.clause; detail = v.detail; mode = v.mode; bypass = v.bypass } };

    ghost invariant = { λ v. v.clause ≤ 12 };

    ghost inverse = { λ r. record { kind = r.kind; clause = r.clause; detail = r.detail; mode = r.mode; bypass = r.bypass } };
}

impl Verdict {
    /// The verdict before the first tick: `Off`, with no clause.
    pub fn initial() -> Verdict
        ensures { result ≡ initial }
    {
        Verdict {
            kind: Kind::Off,
            clause: 0,
            detail: 0,
            mode: Mode::Normal,
            bypass: false,
        }
    }
}
