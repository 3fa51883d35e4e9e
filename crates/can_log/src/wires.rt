// The words of the wires beside a log, by their times (own).
ghost use Rattle.std.specs.Prelude.{◌≡◌, ◌<◌, ◌≤◌};
ghost use Rattle.std.specs.List.{AllByRecursion};
ghost use Rattle.can_log.specs.Rows.{IsRow};
ghost use Rattle.can_log.specs.Scripts.{words_at};
ghost use Rattle.can_log.specs.Ahead.{rows_behind};

use crate::log::ticks_before;

/// The words of the wires from a time on, in microseconds.
#[derive(Clone, Copy, Debug, PartialEq, Eq)]
pub struct WireRow {
    pub time: u64,
    /// The wires' word A, bit i for wire i.
    pub a: u16,
    /// The wires' word B, which has the inverse where a wire is good.
    pub b: u16,
}

impl WireRow {
    /// The words of every row keep their range.
    fn known(self)
        ensures { IsRow self }
    {}
}

/// So do those of all rows here.
pub(crate) fn known_rows(rows: &[WireRow])
    ensures { AllByRecursion IsRow rows.now }
{
    let mut rest = rows;
    while let [row, more @ ..] = rest {
        row.known();
        rest = more;
    }
}

/// The words that stand, and the rows that are still ahead.
#[derive(Clone, Copy)]
pub(crate) struct Wires<'a> {
    pub a: u16,
    pub b: u16,
    pub rows: &'a [WireRow],
}

impl<'a> Wires<'a> {
    /// Goes on to a tick.
    pub fn go_on(self, first: u64, tick: u64, n: u32) -> Wires<'a>
        requires { 0 < tick }
        ensures words { record { a = result.a; b = result.b }
            ≡ words_at first tick n (record { a = self.entry.a; b = self.entry.b }) self.entry.rows.now }
        ensures rows { result.rows.now ≡ rows_behind first tick n self.entry.rows.now }
    {
        let mut wires = self;
        while let [row, rows @ ..] = wires.rows {
            if ticks_before(first, tick, row.time) >= u64::from(n) {
                break;
            }
            wires = Wires {
                a: row.a,
                b: row.b,
                rows,
            };
        }
        wires
    }
}
