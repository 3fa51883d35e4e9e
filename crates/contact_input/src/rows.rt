// For how many ticks in a row each wire has been discrepant (own).
ghost use Rattle.std.specs.Prelude.{◌≡◌, ℕ, ◌<◌, ◌≤◌, ◌||◌, ◌==◌, length, slice_index};
ghost use Rattle.lift_model.specs.Bits.{some_below};
ghost use Rattle.contact_input.specs.Rows.{next_row};

use crate::words::{Words, is_discrepant, is_none_discrepant};
use chain_table::row_after;
use lift_base::WIRES;

fn or(a: bool, b: bool) -> bool
    ensures { result ≡ (a || b) }
{
    a || b
}

fn count_each(rows: &mut [u32; WIRES as usize], disc: u32, words: Words) -> bool
    ensures rows { (i : ℕ) → i < WIRES → slice_index rows.new i ≡ next_row disc words rows.old i }
    ensures ended { result ≡ some_below WIRES (λ i. next_row disc words rows.old i == disc) }
    ensures length { length rows.new ≡ WIRES }
{
    let mut ended = false;
    for wire in 0..WIRES {
        let i = wire as usize;
        let row = row_after(rows[i], disc, is_discrepant(words, wire));
        rows[i] = row;
        ended = or(ended, row == disc);
    }
    ended
}

/// Counts one tick more, each row up to `disc`, and says whether some wire has now been discrepant for `disc` ticks.
/// A row that goes on ends again at each tick. Where no wire is discrepant, which is mostly so, no row goes on.
pub fn count_rows(rows: &mut [u32; WIRES as usize], disc: u32, words: Words) -> bool
    requires { 1 ≤ disc }
    ensures rows { (i : ℕ) → i < WIRES → slice_index rows.new i ≡ next_row disc words rows.old i }
    ensures ended { result ≡ some_below WIRES (λ i. next_row disc words rows.old i == disc) }
{
    if is_none_discrepant(words) {
        *rows = [0; WIRES as usize];
        return false;
    }
    count_each(rows, disc, words)
}
