// A set of small numbers as one word, bit i for number i. Its first member is the lowest bit.
ghost use Rattle.std.specs.Prelude.{◌≡◌, ◌≢◌, ℕ, ◌<◌, ◌^◌, ◌||◌, false, get_or};
ghost use Rattle.lift_model.specs.Bits.{has, first_below};

/// The set, and this number too where it is asked for.
fn with_bit(set: u16, i: usize, on: bool) -> u16
    requires { i < 16 }
    ensures same { has result i ≡ (has set i || on) }
    ensures others { (k : ℕ) → k ≢ i → has result k ≡ has set k }
{
    if on { set | (1 << i) } else { set }
}

/// The set of the indices at which the test holds.
pub fn set_of(tests: &[bool; 12]) -> u16
    ensures { (i : ℕ) → i < 12 → has result i ≡ get_or tests.now i false }
{
    let mut set: u16 = 0;
    for i in 0..12 {
        set = with_bit(set, i, tests[i]);
    }
    set
}

/// The number of the lowest bit that is 1. `None` exactly where there is none.
pub fn lowest(set: u16) -> Option<u8>
    ensures { (n : ℕ) → set < 2 ^ n → result ≡ first_below n (has set) }
{
    if set == 0 {
        None
    } else {
        Some(set.trailing_zeros() as u8)
    }
}
