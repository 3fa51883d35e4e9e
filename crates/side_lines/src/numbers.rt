// The decimal numbers of a line: ticks, and places of the crew (own).
ghost use Rattle.std.specs.Prelude.{◌≡◌, ◌≤◌, IfSome};
ghost use Rattle.lift_base.specs.declared.limits.TheConstants.{MOST_TICKS};
ghost use Rattle.script_model.specs.Numbers.{number_of, place_of, value_from};

use lift_base::MOST_TICKS;

/// A number of ticks, from 1 to the most that a run may have, without a leading zero.
pub fn number(digits: &[u8]) -> Option<u32>
    ensures few { IfSome result (λ n. n ≤ MOST_TICKS) }
    ensures value { result ≡ number_of digits.now }
{
    if digits.is_empty() || digits.len() > 6 || digits[0] == b'0' {
        return None;
    }
    let mut n: u32 = 0;
    for digit in digits {
        if !digit.is_ascii_digit() {
            return None;
        }
        n = 10 * n + u32::from(*digit - b'0');
    }
    if n > MOST_TICKS { None } else { Some(n) }
}

/// A place of the crew, 0 to 254, without a leading zero.
pub fn place(digits: &[u8]) -> Option<u8>
    ensures { result ≡ place_of digits.now }
{
    if digits == b"0".as_slice() {
        return Some(0);
    }
    let i = number(digits)?;
    if i <= 254 { Some(i as u8) } else { None }
}
