// What a latch and a row of ticks are one tick on (own). All latches of the product share the one law.
ghost use Rattle.std.specs.Prelude.{◌≡◌, ◌+◌, ◌&&◌, ◌||◌, not, min, if◌then◌else◌};

/// A latch one tick on: what clears it at this tick comes before what sets it.
pub fn latch_after(latched: bool, set: bool, cleared: bool) -> bool
    ensures { result ≡ (set || (latched && not cleared)) }
{
    set || (latched && !cleared)
}

/// How many ticks in a row pass, one tick on, counted up to `limit`.
pub fn row_after(row: u32, limit: u32, passes: bool) -> u32
    ensures { result ≡ (if passes then min (row + 1) limit else 0) }
{
    if !passes {
        0
    } else if row < limit {
        row + 1
    } else {
        limit
    }
}
