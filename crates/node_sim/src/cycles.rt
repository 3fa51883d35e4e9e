// How long a cycle may be (own). The most is LONGEST_SPAN of lift_base.

/// The fewest ticks from a plain frame of a source to its next: one for each source, so that no two send plain frames in one tick.
pub const SHORTEST_CYCLE: u32 = 6;
