//! Safety-relevant data objects: the pair rule, and what takes the frames of one source and knows its value.
#![tactic(auto)]

mod consumer;
mod pair_rule;

pub use consumer::{Consumer, SetTo, take_tick};
pub use pair_rule::{is_inverted, is_plain, judge, value_in};
