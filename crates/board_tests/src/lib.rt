//! Two threads at one board, and the core step by step: what no program shows of the crates below the tool.
#![tactic(auto)]

#[cfg(test)]
mod core_tests;
#[cfg(test)]
mod order_tests;
#[cfg(test)]
mod thread_tests;
