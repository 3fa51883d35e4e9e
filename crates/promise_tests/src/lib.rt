//! The top call over memory: reads, writes and disks that fail, and objects that answer what they like. No program shows these.
#![tactic(auto)]

#[cfg(test)]
mod calls;
#[cfg(test)]
mod hostile_tests;
#[cfg(test)]
mod object_tests;
#[cfg(test)]
mod store_tests;
#[cfg(test)]
mod stream_tests;
