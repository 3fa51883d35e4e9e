//! Readers, writers and disks that fail in the midst of a text or of a record: what no program shows of the crates that hold them.
#![tactic(auto)]

#[cfg(test)]
mod disk_tests;
#[cfg(test)]
mod stream_tests;
