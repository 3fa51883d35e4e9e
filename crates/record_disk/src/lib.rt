//! A disk that a crash may stop: what it reads, and what a crash may leave of it (own).
#![tactic(auto)]

mod bytes;
mod calls;
mod disk;
mod file;
mod log;
mod memory;
mod mirror;
mod opening;
mod sizes;

pub use disk::Disk;
pub use file::FileDisk;
pub use log::LogEntry;
pub use memory::MemoryDisk;
pub use sizes::{DISK_BYTES, MOST_LOGGED, MOST_WRITTEN};
