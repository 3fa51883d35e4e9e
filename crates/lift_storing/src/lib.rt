//! The changes of a path, stored in a record that was opened (own).
#![tactic(auto)]

mod storing;

pub use storing::store_changes;
