//! Writes the report of a path: a line for each change of power or alarm, with the reason of an Off, and a last line that counts; the
//! rounds of a run: a line for each tick; and what an audit says of a run (own).
#![tactic(auto)]

mod audit;
mod changes;
mod last;
mod lines;
mod reason_texts;
mod reasons;
mod report;
mod rounds;
mod summary;
mod supply;
mod totals;

pub use audit::write_audit;
pub use changes::change_at;
pub use last::{fill, write_last};
pub use lines::{alarm_mark, kind_name, put_change};
pub use reason_texts::{ReasonText, reason_text};
pub use reasons::{Reason, is_stale, reason_at};
pub use report::write_report;
pub use rounds::write_rounds;
pub use summary::write_summary;
pub use supply::write_supply;
pub use totals::count_changes;
