//! What a command makes of a script: the run, and the page that is shown of it (own).
#![tactic(auto)]

mod guards;
mod level;
mod making;
mod rounds;
mod schedule;

pub use making::{Made, Page, make};
pub use rounds::run_opened;
