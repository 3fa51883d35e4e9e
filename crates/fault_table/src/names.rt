// How the table names sides and faults (own).
use fault_plan::What;
use lift_base::Side;
use report::kind_name;
use std::alloc::{AllocError, Global};

/// The name of a side.
pub fn side_name(side: Side) -> &'static str {
    match side {
        Side::A => "A",
        Side::B => "B",
    }
}

/// The name of a kind of fault, with its data.
pub fn what_name(alloc: Global, what: What) -> Result<String, AllocError> {
    match what {
        What::Silent => String::from_str(alloc, "silent"),
        What::Wrong(word) => format!(in alloc; "wrong {word:016X}"),
        What::Fresh(kind) => format!(in alloc; "fresh {}", kind_name(kind)),
        What::Others => String::from_str(alloc, "others"),
        What::Last => String::from_str(alloc, "late"),
        What::Right => String::from_str(alloc, "right"),
        What::Forced(kind) => format!(in alloc; "forced {}", kind_name(kind)),
        What::Held(ticks) => format!(in alloc; "held {ticks}"),
        What::Exchanged(after) => format!(in alloc; "exchanged {after}"),
        What::ExchangedAndReset(after) => format!(in alloc; "exchanged {after} reset"),
    }
}
