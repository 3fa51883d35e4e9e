// The printed names of the sources, the wires and the contacts (own).
ghost use Rattle.std.specs.Prelude.{◌≡◌, ◌<◌, ◌≤◌, ◌-◌, [], get_or};
ghost use Rattle.chain_table.specs.Names.{source_names, wire_names, contact_names};

use lift_base::{CONTACTS, SOURCES, WIRES};

/// The name of the source with this number, from 1.
pub fn source_name(j: u8) -> &'static str
    requires from { 1 ≤ j }
    requires to { j ≤ SOURCES }
    ensures { result.now ≡ get_or source_names (j - 1) [] }
{
    match j {
        1 => "roof",
        2 => "pit",
        3 => "car",
        4 => "doors",
        5 => "panel",
        _ => "platform",
    }
}

/// The name of the wire with this bit.
pub fn wire_name(i: u8) -> &'static str
    requires { i < WIRES }
    ensures { result.now ≡ get_or wire_names i [] }
{
    match i {
        0 => "panel_stop",
        1 => "governor",
        2 => "final_limit",
        3 => "ascending",
        4 => "buffers",
        5 => "slack_rope",
        6 => "pit_door",
        7 => "up_limit",
        8 => "down_limit",
        9 => "reset",
        10 => "pit_reset",
        _ => "request",
    }
}

/// The name of the contact of the safety chain with this index.
pub fn contact_name(i: u8) -> &'static str
    requires { i < CONTACTS }
    ensures { result.now ≡ get_or contact_names i [] }
{
    match i {
        0 => "panel_stop",
        1 => "governor",
        2 => "final_limit",
        3 => "ascending",
        4 => "buffers",
        5 => "slack_rope",
        6 => "pit_door",
        7 => "pit_stop",
        8 => "roof_stop",
        9 => "car_stop",
        10 => "safety_gear",
        11 => "car_door",
        12 => "landing_doors",
        13 => "landing_locks",
        _ => "platform_stop",
    }
}
