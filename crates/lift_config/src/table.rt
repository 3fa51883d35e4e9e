// What the table of a head means (own): each key in its order, its value in its range, no identifier twice, and no further key.
ghost use Rattle.std.specs.Prelude.{◌≡◌, ◌≤◌, ◌≢◌, IfErr, IfOk, IfSome, true, option_map};
ghost use Rattle.toml.specs.Data.{as_integer};
ghost use Rattle.toml.specs.View.{view, table_view};
ghost use Rattle.lift_config.specs.Head.{value_at, config_of, fitting, required, optional, within, fresh, most_ticks, platform_of, one_if, has_extra, is_among};

use crate::{Config, ConfigFault, Key};
use lift_base::{LONGEST_SPAN, MOST_TICKS, MOST_TICKS_BEFORE};
use toml::{Table, Value};

// The value at a key.
fn value_at(table: &Table, key: Key) -> Option<&Value>
    ensures { option_map (λ v. view v.now) result ≡ value_at key (table_view table.now) }
{
    table.get(key.name())
}

// The integer, where it is from `low` to `high`.
fn fitting(key: Key, value: &Value, low: u32, high: u32) -> Result<u32, ConfigFault>
    ensures value { result ≡ fitting key (within low high) (as_integer (view value.now)) }
    ensures low { IfOk result (λ n. low ≤ n) }
    ensures high { IfOk result (λ n. n ≤ high) }
    ensures free { IfErr result (λ e. e ≢ ConfigFault.NoMemory) }
{
    match value.as_integer() {
        Some(n) if i64::from(low) <= n && n <= i64::from(high) => Ok(n as u32),
        _ => Err(ConfigFault::BadValue(key)),
    }
}

// The integer at a key, where it is from `low` to `high`.
fn number(table: &Table, key: Key, low: u32, high: u32) -> Result<u32, ConfigFault>
    ensures value { result ≡ required key (within low high) (value_at key (table_view table.now)) }
    ensures low { IfOk result (λ n. low ≤ n) }
    ensures high { IfOk result (λ n. n ≤ high) }
    ensures free { IfErr result (λ e. e ≢ ConfigFault.NoMemory) }
{
    match value_at(table, key) {
        Some(value) => fitting(key, value, low, high),
        None => Err(ConfigFault::Missing(key)),
    }
}

fn is_among(n: u16, earlier: &[Option<u16>]) -> bool
    ensures { result ≡ is_among n earlier.now }
{
    for id in earlier {
        if *id == Some(n) {
            return true;
        }
    }
    false
}

// The identifier, where no earlier key has it.
fn fresh(key: Key, value: &Value, earlier: &[Option<u16>]) -> Result<u16, ConfigFault>
    ensures value { result ≡ fitting key (fresh earlier.now) (as_integer (view value.now)) }
    ensures fits { IfOk result (λ id. fresh earlier.now id ≡ true) }
    ensures free { IfErr result (λ e. e ≢ ConfigFault.NoMemory) }
{
    match value.as_integer() {
        Some(n) if (257..=383).contains(&n) && n & 1 == 1 && !is_among(n as u16, earlier) => Ok(
            n as u16,
        ),
        _ => Err(ConfigFault::BadValue(key)),
    }
}

// The identifier at a key.
fn identifier(table: &Table, key: Key, earlier: &[Option<u16>]) -> Result<u16, ConfigFault>
    ensures value { result ≡ required key (fresh earlier.now) (value_at key (table_view table.now)) }
    ensures fits { IfOk result (λ id. fresh earlier.now id ≡ true) }
    ensures free { IfErr result (λ e. e ≢ ConfigFault.NoMemory) }
{
    match value_at(table, key) {
        Some(value) => fresh(key, value, earlier),
        None => Err(ConfigFault::Missing(key)),
    }
}

// The identifier at a key that may be missing.
fn optional(table: &Table, key: Key, earlier: &[Option<u16>]) -> Result<Option<u16>, ConfigFault>
    ensures value { result ≡ optional key (fresh earlier.now) (value_at key (table_view table.now)) }
    ensures fits { IfOk result (λ car. IfSome car (λ id. fresh earlier.now id ≡ true)) }
    ensures free { IfErr result (λ e. e ≢ ConfigFault.NoMemory) }
{
    match value_at(table, key) {
        Some(value) => fresh(key, value, earlier).map(Some),
        None => Ok(None),
    }
}

// The identifier of the platform's station, whose key there is from version 2 on.
fn platform(
    version: u32,
    table: &Table,
    earlier: &[Option<u16>],
) -> Result<Option<u16>, ConfigFault>
    ensures value { result ≡ platform_of version (fresh earlier.now) (value_at Key.Platform (table_view table.now)) }
    ensures fits { IfOk result (λ platform. IfSome platform (λ id. fresh earlier.now id ≡ true)) }
    ensures free { IfErr result (λ e. e ≢ ConfigFault.NoMemory) }
{
    if version == 1 {
        Ok(None)
    } else {
        optional(table, Key::Platform, earlier)
    }
}

fn most_ticks(version: u32) -> u32
    ensures value { result ≡ most_ticks version }
    ensures most { result ≤ MOST_TICKS }
{
    if version == 1 {
        MOST_TICKS_BEFORE
    } else {
        MOST_TICKS
    }
}

fn one_if(id: Option<u16>) -> usize
    ensures value { result ≡ one_if id }
    ensures small { result ≤ 1 }
{
    match id {
        Some(_) => 1,
        None => 0,
    }
}

fn has_extra(car: Option<u16>, platform: Option<u16>, table: &Table) -> bool
    ensures { result ≡ has_extra car platform (table_view table.now) }
{
    table.len() > 10 + one_if(car) + one_if(platform)
}

// The config that a table means.
pub fn config_of(table: &Table) -> Result<Config, ConfigFault>
    ensures value { result ≡ config_of (table_view table.now) }
    ensures free { IfErr result (λ e. e ≢ ConfigFault.NoMemory) }
{
    let version = number(table, Key::Version, 1, 2)?;
    let ticks = number(table, Key::Ticks, 1, most_ticks(version))?;
    let sct = number(table, Key::Sct, 1, LONGEST_SPAN)?;
    let srvt = number(table, Key::Srvt, 1, sct)?;
    let disc = number(table, Key::Disc, 1, LONGEST_SPAN)?;
    let door = number(table, Key::DoorTicks, 1, LONGEST_SPAN)?;
    let roof = identifier(table, Key::Roof, &[])?;
    let pit = identifier(table, Key::Pit, &[Some(roof)])?;
    let car = optional(table, Key::Car, &[Some(roof), Some(pit)])?;
    let doors = identifier(table, Key::Doors, &[Some(roof), Some(pit), car])?;
    let panel = identifier(
        table,
        Key::Panel,
        &[Some(roof), Some(pit), car, Some(doors)],
    )?;
    let platform = platform(
        version,
        table,
        &[Some(roof), Some(pit), car, Some(doors), Some(panel)],
    )?;
    if has_extra(car, platform, table) {
        return Err(ConfigFault::Extra);
    }
    Ok(Config {
        ticks,
        sct,
        srvt,
        disc,
        door,
        roof,
        pit,
        car,
        doors,
        panel,
        platform,
    })
}
