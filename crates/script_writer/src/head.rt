// The keys of a head, one a line (own).
ghost use Rattle.std.specs.Prelude.{◌≡◌};
ghost use Rattle.std.specs.List.{flat_map};
ghost use Rattle.lift_io.specs.Causes.{HasCause};
ghost use Rattle.lift_io.specs.Puts.{PutsText};
ghost use Rattle.script_model.specs.Text.{key_text, first_keys, car_key, last_keys, platform_key, head_text};

use itoa::Buffer;
use lift_config::{Config, Key};
use lift_io::{Failed, Sink, put_all};

fn put_key<K: Sink>(sink: &mut K, key: Key, number: u32) -> Result<(), Failed>
    ensures text { PutsText (K.held sink.old) (K.held sink.new) result (key_text (key, number)) }
    ensures cause { HasCause (K.faults sink.old) (K.faults sink.new) result }
{
    let mut buffer = Buffer::new();
    let digits = buffer.format(number);
    put_all(
        sink,
        &[key.name().as_bytes(), b" = ", digits.as_bytes(), b"\n"],
    )
}

fn put_keys<K: Sink>(sink: &mut K, keys: &[(Key, u32)]) -> Result<(), Failed>
    ensures text { PutsText (K.held sink.old) (K.held sink.new) result (flat_map key_text keys.now) }
    ensures cause { HasCause (K.faults sink.old) (K.faults sink.new) result }
{
    for (key, number) in keys {
        put_key(sink, *key, *number)?;
    }
    Ok(())
}

fn put_car<K: Sink>(sink: &mut K, config: &Config) -> Result<(), Failed>
    ensures text { PutsText (K.held sink.old) (K.held sink.new) result (flat_map key_text (car_key config.now.car)) }
    ensures cause { HasCause (K.faults sink.old) (K.faults sink.new) result }
{
    match config.car {
        Some(id) => put_keys(sink, &[(Key::Car, u32::from(id))]),
        None => Ok(()),
    }
}

fn put_platform<K: Sink>(sink: &mut K, config: &Config) -> Result<(), Failed>
    ensures text { PutsText (K.held sink.old) (K.held sink.new) result (flat_map key_text (platform_key config.now.platform)) }
    ensures cause { HasCause (K.faults sink.old) (K.faults sink.new) result }
{
    match config.platform {
        Some(id) => put_keys(sink, &[(Key::Platform, u32::from(id))]),
        None => Ok(()),
    }
}

/// The keys before that of the car.
fn first_keys(config: &Config) -> [(Key, u32); 8]
    ensures { result ≡ first_keys config.now }
{
    [
        (Key::Version, 2),
        (Key::Ticks, config.ticks),
        (Key::Sct, config.sct),
        (Key::Srvt, config.srvt),
        (Key::Disc, config.disc),
        (Key::DoorTicks, config.door),
        (Key::Roof, u32::from(config.roof)),
        (Key::Pit, u32::from(config.pit)),
    ]
}

/// The keys behind that of the car.
fn last_keys(config: &Config) -> [(Key, u32); 2]
    ensures { result ≡ last_keys config.now }
{
    [
        (Key::Doors, u32::from(config.doors)),
        (Key::Panel, u32::from(config.panel)),
    ]
}

/// Writes the keys of a head.
pub fn put_head<K: Sink>(sink: &mut K, config: &Config) -> Result<(), Failed>
    ensures text { PutsText (K.held sink.old) (K.held sink.new) result (head_text config.now) }
    ensures cause { HasCause (K.faults sink.old) (K.faults sink.new) result }
{
    put_keys(sink, &first_keys(config))?;
    put_car(sink, config)?;
    put_keys(sink, &last_keys(config))?;
    put_platform(sink, config)
}
