// The bits of the sources' values, in words (own).

/// The words of a source's bits from bit 0 on, and the mask of those that have lanes of their own.
#[derive(Clone, Copy)]
pub struct Bits {
    pub words: &'static [&'static str],
    pub elsewhere: u32,
}

static STATION: [&str; 6] = [
    "INSPECTION",
    "RUN",
    "UP",
    "DOWN",
    "stop inactive",
    "safety gear made",
];

static DOORS: [&str; 7] = [
    "car_door made",
    "landing_doors made",
    "landing_locks made",
    "monitor made",
    "zone",
    "door open",
    "unlocked",
];

static PANEL: [&str; 5] = [
    "EMERGENCY",
    "UP",
    "DOWN",
    "bypass car door",
    "bypass landing doors",
];

/// Those of a source, by its number from 1.
pub fn bits_of(number: u8) -> Bits {
    match number {
        1 => Bits {
            words: &STATION,
            elsewhere: 0x30,
        },
        4 => Bits {
            words: &DOORS,
            elsewhere: 0x0F,
        },
        5 => Bits {
            words: &PANEL,
            elsewhere: 0,
        },
        _ => Bits {
            words: &STATION[..5],
            elsewhere: 0x10,
        },
    }
}
