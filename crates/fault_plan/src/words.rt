// The words of a run without a fault, tick by tick (own).
ghost use Rattle.std.specs.Prelude.{◌≡◌};
ghost use Rattle.fault_plan.specs.Doing.{no_words, of_side, words_in};

use lift_base::Side;

/// The words that a side has stored.
#[derive(Clone, Copy, Debug, PartialEq, Eq)]
pub struct SideWords {
    pub publish: u64,
    pub command: u64,
}

/// The words of both sides as a tick ends.
#[derive(Clone, Copy, Debug, PartialEq, Eq)]
pub struct TickWords {
    pub a: SideWords,
    pub b: SideWords,
}

// Before the first tick no word is stored.
fn no_words() -> TickWords
    ensures { result ≡ no_words }
{
    let none = SideWords {
        publish: 0,
        command: 0,
    };
    TickWords { a: none, b: none }
}

/// Those of tick `n`, where they are known.
pub(crate) fn words_in(words: &[TickWords], n: u32) -> TickWords
    ensures { result ≡ words_in words.now n }
{
    if n == 0 {
        return no_words();
    }
    match words.get(n as usize - 1) {
        Some(words) => *words,
        None => no_words(),
    }
}

/// Those of one side.
pub(crate) fn of_side(side: Side, words: TickWords) -> SideWords
    ensures { result ≡ of_side side words }
{
    match side {
        Side::A => words.a,
        Side::B => words.b,
    }
}
