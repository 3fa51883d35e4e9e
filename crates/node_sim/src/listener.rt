// What an audit keeps of one source while its frames come: the newest frame, and the tick of the source's pair (own).
ghost use Rattle.std.specs.Prelude.{◌≡◌, ℕ, ◌+◌, not, ◌&&◌, ◌||◌, ◌==◌, ◌∷◌, ◌++◌, [], if◌then◌else◌, List, is_some, take, Option};
ghost use Rattle.lift_model.specs.Bits.{or_else};
ghost use Rattle.lift_model.specs.Live.{Timed, Source, and_frame};
ghost use Rattle.lift_model.specs.Records.{Settings, InputData};
ghost use Rattle.lift_model.specs.Trace.{frames_from};
ghost use Rattle.node_sim.specs.Audited.{last_of, is_untrue, untrue_if, age_of, age_at};
ghost use Rattle.node_sim.specs.Heard.{ending, tells, HeardIf};

use grant_model::pairs::{Asked, Came, is_of, is_pair};
use srdo_pair::{is_plain, value_in};

/// What is kept of one source.
#[derive(Clone, Copy, Debug)]
pub struct Listener {
    asked: Asked,
    /// Its newest frame.
    newest: Option<Came>,
    /// Its true word in that frame's tick, 0 before the first frame.
    word: u16,
    /// The tick of the plain frame, where the newest two frames are a valid pair.
    ended: Option<u32>,
    /// The tick of the plain frame of the source's pair.
    pair: Option<u32>,
}

/// The tick of the newest frame, where `y` ends a valid pair with it.
fn ending(asked: Asked, newest: Option<Came>, y: Came) -> Option<u32>
    ensures { result ≡ ending asked newest y }
{
    match newest {
        Some(x) => {
            if is_pair(asked, x, y) {
                Some(x.tick)
            } else {
                None
            }
        }
        None => None,
    }
}

/// Whether the newest frame has this value.
fn tells(newest: Option<Came>, word: u16) -> bool
    ensures { result ≡ tells newest word }
{
    match newest {
        Some(x) => value_in(&x.frame) == word,
        None => true,
    }
}

fn is_wrong(ended: Option<u32>, newest: Option<Came>, word: u16) -> bool
    ensures { result ≡ (is_some ended && not (tells newest word)) }
{
    ended.is_some() && !tells(newest, word)
}

/// The pair that has just ended, or, where a plain frame came, the one that ended right before it.
fn pair_of(ended: Option<u32>, before: Option<u32>, is_plain: bool) -> Option<u32>
    ensures { result ≡ or_else ended (if is_plain then before else None) }
{
    if ended.is_some() {
        return ended;
    }
    if is_plain { before } else { None }
}

fn age_of(n: u32, tick: Option<u32>) -> Option<u32>
    ensures { result ≡ age_of n tick }
{
    match tick {
        Some(tick) => Some(n.saturating_sub(tick)),
        None => None,
    }
}

impl Listener {
    ghost use Rattle.node_sim.specs.Heard.{Heard};

    /// Before the first frame.
    pub fn new(asked: Asked) -> Listener
        ensures { (words : ℕ → ℕ) → Heard result asked words [] }
    {
        Listener {
            asked,
            newest: None,
            word: 0,
            ended: None,
            pair: None,
        }
    }

    /// Takes a frame of any source, with the true word of this one in that tick. Whether the frame ends a valid pair that isn't genuine.
    pub fn take(&mut self, came: Came, word: u16) -> bool
        ensures { (source : Source) (words : ℕ → ℕ) (frames : List Timed) → Heard self.old source words frames → word ≡ words came.tick
            → (result ≡ is_untrue source words (last_of frames) came) × Heard self.new source words (and_frame source frames came) }
    {
        let asked = self.asked;
        if !is_of(asked, &came.frame) {
            return false;
        }
        let ended = ending(asked, self.newest, came);
        let wrong = is_wrong(ended, self.newest, self.word);
        self.pair = pair_of(ended, self.ended, is_plain(&came.frame, asked.plain));
        self.ended = ended;
        self.newest = Some(came);
        self.word = word;
        wrong
    }

    /// How many ticks the pair is old at tick `n`.
    pub fn age(&self, n: u32) -> Option<u32>
        ensures { result ≡ age_of n self.now.pair }
    {
        age_of(n, self.pair)
    }
}

/// A listener of the source with this plain identifier, where there is one.
pub fn listener_if(plain: Option<u16>, sct: u32, srvt: u32) -> Option<Listener>
    ensures { (config : Settings) (words : ℕ → ℕ) → sct ≡ config.sct → srvt ≡ config.srvt → HeardIf result config plain words [] }
{
    match plain {
        Some(plain) => Some(Listener::new(Asked { plain, sct, srvt })),
        None => None,
    }
}

/// The same as `take`, where there is one.
pub fn take_if(listener: &mut Option<Listener>, came: Came, word: u16) -> bool
    ensures { (config : Settings) (plain : Option ℕ) (words : ℕ → ℕ) (before : List Timed) → HeardIf listener.old config plain words before
        → word ≡ words came.tick
        → (result ≡ untrue_if config words before came plain) × HeardIf listener.new config plain words (before ++ came ∷ []) }
{
    match listener {
        Some(listener) => listener.take(came, word),
        None => false,
    }
}

/// The same as `age`, where there is one.
pub fn age_if(listener: &Option<Listener>, n: u32) -> Option<u32>
    ensures { (config : Settings) (plain : Option ℕ) (words : ℕ → ℕ) (trace : List InputData)
        → HeardIf listener.now config plain words (frames_from 1 (take n trace)) → result ≡ age_at config trace n plain }
{
    match listener {
        Some(listener) => listener.age(n),
        None => None,
    }
}
