//! The definitions of the two channels, step by step, and the laws over them. All of it is own.
//! Each law is the contract of a function that does nothing.
#![tactic(auto)]

ghost use Rattle.std.specs.Prelude.{◌≡◌, ℕ, ◌+◌, ◌<◌, ◌≤◌, ◌-◌, ◌^◌, List, ◌++◌, length, get_or};
ghost use Rattle.lift_model.specs.Grant.{grant};
ghost use Rattle.lift_model.specs.Records.{Settings, InputData};
ghost use Rattle.core_model.specs.Machine.{Event, State};
ghost use Rattle.core_model.specs.Settling.{no_settled};
ghost use Rattle.core_model.specs.Runs.{CoreRun};
ghost use Rattle.core_model.specs.Backed.{AllBacked, SeenIsOthers};
ghost use Rattle.core_model.specs.Due.{IsUndisturbed, IsPlain};
ghost use Rattle.core_model.specs.History.{IsLockedOut, UnlocksOpen, StartsAreOpen};
ghost use Rattle.core_model.specs.Decision.{Kept, Told, decided, IsOwn};
ghost use Rattle.core_model.specs.Genuine.{ValuesWereTrue};
ghost use Rattle.core_model.specs.Words.{CommandData, publish_word, command_word, PublishReads, CommandReads};
ghost use Rattle.lift_base.specs.Ruling.{Ruling};

mod numbers;

use lift_base::Override;
pub use numbers::{
    CHANGEOVER, COMMAND_AGE, COMPARE, CONTACTOR_CLOSED, CONTACTOR_OPEN, LOCKED, TOO_MANY,
};

/// What one side does in a step: it fails, it makes one of the four steps of its round, or, once it failed, it does as it likes.
#[derive(Clone, Copy, Debug, PartialEq, Eq)]
pub enum SideStep {
    /// The side is failed from now on.
    Fail,
    /// Its channel catches up to the present tick, which is the new stamp.
    Sample,
    /// It stores the publish word of its verdict.
    Publish,
    /// It copies the other side's publish word.
    Look,
    /// Its supervisor decides, and it stores the command word.
    Command,
    /// A failed side stores this publish word.
    RoguePublish(u64),
    /// A failed side stores this command word.
    RogueCommand(u64),
    /// A failed side gives its contactor this order.
    RogueContactor(Override),
}

/// After every run of the machine, for each tick and each side that is healthy at it, power that is on
/// was granted one or two ticks before, and that side saw the other's word agree.
pub fn power_is_backed()
    ensures { (config : Settings) (events : List Event) (s : State) → config.ticks < 2 ^ 24 → CoreRun config events s
        → AllBacked config events s }
{}

/// For each tick and each side that is healthy at it, the word that the side saw is the other side's, so no side takes its own word for one
/// that agrees.
pub fn seen_is_others()
    ensures { (config : Settings) (events : List Event) (s : State) → config.ticks < 2 ^ 24 → CoreRun config events s
        → SeenIsOthers config events s.path }
{}

/// Up to a tick up to which nothing disturbs a run, what is settled is what is due.
/// So a kind that is granted at two ticks in a row is on at the tick after them.
pub fn undisturbed_is_plain()
    ensures on { (config : Settings) (events : List Event) (s : State) → config.ticks < 2 ^ 24 → CoreRun config events s
        → (t : ℕ) → t + 2 ≤ length s.path → IsUndisturbed events (t + 2) → 0 < t
        → (grant config s.trace (t + 1)).kind ≡ (grant config s.trace t).kind
        → (get_or s.path (t + 1) no_settled).power ≡ (grant config s.trace t).kind }
    ensures plain { (config : Settings) (events : List Event) (s : State) → config.ticks < 2 ^ 24 → CoreRun config events s
        → (t : ℕ) → 0 < t → t ≤ length s.path → IsUndisturbed events t → IsPlain config s.trace t (get_or s.path (t - 1) no_settled) }
{}

/// After three commands in a row of a healthy side whose seen word did not match, and after the exchange of a side, each later tick settles
/// Off, while that side does not fail, until it is unlocked and has made a further command.
pub fn runs_lock_out()
    ensures { (config : Settings) (events : List Event) (s : State) → config.ticks < 2 ^ 24 → CoreRun config events s
        → IsLockedOut config events s.path }
{}

/// A side is unlocked only at a reset, with both contactors open.
pub fn unlocks_open()
    ensures { UnlocksOpen }
{}

/// A side commands a kind after Off, or at its first command, at all or since its last exchange, only with both contactors open.
pub fn starts_open()
    ensures { (config : Settings) (events : List Event) (s : State) → config.ticks < 2 ^ 24 → CoreRun config events s
        → StartsAreOpen config events }
{}

/// In a genuine trace the values behind power were true, each at its own tick not long before.
pub fn values_were_true()
    ensures { (config : Settings) (events : List Event) (s : State) → config.ticks < 2 ^ 24 → CoreRun config events s
        → ValuesWereTrue config events s }
{}

/// A verdict depends on no later input.
pub fn verdicts_stay()
    ensures { (config : Settings) (trace later : List InputData) (n : ℕ) → n ≤ length trace
        → grant config (trace ++ later) n ≡ grant config trace n }
{}

/// The fields of written words are read back: stamps below 2^24, clauses and reasons below 64, details below 256.
pub fn words_are_read_back()
    ensures published { (n : ℕ) (v : Ruling) → n < 2 ^ 24 → v.clause < 64 → v.detail < 256 → PublishReads n v (publish_word n v) }
    ensures commanded { (c : CommandData) → c.stamp < 2 ^ 24 → c.reason < 64 → c.detail < 256 → CommandReads c (command_word c) }
{}

/// A decision is Off, or of the own kind where the seen word matched; it has the stamp that was told.
pub fn decisions_are_own()
    ensures { (kept : Kept) (t : Told) → IsOwn t (decided kept t).command }
{}
