//! What two threads may have done in a round, and the laws over it. All of it is own.
//! Each law is the contract of a function that does nothing.
#![tactic(auto)]

ghost use Rattle.round_model.specs.Lawful.{LegalIsLawful, LawfulIsBacked, LawfulSeesOthers, LawfulIsPlain, HasRounds};
ghost use Rattle.round_model.specs.Told.{RoundIsTold, HealthIsTold, CalmIsTold, LawfulLocksOut, LawfulStartsOpen};
ghost use Rattle.round_model.specs.Inline.{ListIsTold, DeedOfList, MaskIsTold, DeedOfMask, InlineEqualsBoxed};
ghost use Rattle.round_model.specs.Dismissal.{DismissedHoldsNothing, StaysDismissed, ExchangedHoldsNothing, NeverGivenHoldsNothing, GivenIsHeld};

/// The events of legal rounds, joined, are a core run, and the state behind a legal round has the words, the supervisor,
/// the contactor and the stamp that each turn tells.
pub fn legal_round_runs()
    ensures run { LegalIsLawful }
    ensures told { RoundIsTold }
{}

/// A side is healthy at a tick by the script exactly where it is by the events, so in a lawful run power is backed at
/// each tick for each side that is healthy by the script.
pub fn lawful_is_backed()
    ensures health { HealthIsTold }
    ensures backed { LawfulIsBacked }
{}

/// In a lawful run the word that a healthy side saw is the other side's, by the events and by the rounds.
pub fn lawful_sees_others()
    ensures { LawfulSeesOthers }
{}

/// A script that is undisturbed up to a tick gives events that are, so what is settled in a lawful run is what is due
/// as long as the script disturbs nothing.
pub fn lawful_is_plain()
    ensures calm { CalmIsTold }
    ensures plain { LawfulIsPlain }
{}

/// Each script has legal rounds, so none of these laws is empty.
pub fn has_rounds()
    ensures { HasRounds }
{}

/// A list that an object told when it was given is answered deed by deed, and past its end nothing.
pub fn list_is_told()
    ensures list { ListIsTold }
    ensures deed { DeedOfList }
{}

/// A mask that an object told when it was given stays, and is answered at each act over the word that was seen.
pub fn mask_is_told()
    ensures mask { MaskIsTold }
    ensures deed { DeedOfMask }
{}

/// A side that is dismissed in a tick, and is given no object then, holds nothing, in later ticks too until a line gives
/// it one; nor does one that was exchanged, nor one that was never given one. So a failed side does what the script's lines say
/// and no more.
pub fn dismissed_holds_nothing()
    ensures now { DismissedHoldsNothing }
    ensures later { StaysDismissed }
    ensures anew { ExchangedHoldsNothing }
    ensures never { NeverGivenHoldsNothing }
{}

/// A side that is given an object holds what the crew tells of it, also where the same tick dismisses.
pub fn given_is_held()
    ensures { GivenIsHeld }
{}

/// A script that gives a failed side an object with a told list, and one that has the list's deeds as lines, have the
/// same legal rounds.
pub fn inline_equals_boxed()
    ensures { InlineEqualsBoxed }
{}

/// In a lawful run three mismatches of a healthy side in a row, and the exchange of a side, lock its power out until it is freed.
pub fn lawful_locks_out()
    ensures { LawfulLocksOut }
{}

/// In a lawful run a side commands a kind after Off, or at its first command, at all or since its last exchange, only with both contactors
/// open.
pub fn lawful_starts_open()
    ensures { LawfulStartsOpen }
{}
