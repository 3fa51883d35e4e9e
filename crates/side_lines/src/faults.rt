// What a line of one side does: a fault in a replay, a step in a schedule (own).
ghost use Rattle.std.specs.Prelude.{◌≡◌, get_or, false};
ghost use Rattle.script_model.specs.Faults.{no_faults, is_failed, is_holding, is_acting, is_untouched, is_left, may_stand, with_line, faults_with, stands_after, act_of};
ghost use Rattle.round_model.specs.Giving.{is_place};
ghost use Rattle.round_model.specs.Turns.{is_keep};

use lift_base::{Override, Side};
use lift_trace::{Faults, SideFaults};
use saboteur::MOST_PLACES;
use script_model::{Act, SideLine, Standing};

/// The places of a crew that a line can name, and whether each has its object.
pub type Places = [bool; MOST_PLACES];

/// Whether the side has failed, by the lines of the tick so far, and none of them exchanged it.
fn is_failed(side: Standing, faults: SideFaults) -> bool
    ensures { result ≡ is_failed side faults }
{
    !faults.exchange && (faults.fail || side.failed)
}

/// Whether it holds an object. A new side holds none.
fn is_holding(side: Standing, faults: SideFaults) -> bool
    ensures { result ≡ is_holding side faults }
{
    !faults.exchange && (faults.give.is_some() || (!faults.dismiss && side.holds))
}

/// Whether it is neither failed nor held, and no line of the tick exchanged it.
fn is_acting(side: Standing, faults: SideFaults) -> bool
    ensures { result ≡ is_acting side faults }
{
    !is_failed(side, faults) && !faults.hold && !faults.exchange
}

/// Whether no line of the tick gave the side a fault.
fn is_untouched(faults: SideFaults) -> bool
    ensures { result ≡ is_untouched faults }
{
    let acts = !faults.fail && !faults.hold && !faults.exchange;
    let told = faults.publish.is_some()
        || faults.command.is_some()
        || faults.contactor != Override::Keep;
    acts && !told && !faults.dismiss && faults.give.is_none()
}

/// Whether the place has its object, where the other side was given this one in the tick.
fn is_left(left: &Places, other: Option<u8>, place: u8) -> bool
    ensures { result ≡ is_left left.now other place }
{
    match left.get(place as usize) {
        Some(has) => *has && other != Some(place),
        None => false,
    }
}

/// Whether the line may stand after those of the tick so far. No line of a schedule alone may.
pub fn may_stand(
    left: &Places,
    other: Option<u8>,
    side: Standing,
    faults: SideFaults,
    line: SideLine,
) -> bool
    ensures { result ≡ may_stand left.now other side faults line }
{
    let failed = is_failed(side, faults);
    match line {
        SideLine::Exchange => side.failed && is_untouched(faults),
        SideLine::Fail | SideLine::Hold => is_acting(side, faults),
        SideLine::Word(_) => failed && faults.publish.is_none(),
        SideLine::Value(_) => failed && faults.command.is_none(),
        SideLine::Contactor(_) => failed && faults.contactor == Override::Keep,
        SideLine::Give(place) => failed && !is_holding(side, faults) && is_left(left, other, place),
        SideLine::Dismiss => failed && is_holding(side, faults) && faults.give.is_none(),
        SideLine::Sample | SideLine::Publish | SideLine::Look | SideLine::Command => false,
    }
}

/// The faults of the side with those of the line.
fn with_line(faults: SideFaults, line: SideLine) -> SideFaults
    ensures { result ≡ with_line faults line }
{
    let mut faults = faults;
    match line {
        SideLine::Exchange => faults.exchange = true,
        SideLine::Fail => faults.fail = true,
        SideLine::Hold => faults.hold = true,
        SideLine::Word(word) => faults.publish = Some(word),
        SideLine::Value(word) => faults.command = Some(word),
        SideLine::Contactor(order) => faults.contactor = order,
        SideLine::Give(place) => faults.give = Some(place),
        SideLine::Dismiss => faults.dismiss = true,
        SideLine::Sample | SideLine::Publish | SideLine::Look | SideLine::Command => {}
    }
    faults
}

/// The faults of both sides with those of a line of this side.
pub fn faults_with(faults: Faults, side: Side, line: SideLine) -> Faults
    ensures { result ≡ faults_with faults side line }
{
    let Faults { a, b } = faults;
    match side {
        Side::A => Faults {
            a: with_line(a, line),
            b,
        },
        Side::B => Faults {
            a,
            b: with_line(b, line),
        },
    }
}

/// How the side stands after a tick with these faults.
pub fn stands_after(side: Standing, faults: SideFaults) -> Standing
    ensures { result ≡ stands_after side faults }
{
    Standing {
        failed: is_failed(side, faults),
        holds: is_holding(side, faults),
    }
}

/// The act of a step of a schedule. `h`, `g` and `d` are none.
pub fn act(side: Side, line: SideLine) -> Option<Act>
    ensures { result ≡ act_of side line }
{
    let act = match line {
        SideLine::Exchange => Act::Exchange(side),
        SideLine::Fail => Act::Fail(side),
        SideLine::Word(word) => Act::Word(side, word),
        SideLine::Value(word) => Act::Value(side, word),
        SideLine::Contactor(order) => Act::Contactor(side, order),
        SideLine::Sample => Act::Sample(side),
        SideLine::Publish => Act::Publish(side),
        SideLine::Look => Act::Look(side),
        SideLine::Command => Act::Command(side),
        SideLine::Hold | SideLine::Give(_) | SideLine::Dismiss => return None,
    };
    Some(act)
}
