// Two guards over the same inputs, each with a channel and consumers of its own: levelling needs both, and one that says that the car has
// moved is enough (own).
ghost use Rattle.std.specs.Prelude.{◌≡◌, ℕ, ◌+◌, ◌≤◌, ◌&&◌, ◌||◌, [], ◌++◌, List, length};
ghost use Rattle.lift_model.specs.Levelling.{has_moved, may_level};
ghost use Rattle.lift_model.specs.Records.{Settings, InputData};
ghost use Rattle.core_model.specs.Supplies.{supplies_of};
ghost use Rattle.level_guard.specs.StandsFor.{StandsFor};

use crate::gating::gate;
use crate::guard::LevelGuard;
use crate::supplies::Supplies;
use contactor_pair::Path;
use grant_model::Channel;
use lift_trace::Trace;
use srdo_pair::Consumer;

/// What is said of a tick: whether levelling is permitted, and whether an unintended movement stands.
#[derive(Clone, Copy, Debug, PartialEq, Eq)]
struct Said {
    level: bool,
    moved: bool,
}

fn said_by<H: Channel, C: Consumer>(guard: &LevelGuard<H, C>) -> Said
    ensures { (config : Settings) (inputs : List InputData) → StandsFor H.stands C.stands guard.now config inputs
        → result ≡ record { level = may_level config inputs; moved = has_moved config inputs } }
{
    Said {
        level: guard.level(),
        moved: guard.moved(),
    }
}

/// Levelling needs both, and one that says moved is enough.
fn both(a: Said, b: Said) -> Said
    ensures { result ≡ record { level = a.level && b.level; moved = a.moved || b.moved } }
{
    Said {
        level: a.level && b.level,
        moved: a.moved || b.moved,
    }
}

/// What is given at each tick of a path, by two guards that took none of the inputs. It takes no memory.
pub fn give<HA: Channel, CA: Consumer, HB: Channel, CB: Consumer>(
    a: &mut LevelGuard<HA, CA>,
    b: &mut LevelGuard<HB, CB>,
    trace: &Trace,
    path: &Path,
    supplies: &mut Supplies,
)
    requires guards { (config : Settings) × (StandsFor HA.stands CA.stands a.old config [])
        × StandsFor HB.stands CB.stands b.old config [] }
    requires inputs { length path.now.settled ≤ length trace.now.inputs }
    requires empty { supplies.old.given ≡ [] }
    requires room { length path.now.settled ≤ supplies.old.room }
    ensures { (config : Settings) → StandsFor HA.stands CA.stands a.old config [] → StandsFor HB.stands CB.stands b.old config []
        → supplies.new.given ≡ supplies_of config trace.now.inputs path.now.settled }
{
    for before in 0..path.len() {
        let said = both(said_by(a), said_by(b));
        supplies.push(gate(&path.get(before + 1), said.level, said.moved));
        a.tick(trace);
        b.tick(trace);
    }
}
