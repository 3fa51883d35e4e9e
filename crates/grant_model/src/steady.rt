// The form of both channels: it takes the inputs run by run, and comes to a verdict anew only where what the clauses look at
// is another than at the tick before. How it comes to the verdict is the channel's own.
ghost use Rattle.std.specs.Prelude.{◌≡◌, ℕ, ◌<◌, ◌^◌, ◌∷◌, [], ◌++◌, List};
ghost use Rattle.lift_model.specs.Records.{Settings, InputData};
ghost use Rattle.lift_model.specs.Grant.{facts_of, verdict_of};

use crate::channel::Channel;
use crate::facts::{Facts, is_same_facts};
use crate::following::{Follower, follow};
use crate::senses::Senses;
use lift_base::Verdict;
use lift_config::Config;
use lift_trace::{Input, Trace};
use srdo_pair::{Consumer, SetTo};

/// How a channel comes to the verdict of one tick.
pub trait Method: Drop {
    /// The verdict over these facts.
    fn verdict(&self, facts: &Facts) -> Verdict
        ensures { result ≡ verdict_of facts.now };
}

/// A verdict, and the facts that it is over.
#[derive(Clone, Copy, Debug)]
struct Judged {
    facts: Facts,
    verdict: Verdict,
    ghost right: { verdict ≡ verdict_of facts },
}

/// The verdict over these facts. The last one serves where the facts are the same.
fn judge<M: Method>(method: &M, judged: &mut Option<Judged>, facts: &Facts) -> Verdict
    ensures { result ≡ verdict_of facts.now }
{
    if let Some(last) = &*judged {
        if is_same_facts(&last.facts, facts) {
            return last.verdict;
        }
    }
    let verdict = method.verdict(facts);
    *judged = Some(Judged {
        facts: *facts,
        verdict,
    });
    verdict
}

/// A channel with this kind of consumer and this method. It takes no memory.
#[derive(Drop)]
pub struct Steady<C: Consumer, M: Method> {
    method: M,
    senses: Senses<C>,
    judged: Option<Judged>,
    at: u32,
    verdict: Verdict,
    before: Verdict,
}

impl<C: SetTo, M: Method> Steady<C, M> {
    ghost use Rattle.grant_model.specs.Steadily.{StandsFor};

    /// A channel for this config that took no inputs.
    pub fn new(config: &Config, method: M) -> Steady<C, M>
        ensures { StandsFor C.stands result config.now [] }
    {
        Steady {
            method,
            senses: Senses::new(config),
            judged: None,
            at: 0,
            verdict: Verdict::initial(),
            before: Verdict::initial(),
        }
    }
}

impl<C: Consumer, M: Method> Steady<C, M> {
    ghost use Rattle.grant_model.specs.Sensed.{Sensed};
    ghost use Rattle.grant_model.specs.Steadily.{StandsFor, Tells};

    /// Judges the tick that the senses took last, of which these are the facts.
    fn judge(&mut self, facts: &Facts)
        requires { self.old.at < 2 ^ 24 }
        ensures { (config : Settings) (inputs : List InputData) (x : InputData) → Sensed C.stands self.old.senses config (inputs ++ x ∷ [])
            → facts.now ≡ facts_of config (inputs ++ x ∷ []) → Tells self.old config inputs
            → StandsFor C.stands self.new config (inputs ++ x ∷ []) }
    {
        self.before = self.verdict;
        self.verdict = judge(&self.method, &mut self.judged, facts);
        self.at += 1;
    }
}

impl<C: Consumer, M: Method> Follower for Steady<C, M> {
    ghost use Rattle.grant_model.specs.Steadily.{StandsFor};

    ghost stands = { StandsFor C.stands };

    fn taken(&self) -> u32 {
        self.at
    }

    fn take(&mut self, input: &Input) {
        let facts = self.senses.take(input);
        self.judge(&facts);
    }

    fn pass(&mut self, a: u16, b: u16) {
        let facts = self.senses.pass(a, b);
        self.judge(&facts);
    }
}

impl<C: Consumer, M: Method> Channel for Steady<C, M> {
    ghost use Rattle.grant_model.specs.Steadily.{StandsFor};

    ghost stands = { StandsFor C.stands };

    fn catch_up(&mut self, trace: &Trace, n: u32) {
        follow(self, trace, n);
    }

    fn at(&self) -> u32 {
        self.at
    }

    fn verdict(&self) -> Verdict {
        self.verdict
    }

    fn before(&self) -> Verdict {
        self.before
    }

    fn reset_rise(&self) -> bool {
        self.senses.reset_rises()
    }
}
