// The producer of one source: a pair of frames in each cycle, the inverted frame one tick after the plain one (own).
ghost use Rattle.std.specs.Prelude.{◌≡◌, ◌<◌, ◌≤◌, ◌^◌, ◌&&◌, ◌==◌, ◌-◌, ◌%◌, nat_le};
ghost use Rattle.lift_base.specs.declared.TheConstants.{SOURCES};
ghost use Rattle.lift_base.specs.declared.limits.TheConstants.{LONGEST_SPAN};
ghost use Rattle.node_sim.specs.declared.cycles.TheConstants.{SHORTEST_CYCLE};
ghost use Rattle.node_sim.specs.Produced.{is_due, plain_frame, inverted_frame};
ghost use Rattle.node_sim.specs.Producing.{IsIdentifier, next_frame, one_on};

use can_frame::Frame;
use std::marker::Model;

/// Makes frames of the true words of one source, tick by tick.
#[derive(Clone, Copy, Debug)]
pub struct Producer {
    source: u8,
    plain: u16,
    cycle: u32,
    /// How many ticks it has taken.
    ticks: u32,
    /// The true word of the last of them, 0 before the first.
    before: u16,
}

impl Model for Producer {
    ghost use Rattle.node_sim.specs.Producing.{ProducerData, IsProducer};

    ghost Value = { ProducerData };

    ghost view = { λ p. record { source = p.source; plain = p.plain; cycle = p.cycle; ticks = p.ticks; before = p.before } };

    ghost inverse = { λ p. record { source = p.source; plain = p.plain; cycle = p.cycle; ticks = p.ticks; before = p.before } };

    ghost invariant = { λ p. IsProducer p.source p.plain p.cycle p.ticks };
}

/// Whether the plain frame of the source with number `source` is due at tick `n`.
fn is_due(cycle: u32, source: u8, n: u32) -> bool
    requires { 0 < cycle }
    ensures { result ≡ is_due cycle source n }
{
    let first = u32::from(source);
    first <= n && (n - first) % cycle == 0
}

fn plain_frame(plain: u16, word: u16) -> Frame
    requires { IsIdentifier plain }
    ensures { result ≡ plain_frame plain word }
{
    Frame::of_pair(plain, (word % 256) as u8, (word / 256) as u8)
}

fn inverted_frame(plain: u16, word: u16) -> Frame
    requires { IsIdentifier plain }
    ensures { result ≡ inverted_frame plain word }
{
    Frame::of_pair(
        plain + 1,
        255 - (word % 256) as u8,
        255 - (word / 256) as u8,
    )
}

impl Producer {
    /// A producer before tick 1, of the source with number `source` (1 to 6) and this plain identifier, with a cycle in ticks.
    pub fn new(source: u8, plain: u16, cycle: u32) -> Producer
        requires first { 1 ≤ source }
        requires last { source ≤ SOURCES }
        requires plain { IsIdentifier plain }
        requires least { SHORTEST_CYCLE ≤ cycle }
        requires most { cycle ≤ LONGEST_SPAN }
        ensures { result ≡ record { source = source; plain = plain; cycle = cycle; ticks = 0; before = 0 } }
    {
        Producer {
            source,
            plain,
            cycle,
            ticks: 0,
            before: 0,
        }
    }

    /// The frame of its next tick, whose true word is `truth`. None: exactly where no frame is due in that tick.
    pub fn tick(&mut self, truth: u16) -> Option<Frame>
        requires { self.old.ticks < 2 ^ 24 }
        ensures frame { result ≡ next_frame self.old truth }
        ensures more { self.new ≡ one_on self.old truth }
    {
        let tick = self.ticks + 1;
        let before = self.before;
        self.ticks = tick;
        self.before = truth;
        if is_due(self.cycle, self.source, tick) {
            Some(plain_frame(self.plain, truth))
        } else if is_due(self.cycle, self.source, tick - 1) {
            Some(inverted_frame(self.plain, before))
        } else {
            None
        }
    }
}
