// The seat of the conductor, which raises the tick and gathers the words.
ghost use Rattle.std.specs.Prelude.{◌≡◌, ◌+◌, ◌<◌, ◌^◌, true, false};
ghost use Rattle.lift_base.specs.declared.Side.TheVariants.{A, B};
ghost use Rattle.round_board.specs.Tallies.{words_after};
ghost use Rattle.round_board.specs.Collecting.{SawPeer, OneSaw};

use crate::board::Board;
use crate::notes::{Pass, Receipt};
use crate::rule::{GivePass, Place, Raise, Read, TakeReceipt};
use crate::words::{Collected, SideWords};
use lift_base::Side;
use std::marker::Model;

/// The one that raises the tick.
/// A contract sees its board, the tick that it last raised, whether that round is open, and the words that it last collected.
#[derive(Drop)]
pub struct Conductor {
    pub(crate) seat: Place,
    pub(crate) tick: u32,
    pub(crate) words: Collected,
}

impl Model for Conductor {
    ghost use Rattle.round_board.specs.Records.{ConductorData};
    ghost use Rattle.round_board.specs.Inside.{conductor_data, ConductorFits};

    ghost Value = { ConductorData };

    ghost view = { λ c. conductor_data c.seat.table_id c.tick c.words c.seat.me };

    ghost invariant = { λ c. ConductorFits c.tick c.words c.seat.me };
}

impl Conductor {
    /// The tick that it last raised, 0 before the first.
    pub fn tick(&self) -> u32
        ensures { result ≡ self.now.tick }
    {
        self.tick
    }

    /// What its last `collect` gave, with all words 0 before the first.
    pub fn words(&self) -> Collected
        ensures { result ≡ self.now.words }
    {
        self.words
    }

    /// Raises the tick by one and opens its round. Answers the passes of A and of B.
    pub fn advance(&mut self, board: &Board) -> (Pass, Pass)
        requires board { self.old.board ≡ board.now }
        requires closed { self.old.open_ ≡ false }
        requires room { self.old.tick + 1 < 2 ^ 24 }
        ensures raised { self.new ≡ record self.old { tick = self.old.tick + 1; open_ = true } }
        ensures a { result.0 ≡ record { board = board.now; side = A; tick = self.old.tick + 1 } }
        ensures b { result.1 ≡ record { board = board.now; side = B; tick = self.old.tick + 1 } }
    {
        let shared = &board.table.shared;
        let tick = self.tick + 1;
        shared.store::<Raise>(&mut self.seat, 1, u64::from(tick));
        self.tick = tick;
        let a = shared.split_seat::<GivePass<true>>(&mut self.seat);
        let b = shared.split_seat::<GivePass<false>>(&mut self.seat);
        (
            Pass {
                seat: a,
                side: Side::A,
            },
            Pass {
                seat: b,
                side: Side::B,
            },
        )
    }

    /// Takes the receipts of both sides, which closes the round, and answers the words as the two sides left them.
    pub fn collect(&mut self, board: &Board, a: Receipt, b: Receipt) -> Collected
        requires board { (self.old.board ≡ board.now) × (a.board ≡ board.now) × (b.board ≡ board.now) }
        requires open_ { self.old.open_ ≡ true }
        requires a { (a.side ≡ A) × (a.tally.tick ≡ self.old.tick) }
        requires b { (b.side ≡ B) × (b.tally.tick ≡ self.old.tick) }
        ensures closed { self.new ≡ record self.old { open_ = false; words = result } }
        ensures words { result ≡ record { a = words_after a.tally self.old.words.a; b = words_after b.tally self.old.words.b } }
        ensures saw { SawPeer a.tally self.old.words.b result.b × SawPeer b.tally self.old.words.a result.a }
        ensures one_saw { OneSaw a.tally b.tally result }
    {
        let shared = &board.table.shared;
        let Receipt { seat: a, side: _ } = a;
        let Receipt { seat: b, side: _ } = b;
        shared.join_seat::<TakeReceipt>(&mut self.seat, a);
        shared.join_seat::<TakeReceipt>(&mut self.seat, b);
        let words = Collected {
            a: SideWords {
                publish: shared.load::<Read>(&mut self.seat, 2),
                seen: shared.load::<Read>(&mut self.seat, 3),
                command: shared.load::<Read>(&mut self.seat, 4),
            },
            b: SideWords {
                publish: shared.load::<Read>(&mut self.seat, 6),
                seen: shared.load::<Read>(&mut self.seat, 7),
                command: shared.load::<Read>(&mut self.seat, 8),
            },
        };
        self.words = words;
        words
    }
}
