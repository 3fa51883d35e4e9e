// Many rounds with each seat on a thread of its own, and which values may go to a thread.
ghost use Rattle.std.specs.Prelude.{◌≡◌, ◌+◌, ◌<◌, ◌^◌, false, IsSome, IfSome};
ghost use Rattle.lift_base.specs.declared.Side.TheVariants.{A, B};

use channel_masks::MaskChannel;
use channel_walker::WalkerChannel;
use contactor_pair::Contactor;
use lift_io::NoMemory;
use lift_run::Turn;
use lift_trace::{SideFaults, Trace};
use replay_engine::Half;
use round_board::{Board, ChannelSeat, Collected, Conductor, Opened, Pass, Receipt};
use std::alloc::Global;
use std::thread::{Threads, join_mut};

// A value of the type may be moved to a thread.
fn may_be_moved<T: Send>() {}

// A value of the type may be lent to two threads, too.
fn may_be_lent<T: Send + Sync>() {}

#[test]
fn values_that_go_to_a_thread() {
    may_be_lent::<Board>();
    may_be_lent::<Trace>();
    may_be_lent::<SideFaults>();
    may_be_lent::<MaskChannel>();
    may_be_lent::<WalkerChannel>();
    may_be_moved::<ChannelSeat>();
    may_be_moved::<Pass>();
    may_be_moved::<Receipt>();
    may_be_moved::<Conductor>();
    may_be_moved::<Contactor>();
    may_be_moved::<Half<MaskChannel>>();
    may_be_moved::<Half<WalkerChannel>>();
    may_be_moved::<Turn>();
}

const ROUNDS: u32 = 1000;

#[test]
fn one_saw_the_word_of_the_round(rt: HostRuntime) {
    let mut party = Party::open(rt.alloc()).expect(&rt, "memory");
    let mut rounds = 0;
    for word in 1..1001 {
        if party.conductor.tick() < ROUNDS {
            let left = party.round(&rt, word);
            let stored = left.a.publish == word && left.b.publish == word;
            if stored && (left.a.seen == word || left.b.seen == word) {
                rounds = party.conductor.tick();
            }
        }
    }
    assert!(rt; rounds == ROUNDS);
}

#[derive(Drop)]
struct Party {
    board: Board,
    a: ChannelSeat,
    b: ChannelSeat,
    conductor: Conductor,
    ghost one: { (a.board ≡ board) × (b.board ≡ board) × (conductor.board ≡ board) },
    ghost sides: { (a.side ≡ A) × (b.side ≡ B) },
    ghost closed: { conductor.open_ ≡ false },
    ghost rest_a: { (a.tally.tick ≡ conductor.tick) × (a.tally.ended ≡ conductor.tick) },
    ghost rest_b: { (b.tally.tick ≡ conductor.tick) × (b.tally.ended ≡ conductor.tick) },
}

impl Party {
    fn open(alloc: Global) -> Result<Party, NoMemory> {
        let Opened {
            board,
            a,
            b,
            conductor,
        } = Board::open(alloc)?;
        Ok(Party {
            board,
            a,
            b,
            conductor,
        })
    }

    // Each side publishes the word and looks, on a thread of its own.
    fn round<R: Threads>(&mut self, rt: &R, word: u64) -> Collected
        requires { self.old.conductor.tick + 1 < 2 ^ 24 }
    {
        let board = &self.board;
        let a = &mut self.a;
        let b = &mut self.b;
        let (pass_a, pass_b) = self.conductor.advance(board);
        let mut pass_a = Some(pass_a);
        let mut pass_b = Some(pass_b);
        let (of_a, of_b) = join_mut(
            rt,
            &mut || -> Receipt
                requires some { IsSome pass_a }
                requires ready { IfSome pass_a (λ p. (a.now.board ≡ board.now) × (p.board ≡ board.now) × (p.side ≡ a.now.side)
                    × (p.tick ≡ a.now.tally.tick + 1) × (a.now.tally.ended ≡ a.now.tally.tick)) }
            { take_turn(a, board, &mut pass_a, word) },
            &mut || -> Receipt
                requires some { IsSome pass_b }
                requires ready { IfSome pass_b (λ p. (b.now.board ≡ board.now) × (p.board ≡ board.now) × (p.side ≡ b.now.side)
                    × (p.tick ≡ b.now.tally.tick + 1) × (b.now.tally.ended ≡ b.now.tally.tick)) }
            { take_turn(b, board, &mut pass_b, word) },
        );
        self.conductor.collect(board, of_a, of_b)
    }
}

// Publishes the word, and looks.
fn take_turn(seat: &mut ChannelSeat, board: &Board, pass: &mut Option<Pass>, word: u64) -> Receipt
    requires some { IsSome pass.old }
    requires ready { IfSome pass.old (λ p. (seat.old.board ≡ board.now) × (p.board ≡ board.now) × (p.side ≡ seat.old.side)
        × (p.tick ≡ seat.old.tally.tick + 1) × (seat.old.tally.ended ≡ seat.old.tally.tick)) }
    ensures receipt { result ≡ seat.new }
    ensures seat { (seat.new.board ≡ seat.old.board) × (seat.new.side ≡ seat.old.side) × (seat.new.tally.tick ≡ seat.old.tally.tick + 1)
        × (seat.new.tally.ended ≡ seat.new.tally.tick) }
{
    match pass.take() {
        Some(pass) => {
            seat.begin(board, pass);
            seat.publish(board, word);
            seat.look(board);
            seat.end(board)
        }
        None => unreachable!(),
    }
}

// tools/bench counts what a start costs.
#[test]
fn a_thousand_starts_of_two_threads(rt: HostRuntime) {
    for _ in 0..ROUNDS {
        join_mut(&rt, &mut || {}, &mut || {});
    }
}
