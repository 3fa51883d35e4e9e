// The seat of a channel, with the steps that it makes in a tick.
ghost use Rattle.std.specs.Prelude.{◌≡◌, ◌+◌, ◌<◌, None};
ghost use Rattle.round_board.specs.Tallies.{other, begun, published, looked, commanded, ended};
ghost use Rattle.round_board.specs.Moves.{publish_at, seen_at, command_at, done_at};

use crate::board::Board;
use crate::notes::{Pass, Receipt};
use crate::rule::{Begin, Command, End, GiveReceipt, Note, Place, Publish, See, TakePass};
use lift_base::Side;
use std::marker::Model;

/// The seat of one side. A contract sees its board, its side, and what the side did in its last tick.
#[derive(Drop)]
pub struct ChannelSeat {
    pub(crate) seat: Place,
    pub(crate) side: Side,
    pub(crate) tick: u32,
}

impl Model for ChannelSeat {
    ghost use Rattle.round_board.specs.Records.{SideData};
    ghost use Rattle.round_board.specs.Inside.{side_data, SeatFits};

    ghost Value = { SideData };

    ghost view = { λ s. side_data s.seat.table_id s.side s.seat.me };

    ghost invariant = { λ s. SeatFits s.side s.tick s.seat.me };
}

impl ChannelSeat {
    /// Begins the tick of the pass: loads the tick and answers it.
    pub fn begin(&mut self, board: &Board, pass: Pass) -> u32
        requires board { (self.old.board ≡ board.now) × (pass.board ≡ board.now) }
        requires ended { self.old.tally.ended ≡ self.old.tally.tick }
        requires next { (pass.side ≡ self.old.side) × (pass.tick ≡ self.old.tally.tick + 1) }
        ensures tick { result ≡ pass.tick }
        ensures begun { self.new ≡ record self.old { tally = begun self.old.tally } }
    {
        let shared = &board.table.shared;
        let Pass { seat, side: _ } = pass;
        shared.join_seat::<TakePass>(&mut self.seat, seat);
        let tick = shared.load::<Begin>(&mut self.seat, 1) as u32;
        self.tick = tick;
        tick
    }

    /// Stores the publish word.
    pub fn publish(&mut self, board: &Board, word: u64)
        requires board { self.old.board ≡ board.now }
        requires begun { self.old.tally.ended < self.old.tally.tick }
        requires once { self.old.tally.publish ≡ None }
        ensures published { self.new ≡ record self.old { tally = published word self.old.tally } }
    {
        let index = publish_index(self.side);
        board
            .table
            .shared
            .store::<Publish>(&mut self.seat, index, word);
    }

    /// Loads the peer's publish word, stores it as seen, and answers it.
    pub fn look(&mut self, board: &Board) -> u64
        requires board { self.old.board ≡ board.now }
        requires begun { self.old.tally.ended < self.old.tally.tick }
        requires once { self.old.tally.seen ≡ None }
        ensures looked { self.new ≡ record self.old { tally = looked result self.old.tally } }
    {
        let peer = publish_index(peer(self.side));
        let word = board.table.shared.load::<See>(&mut self.seat, peer);
        let own = seen_index(self.side);
        board.table.shared.store::<Note>(&mut self.seat, own, word);
        word
    }

    /// Stores the command word.
    pub fn command(&mut self, board: &Board, word: u64)
        requires board { self.old.board ≡ board.now }
        requires begun { self.old.tally.ended < self.old.tally.tick }
        requires once { self.old.tally.command ≡ None }
        ensures commanded { self.new ≡ record self.old { tally = commanded word self.old.tally } }
    {
        let index = command_index(self.side);
        board
            .table
            .shared
            .store::<Command>(&mut self.seat, index, word);
    }

    /// Ends the tick, and answers the receipt of what was done in it.
    pub fn end(&mut self, board: &Board) -> Receipt
        requires board { self.old.board ≡ board.now }
        requires begun { self.old.tally.ended < self.old.tally.tick }
        ensures ended { self.new ≡ record self.old { tally = ended self.old.tally } }
        ensures receipt { result ≡ self.new }
    {
        let index = done_index(self.side);
        let tick = u64::from(self.tick);
        board.table.shared.store::<End>(&mut self.seat, index, tick);
        let seat = board.table.shared.split_seat::<GiveReceipt>(&mut self.seat);
        Receipt {
            seat,
            side: self.side,
        }
    }
}

fn peer(side: Side) -> Side
    ensures { result ≡ other side }
{
    match side {
        Side::A => Side::B,
        Side::B => Side::A,
    }
}

fn publish_index(side: Side) -> usize
    ensures { (result ≡ publish_at side) × (result < 10) }
{
    match side {
        Side::A => 2,
        Side::B => 6,
    }
}

fn seen_index(side: Side) -> usize
    ensures { (result ≡ seen_at side) × (result < 10) }
{
    match side {
        Side::A => 3,
        Side::B => 7,
    }
}

fn command_index(side: Side) -> usize
    ensures { (result ≡ command_at side) × (result < 10) }
{
    match side {
        Side::A => 4,
        Side::B => 8,
    }
}

fn done_index(side: Side) -> usize
    ensures { (result ≡ done_at side) × (result < 10) }
{
    match side {
        Side::A => 5,
        Side::B => 9,
    }
}
