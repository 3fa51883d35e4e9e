// The words of the board, and its first seats.
ghost use Rattle.std.specs.Prelude.{◌≡◌, false, IfOk};
ghost use Rattle.lift_base.specs.declared.Side.TheVariants.{A, B};
ghost use Rattle.round_board.specs.Tallies.{idle, no_words};

use crate::conductor::Conductor;
use crate::rule::{Make, Words};
use crate::seats::ChannelSeat;
use crate::words::{Collected, SideWords};
use atomic_table::Table;
use lift_base::Side;
use lift_io::NoMemory;
use std::alloc::Global;
use std::marker::Model;

/// The shared words. A contract sees which board it is: all that came from one `open` name the same.
#[derive(Drop)]
pub struct Board {
    pub(crate) table: Words,
}

impl Model for Board {
    ghost use Rattle.std.specs.Prelude.{◌≡◌};
    ghost use Rattle.round_board.specs.Records.{BoardId};

    ghost Value = { BoardId };

    ghost view = { λ b. b.table.shared.table_id };

    ghost invariant = { λ b. b.table.shared.table_id.words ≡ 10 };
}

/// A board with all that sit at it.
#[derive(Drop)]
pub struct Opened {
    pub board: Board,
    /// The seat of side A.
    pub a: ChannelSeat,
    /// The seat of side B.
    pub b: ChannelSeat,
    pub conductor: Conductor,
}

impl Board {
    /// Opens a board on which all words are 0 and no tick was raised.
    pub fn open(alloc: Global) -> Result<Opened, NoMemory>
        ensures a { IfOk result (λ o. o.a ≡ record { board = o.board; side = A; tally = idle }) }
        ensures b { IfOk result (λ o. o.b ≡ record { board = o.board; side = B; tally = idle }) }
        ensures conductor { IfOk result (λ o. o.conductor ≡ record {
          board = o.board;
          tick = 0;
          open_ = false;
          words = record { a = no_words; b = no_words };
        }) }
    {
        let Ok((table, mut seat)) = Table::of_words(alloc, &[0; 10], &()) else {
            return Err(NoMemory);
        };
        let a = table.shared.split_seat::<Make<true>>(&mut seat);
        let b = table.shared.split_seat::<Make<false>>(&mut seat);
        let none = SideWords {
            publish: 0,
            seen: 0,
            command: 0,
        };
        Ok(Opened {
            board: Board { table },
            a: ChannelSeat {
                seat: a,
                side: Side::A,
                tick: 0,
            },
            b: ChannelSeat {
                seat: b,
                side: Side::B,
                tick: 0,
            },
            conductor: Conductor {
                seat,
                tick: 0,
                words: Collected { a: none, b: none },
            },
        })
    }
}
