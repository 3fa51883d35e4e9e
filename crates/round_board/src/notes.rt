// What the conductor and a seat tell each other. Neither has bytes of the words that it names.

use crate::rule::Place;
use lift_base::Side;
use std::marker::Model;

/// Tells the seat of a side the tick. A contract sees its board, its side and its tick.
#[derive(Drop)]
pub struct Pass {
    pub(crate) seat: Place,
    pub(crate) side: Side,
}

impl Model for Pass {
    ghost use Rattle.round_board.specs.Records.{PassData};
    ghost use Rattle.round_board.specs.Inside.{pass_data, PassFits};

    ghost Value = { PassData };

    ghost view = { λ p. pass_data p.seat.table_id p.side p.seat.me };

    ghost invariant = { λ p. PassFits p.side p.seat.me };
}

/// Tells the conductor that a side has ended its tick. A contract sees its board, its side, and what the side did in the tick.
#[derive(Drop)]
pub struct Receipt {
    pub(crate) seat: Place,
    pub(crate) side: Side,
}

impl Model for Receipt {
    ghost use Rattle.round_board.specs.Records.{SideData};
    ghost use Rattle.round_board.specs.Inside.{side_data, ReceiptFits};

    ghost Value = { SideData };

    ghost view = { λ r. side_data r.seat.table_id r.side r.seat.me };

    ghost invariant = { λ r. ReceiptFits r.side r.seat.me };
}
