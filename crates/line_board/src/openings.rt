// How the board stood when its history began.

use crate::board::Board;
use std::marker::Brand;
use vm_types::Openings;

// The call that begins the history says how it stood.
impl Openings<Board> for Brand {
    ghost use Rattle.board_table.specs.Board.{new_board};

    ghost opening = { λ _. new_board 0 };
}
