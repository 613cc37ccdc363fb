// The index of a board, filled anew.
#![tactic(auto)]

ghost use Rattle.std.specs.Prelude.{◌≡◌};
ghost use Rattle.model.specs.Graph.{index_of};
ghost use Rattle.model.specs.Layout.{index_places, board_graph, differing};
ghost use Rattle.part_board.specs.Lent.{mut_board, SameParts};
ghost use Rattle.index_board.specs.Filled.{Fillable, filled_board};

use pairs::PairTable;
use part_board::BoardMut;

// Fills the index of a board; the number of words that differ before and after.
pub fn fill_board(board: &mut BoardMut<'_>) -> u16
    requires { Fillable (mut_board board.old) }
    ensures same { SameParts board.old board.new }
    ensures done { mut_board board.new ≡ filled_board (mut_board board.old) }
    ensures differ { result ≡ differing (index_places board.old.head) board.old.index.now (index_of (board_graph (mut_board board.old))) }
{
    let table = PairTable {
        head: board.head,
        operators: &mut *board.operators,
        rides: &mut *board.rides,
    };
    let presence = &mut *board.presence;
    index_fill::fill_index(table, presence, board.index)
}
