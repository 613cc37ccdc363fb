// A board copied to spare memory.
#![tactic(auto)]

ghost use Rattle.std.specs.Prelude.{◌≡◌, false};
ghost use Rattle.model.specs.Layout.{of_parts, copied};
ghost use Rattle.model.specs.Refusal.{board_short};
ghost use Rattle.part_board.specs.Lent.{ref_board, mut_board, SameParts};

use part_board::{BoardMut, BoardRef};

// Copies a board's exact words to spare memory: its head, and of each part the places under Layout. What lies behind them stays.
pub fn copy_board(board: BoardRef<'_>, spare: &mut BoardMut<'_>)
    requires long { board_short (ref_board board) ≡ false }
    requires room { board_short (of_parts board.head (mut_board spare.old).part) ≡ false }
    ensures same { SameParts spare.old spare.new }
    ensures copy { mut_board spare.new ≡ copied (ref_board board.entry) (mut_board spare.old).part }
{
    let n = board.head.operators as usize;
    let m = board.head.rides as usize;
    let places = n * m;
    let nodes = n + m;
    arrays::copy(board.operators, spare.operators, places);
    arrays::copy(board.rides, spare.rides, places);
    arrays::copy(board.stamps, spare.stamps, places);
    arrays::copy(board.revisions, spare.revisions, places);
    arrays::copy(board.index, spare.index, m * nodes);
    arrays::copy(board.presence_stamps, spare.presence_stamps, nodes);
    arrays::copy(board.presence_revisions, spare.presence_revisions, nodes);
    arrays::copy(board.presence, spare.presence, nodes);
    spare.head = board.head;
}
