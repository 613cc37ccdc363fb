// A message taken on a copy of the board.
#![tactic(auto)]

ghost use Rattle.std.specs.Prelude.{◌≡◌, Ok};
ghost use Rattle.model.specs.Layout.{copied};
ghost use Rattle.model.specs.Refusal.{preview_refusal};
ghost use Rattle.model.specs.Message.{board_message};
ghost use Rattle.part_board.specs.Lent.{ref_board, mut_board, SameParts};
ghost use Rattle.message_taking.specs.Deliver.{outcome_of};

use model::Message;
use part_board::{BoardMut, BoardRef};

// Copies the board to the spare memory, and takes the message there. How many index words differ before and after.
pub fn take_on_copy(board: BoardRef<'_>, message: Message, spare: &mut BoardMut<'_>) -> u16
    requires { preview_refusal (ref_board board) message (mut_board spare.old).part ≡ 0 }
    ensures same { SameParts spare.old spare.new }
    ensures outcome { outcome_of (Ok result) (mut_board spare.new)
        ≡ board_message (copied (ref_board board.entry) (mut_board spare.old).part) message }
{
    part_copy::copy_board(board, spare);
    message_taking::take(spare, message)
}
