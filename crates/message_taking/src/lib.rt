// A message that is not refused, taken: entered, and the index filled anew.
#![tactic(auto)]

ghost use Rattle.std.specs.Prelude.{◌≡◌, Ok};
ghost use Rattle.model.specs.Refusal.{message_refusal};
ghost use Rattle.model.specs.Message.{board_message};
ghost use Rattle.part_board.specs.Lent.{mut_board, SameParts};
ghost use Rattle.message_taking.specs.Deliver.{outcome_of};

use model::Message;
use part_board::BoardMut;

// Takes a message that is not refused: it is entered, and the index is filled anew. How many index words differ before and after.
pub fn take(board: &mut BoardMut<'_>, message: Message) -> u16
    requires { message_refusal (mut_board board.old) message ≡ 0 }
    ensures same { SameParts board.old board.new }
    ensures outcome { outcome_of (Ok result) (mut_board board.new) ≡ board_message (mut_board board.old) message }
{
    message_entry::enter(board, message);
    index_board::fill_board(board)
}
