// A message delivered: refused, or taken.
#![tactic(auto)]

ghost use Rattle.std.specs.Prelude.{◌≡◌};
ghost use Rattle.model.specs.Message.{board_message};
ghost use Rattle.part_board.specs.Lent.{mut_board, SameParts};
ghost use Rattle.message_taking.specs.Deliver.{outcome_of};

use model::Message;
use part_board::BoardMut;
use refusal_kind::Refusal;

// Message: refused, or how many index words differ before and after.
pub fn deliver(board: &mut BoardMut<'_>, message: Message) -> Result<u16, Refusal>
    ensures same { SameParts board.old board.new }
    ensures outcome { outcome_of result (mut_board board.new) ≡ board_message (mut_board board.old) message }
{
    refusal_message::check_message(board.as_ref(), message)?;
    Ok(message_taking::take(board, message))
}
