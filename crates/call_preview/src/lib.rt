// A preview: refused, or the message taken on a copy of the board in spare memory.
#![tactic(auto)]

ghost use Rattle.std.specs.Prelude.{◌≡◌};
ghost use Rattle.model.specs.Message.{board_preview};
ghost use Rattle.part_board.specs.Lent.{ref_board, mut_board, SameParts};
ghost use Rattle.message_taking.specs.Deliver.{outcome_of};

use model::Message;
use part_board::{BoardMut, BoardRef};
use refusal_kind::Refusal;

// Preview: refused, or how many index words differ before and after.
pub fn preview(
    board: BoardRef<'_>,
    message: Message,
    spare: &mut BoardMut<'_>,
) -> Result<u16, Refusal>
    ensures same { SameParts spare.old spare.new }
    ensures outcome { outcome_of result (mut_board spare.new) ≡ board_preview (ref_board board.entry) message (mut_board spare.old) }
{
    refusal_message::check_preview(board, message, spare.as_ref())?;
    Ok(message_on_copy::take_on_copy(board, message, spare))
}
