// A message list: refused, or its messages have their turns in order. Each message is entered, and the index is filled once.
#![tactic(auto)]

ghost use Rattle.std.specs.Prelude.{◌≡◌, ◌<◌};
ghost use Rattle.model.specs.Refusal.{list_refusal};
ghost use Rattle.model.specs.Message.{board_messages};
ghost use Rattle.model.specs.Outcome.{listed_out};
ghost use Rattle.part_board.specs.Lent.{mut_board, SameParts};
ghost use Rattle.refusal_kind.specs.Number.{number_of};
ghost use Rattle.call_message_list.specs.Once.{turned};

use model::Message;
use part_board::BoardMut;
use refusal_kind::Refusal;

// One of n messages of a list: it is entered and its number stored at its place, and after the last one the index is filled.
#[tactic(auto, using(crate::proofs::Once::turn_answers))]
pub fn turn(board: &mut BoardMut<'_>, message: Message, at: usize, n: usize, answers: &mut [u16])
    requires list { list_refusal (mut_board board.old) n answers.old ≡ 0 }
    requires turn { at < n }
    ensures same { SameParts board.old board.new }
    ensures done { listed_out 0 (mut_board board.new) answers.new ≡ turned n (mut_board board.old) message at answers.old }
{
    let entered = message_entry::enter_valid(board, message);
    answers[at] = Refusal::number_of(entered);
    message_list_end::finish(board, at, n, answers);
}

// Message list: refused, or all messages have their turn.
pub fn deliver_list(
    board: &mut BoardMut<'_>,
    messages: &[Message],
    answers: &mut [u16],
) -> Result<(), Refusal>
    ensures same { SameParts board.old board.new }
    ensures outcome { listed_out (number_of result) (mut_board board.new) answers.new
        ≡ board_messages (mut_board board.old) messages.now answers.old }
{
    refusal_message::check_list(board.as_ref(), messages.len(), answers)?;
    for (i, message) in messages.iter().enumerate() {
        turn(board, *message, i, messages.len(), answers);
    }
    Ok(())
}
