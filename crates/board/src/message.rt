// Document 01, Message and Message list: the two calls that are lent the head.
ghost use Rattle.std.specs.Prelude.{◌≡◌};
ghost use Rattle.model.specs.Layout.{lent};
ghost use Rattle.model.specs.Message.{board_message, board_messages};
ghost use Rattle.model.specs.Outcome.{answered, listed_out};

use crate::answer_of;
use model::{Answer, Head, Message};
use part_board::BoardMut;
use refusal_kind::Refusal;

// Message.
#[unsafe(no_mangle)]
pub extern "C" fn board_message(
    head: &mut Head,
    operators: &mut [u16],
    rides: &mut [u16],
    stamps: &mut [u32],
    revisions: &mut [u16],
    index: &mut [u16],
    presence_stamps: &mut [u32],
    presence_revisions: &mut [u16],
    presence: &mut [u16],
    message: Message,
) -> Answer
    ensures { answered result (lent head.new operators.new rides.new stamps.new revisions.new index.new
        presence_stamps.new presence_revisions.new presence.new)
        ≡ board_message
        (lent head.old operators.old rides.old stamps.old revisions.old index.old
        presence_stamps.old presence_revisions.old presence.old)
        message }
{
    let mut board = BoardMut {
        head: *head,
        operators,
        rides,
        stamps,
        revisions,
        index,
        presence_stamps,
        presence_revisions,
        presence,
    };
    let delivered = call_message::deliver(&mut board, message);
    *head = board.head;
    answer_of(delivered)
}

// Message list: the messages have their turns in order, unless 1 to 6 refuse all of them.
#[unsafe(no_mangle)]
pub extern "C" fn board_messages(
    head: &mut Head,
    operators: &mut [u16],
    rides: &mut [u16],
    stamps: &mut [u32],
    revisions: &mut [u16],
    index: &mut [u16],
    presence_stamps: &mut [u32],
    presence_revisions: &mut [u16],
    presence: &mut [u16],
    messages: &[Message],
    answers: &mut [u16],
) -> u16
    ensures { listed_out result (lent head.new operators.new rides.new stamps.new revisions.new index.new
        presence_stamps.new presence_revisions.new presence.new)
        answers.new
        ≡ board_messages
        (lent head.old operators.old rides.old stamps.old revisions.old index.old
        presence_stamps.old presence_revisions.old presence.old)
        messages.now answers.old }
{
    let mut board = BoardMut {
        head: *head,
        operators,
        rides,
        stamps,
        revisions,
        index,
        presence_stamps,
        presence_revisions,
        presence,
    };
    let delivered = call_message_list::deliver_list(&mut board, messages, answers);
    *head = board.head;
    Refusal::number_of(delivered)
}
