// Document 02, 2.2, See it before sending it: the call that is lent a board to read, and spare memory with a head of its own.
ghost use Rattle.std.specs.Prelude.{◌≡◌};
ghost use Rattle.model.specs.Layout.{lent};
ghost use Rattle.model.specs.Message.{board_preview};
ghost use Rattle.model.specs.Outcome.{answered};

use crate::answer_of;
use model::{Answer, Head, Message};
use part_board::{BoardMut, BoardRef};

// Preview: the answer, and in the spare memory the words, that the message would give on a copy of the board.
#[unsafe(no_mangle)]
pub extern "C" fn board_preview(
    head: Head,
    operators: &[u16],
    rides: &[u16],
    stamps: &[u32],
    revisions: &[u16],
    index: &[u16],
    presence_stamps: &[u32],
    presence_revisions: &[u16],
    presence: &[u16],
    message: Message,
    spare_head: &mut Head,
    spare_operators: &mut [u16],
    spare_rides: &mut [u16],
    spare_stamps: &mut [u32],
    spare_revisions: &mut [u16],
    spare_index: &mut [u16],
    spare_presence_stamps: &mut [u32],
    spare_presence_revisions: &mut [u16],
    spare_presence: &mut [u16],
) -> Answer
    ensures { answered result
        (lent spare_head.new spare_operators.new spare_rides.new spare_stamps.new
        spare_revisions.new spare_index.new
        spare_presence_stamps.new spare_presence_revisions.new spare_presence.new)
        ≡ board_preview (lent head operators.now rides.now stamps.now revisions.now index.now
        presence_stamps.now presence_revisions.now presence.now) message
        (lent spare_head.old spare_operators.old spare_rides.old spare_stamps.old
        spare_revisions.old spare_index.old
        spare_presence_stamps.old spare_presence_revisions.old spare_presence.old) }
{
    let board = BoardRef {
        head,
        operators,
        rides,
        stamps,
        revisions,
        index,
        presence_stamps,
        presence_revisions,
        presence,
    };
    let mut spare = BoardMut {
        head: *spare_head,
        operators: spare_operators,
        rides: spare_rides,
        stamps: spare_stamps,
        revisions: spare_revisions,
        index: spare_index,
        presence_stamps: spare_presence_stamps,
        presence_revisions: spare_presence_revisions,
        presence: spare_presence,
    };
    let previewed = call_preview::preview(board, message, &mut spare);
    *spare_head = spare.head;
    answer_of(previewed)
}
