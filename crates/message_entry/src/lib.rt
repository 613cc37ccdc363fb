// A message entered: its numbers from 7 on, its stamp and revision, its pair or word, and the number of pairs. No word of the index is read or written.
#![tactic(auto)]

ghost use Rattle.std.specs.Prelude.{◌≡◌, List, ℕ, ◌≤◌};
ghost use Rattle.model.specs.Refusal.{first_number, message_cases};
ghost use Rattle.part_board.specs.Lent.{mut_board, SameParts};
ghost use Rattle.refusal_kind.specs.Number.{number_of};
ghost use Rattle.refusal_message.specs.Room.{Room};
ghost use Rattle.message_entry.specs.Enter.{Enters, with_index, entered, entered_valid};

use message_order::Slot;
use model::Message;
use part_board::BoardMut;
use refusal_kind::Refusal;

// Enters a message for a pair: its stamp and revision are set, and the pair is listed or not.
fn enter_pair(board: &mut BoardMut<'_>, message: Message)
    requires ready { Enters (mut_board board.old) message }
    requires pair { message.kind ≤ 2 }
    ensures same { SameParts board.old board.new }
    ensures done { mut_board board.new ≡ entered (mut_board board.old) message }
{
    part_stamps::store(board.head, message, board.stamps, board.revisions);
    board.head.pairs = pairs_change::change(
        board.head,
        message.operator,
        message.ride,
        message_order::gives(message.kind),
        board.operators,
        board.rides,
    );
}

// Enters a message that is not refused: its stamp and revision are set, and its pair is listed or not, or its word is 1 or 0.
pub fn enter(board: &mut BoardMut<'_>, message: Message)
    requires { Enters (mut_board board.old) message }
    ensures same { SameParts board.old board.new }
    ensures done { mut_board board.new ≡ entered (mut_board board.old) message }
    ensures any_index { (index : List ℕ) → with_index (mut_board board.new) index ≡ entered (with_index (mut_board board.old) index) message }
{
    match Slot::from(message) {
        Slot::Pair { .. } => enter_pair(board, message),
        _ => {
            part_presence::store(
                board.head,
                message,
                board.presence_stamps,
                board.presence_revisions,
                board.presence,
            );
            pairs_change::clear_tails(board.head, board.operators, board.rides);
        }
    }
}

// Enters a message, if none of 7 to 10, 14 and 15 applies to it.
pub fn enter_valid(board: &mut BoardMut<'_>, message: Message) -> Result<(), Refusal>
    requires { Room (mut_board board.old) }
    ensures same { SameParts board.old board.new }
    ensures number { number_of result ≡ first_number (message_cases (mut_board board.old) message) }
    ensures done { mut_board board.new ≡ entered_valid (mut_board board.old) message }
    ensures any_index { (index : List ℕ) →
        (number_of result ≡ first_number (message_cases (with_index (mut_board board.old) index) message)) ×
        (with_index (mut_board board.new) index ≡ entered_valid (with_index (mut_board board.old) index) message) }
{
    refusal_message::check_message_on(board.as_ref(), message)?;
    enter(board, message);
    Ok(())
}
