// The refusals of documents 01 and 02 of a message, a preview and a message list: the first number that applies, if any does.
#![tactic(auto)]

ghost use Rattle.std.specs.Prelude.{◌≡◌, false, ◌||◌, List, ℕ, ◌≤◌, length};
ghost use Rattle.model.specs.Layout.{lent, pair_places, of_parts};
ghost use Rattle.model.specs.Refusal.{refused_3, refused_10, board_short, first_number, board_cases, valid_cases, message_cases};
ghost use Rattle.model.specs.Refusal.{message_refusal, preview_refusal, list_refusal};
ghost use Rattle.part_board.specs.Lent.{ref_board};
ghost use Rattle.refusal_kind.specs.Number.{number_of};
ghost use Rattle.refusal_message.specs.Ready.{Ready};

use message_order::Slot;
use model::Message;
use pairs::PairTable;
use part_board::BoardRef;
use refusal_kind::Refusal;
use refusal_table::{check_table, short_board};

// 1 to 6 of a board; short tells whether a lent part is too short.
fn check_board(board: BoardRef<'_>, short: bool) -> Result<(), Refusal>
    requires { short ≡ false → (pair_places board.head ≤ length board.operators.now) × (pair_places board.head ≤ length board.rides.now) ×
        (pair_places board.head ≤ length board.stamps.now) }
    ensures { number_of result ≡ first_number (board_cases (ref_board board.entry) short) }
{
    let table = check_table(board.head, short, board.operators, board.rides)?;
    if part_stamps::missing(table, board.stamps) {
        return Err(Refusal::NoStampOfPair);
    }
    Ok(())
}

// Whether 10 applies to a valid message, on a board to which 1 to 6 do not apply. It is put into the calls, as `check_message_on` is, so that a list makes
// no `BoardRef` for each message. As a function of its own that one would keep words below the stack pointer, which the gate refuses.
#[inline(always)]
pub fn not_later(board: BoardRef<'_>, message: Message) -> bool
    requires ready { Ready (ref_board board) }
    requires valid { first_number (valid_cases board.head message) ≡ 0 }
    ensures { (index : List ℕ) → result ≡ refused_10
        (lent board.entry.head board.entry.operators.now board.entry.rides.now board.entry.stamps.now board.entry.revisions.now index
        board.entry.presence_stamps.now board.entry.presence_revisions.now board.entry.presence.now) message }
{
    match Slot::from(message) {
        Slot::Pair { .. } => {
            let table = PairTable {
                head: board.head,
                operators: board.operators,
                rides: board.rides,
            };
            part_stamps::not_later(table, message, board.stamps, board.revisions)
        }
        _ => part_presence::not_later(board, message),
    }
}

// 7 to 9, 14, 15 and 10 of a message, on a board to which 1 to 6 do not apply.
#[inline(always)]
pub fn check_message_on(board: BoardRef<'_>, message: Message) -> Result<(), Refusal>
    requires { Ready (ref_board board) }
    ensures { number_of result ≡ first_number (message_cases (ref_board board.entry) message) }
{
    message_validity::check_valid(board.head, message)?;
    if not_later(board, message) {
        return Err(Refusal::NotLater);
    }
    Ok(())
}

// 1 to 9, 14, 15 and 10 of a message.
pub fn check_message(board: BoardRef<'_>, message: Message) -> Result<(), Refusal>
    ensures { number_of result ≡ message_refusal (ref_board board.entry) message }
{
    check_board(board, short_board(board))?;
    check_message_on(board, message)
}

// Whether a part of a board, or one of the spare memory for it, is too short.
fn short_preview(board: BoardRef<'_>, spare: BoardRef<'_>) -> bool
    ensures { result
        ≡ (board_short (ref_board board.entry) || board_short (of_parts board.entry.head (ref_board spare.entry).part)) }
{
    let spare_board = BoardRef {
        head: board.head,
        ..spare
    };
    short_board(board) || short_board(spare_board)
}

// 1 to 9, 14, 15 and 10 of a preview.
pub fn check_preview(
    board: BoardRef<'_>,
    message: Message,
    spare: BoardRef<'_>,
) -> Result<(), Refusal>
    ensures { number_of result ≡ preview_refusal (ref_board board.entry) message (ref_board spare.entry).part }
{
    check_board(board, short_preview(board, spare))?;
    check_message_on(board, message)
}

// 1 to 6 of a message list.
pub fn check_list(board: BoardRef<'_>, messages: usize, answers: &[u16]) -> Result<(), Refusal>
    ensures { number_of result ≡ list_refusal (ref_board board.entry) messages answers.now }
{
    check_board(board, short_board(board) || answers.len() < messages)
}
