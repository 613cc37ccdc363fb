// A build: refused, or the pair arrays' tails, the stamps, the revisions, the presence parts and the index are filled.
#![tactic(auto)]

ghost use Rattle.std.specs.Prelude.{◌≡◌};
ghost use Rattle.model.specs.Refusal.{build_refusal};
ghost use Rattle.model.specs.Calls.{board_build};
ghost use Rattle.model.specs.Outcome.{build_left};
ghost use Rattle.part_board.specs.Lent.{mut_board, SameParts};
ghost use Rattle.refusal_kind.specs.Number.{number_of};

use pairs::PairTable;
use part_board::BoardMut;
use refusal_kind::Refusal;

// Zeroes the tails of the pair arrays and the revisions, stamps the listed pairs, sets everybody on and in and fills the index.
fn fill_parts(board: &mut BoardMut<'_>, start: u32)
    requires { build_refusal (mut_board board.old) start ≡ 0 }
    ensures same { SameParts board.old board.new }
    ensures head { board.new.head ≡ board.old.head }
    ensures outcome { build_left 0 (mut_board board.new) ≡ board_build (mut_board board.old) start }
{
    let head = board.head;
    let places = head.operators as usize * head.rides as usize;
    let table = PairTable {
        head,
        operators: &mut *board.operators,
        rides: &mut *board.rides,
    };
    let presence = &mut *board.presence;
    part_stamps::fill(table, start, board.stamps);
    arrays::fill(board.revisions, 0, places, 0);
    part_presence::set_all(
        head,
        board.presence_stamps,
        board.presence_revisions,
        presence,
    );
    index_fill::fill_index(table, presence, board.index);
    pairs_change::clear_tails(head, board.operators, board.rides);
}

// Build: refused, or all parts are filled.
pub fn build(board: &mut BoardMut<'_>, start: u32) -> Result<(), Refusal>
    ensures same { SameParts board.old board.new }
    ensures head { board.new.head ≡ board.old.head }
    ensures outcome { build_left (number_of result) (mut_board board.new) ≡ board_build (mut_board board.old) start }
{
    refusal_table::check_build(board.as_ref(), start)?;
    fill_parts(board, start);
    Ok(())
}
