// The end of a message list: after its last turn the index is filled, if a message was taken.
#![tactic(auto)]

ghost use Rattle.std.specs.Prelude.{◌≡◌, ◌<◌, ◌≤◌, length};
ghost use Rattle.model.specs.Count.{some};
ghost use Rattle.model.specs.Layout.{board_graph};
ghost use Rattle.part_board.specs.Lent.{mut_board, SameParts};
ghost use Rattle.index_board.specs.Filled.{Fillable};
ghost use Rattle.message_entry.specs.Enter.{with_index};
ghost use Rattle.message_list_end.specs.Ending.{taken_at, filled_index, index_turned};

use part_board::BoardMut;

// Whether one of these numbers is 0.
fn any_taken(numbers: &[u16]) -> bool
    ensures { result ≡ some (length numbers.now) (taken_at numbers.now) }
{
    numbers.contains(&0)
}

// Fills the index, if one of these numbers is 0.
fn fill_taken(board: &mut BoardMut<'_>, numbers: &[u16])
    requires { Fillable (mut_board board.old) }
    ensures same { SameParts board.old board.new }
    ensures done { mut_board board.new ≡ with_index (mut_board board.old)
        (filled_index (length numbers.now) (board_graph (mut_board board.old)) board.old.index.now numbers.now) }
{
    if any_taken(numbers) {
        index_board::fill_board(board);
    }
}

// Fills the index after the last of n turns, if one of their numbers is 0.
pub fn finish(board: &mut BoardMut<'_>, at: usize, n: usize, numbers: &[u16])
    requires index { Fillable (mut_board board.old) }
    requires turn { at < n }
    requires numbers { n ≤ length numbers.now }
    ensures same { SameParts board.old board.new }
    ensures done { mut_board board.new ≡ with_index (mut_board board.old)
        (index_turned at n (board_graph (mut_board board.old)) board.old.index.now numbers.now) }
{
    if at + 1 == n {
        fill_taken(board, &numbers[..n]);
    }
}
