// A query: refused, or the marks and counts of one row of the index.
#![tactic(auto)]

ghost use Rattle.std.specs.Prelude.{◌≡◌};
ghost use Rattle.model.specs.Calls.{board_query};
ghost use Rattle.model.specs.Outcome.{queried};

use model::{Counts, Head};

// Marks who is present and in cover (alpha, beta) by the index, and answers the counts of operators and rides marked. Without such a row the levels are 0.
pub fn query(
    head: Head,
    index: &[u16],
    presence: &[u16],
    alpha: u16,
    beta: u16,
    marks: &mut [u16],
) -> Counts
    ensures { queried result marks.new ≡ board_query head index.now presence.now alpha beta marks.old }
{
    let number = refusal_table::query_number(head, index, presence, marks);
    if number != 0 {
        return Counts {
            code: number,
            operators: 0,
            rides: 0,
        };
    }
    let n = head.operators as usize;
    let w = n + head.rides as usize;
    let row = index_members::row(alpha);
    let operator_least = index_members::least(alpha, beta);
    let ride_least = index_members::least(beta, beta);
    if head.rides < row {
        return query_marks::mark_zeros(
            head.operators,
            head.rides,
            presence,
            operator_least,
            ride_least,
            marks,
        );
    }
    let at = (row as usize - 1) * w;
    query_marks::mark_row(
        &index[at..at + w],
        n,
        presence,
        operator_least,
        ride_least,
        marks,
    )
}
