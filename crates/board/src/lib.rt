// The board's calls: build, query, peel and the cover with minimums. Each answers document 01's number, and leaves the lent parts as the
// definitions say.
#![tactic(auto)]

ghost use Rattle.std.specs.Prelude.{◌≡◌};
ghost use Rattle.model.specs.Layout.{Board, lent};
ghost use Rattle.model.specs.Calls.{board_build, board_query, board_peel, board_own_cover};
ghost use Rattle.model.specs.Outcome.{queried, peel_left, build_left, answered};
ghost use Rattle.message_taking.specs.Deliver.{outcome_of};

pub mod crowd; // crowd.rt: look-up and cover for a guest count
pub mod message; // message.rt: message and message list
pub mod preview; // preview.rt: preview

use model::{Answer, Counts, Head, Peeled};
use part_board::BoardMut;
use refusal_kind::Refusal;
use refusal_peel::CoverRef;

// Zeroes the tails of the pair arrays and the revisions, stamps the listed pairs, sets everybody on and in and fills the index.
#[unsafe(no_mangle)]
pub extern "C" fn board_build(
    head: Head,
    operators: &mut [u16],
    rides: &mut [u16],
    start: u32,
    stamps: &mut [u32],
    revisions: &mut [u16],
    index: &mut [u16],
    presence_stamps: &mut [u32],
    presence_revisions: &mut [u16],
    presence: &mut [u16],
) -> u16
    ensures { build_left result (lent head operators.new rides.new stamps.new revisions.new index.new
        presence_stamps.new presence_revisions.new presence.new)
        ≡ board_build (lent head operators.old rides.old stamps.old revisions.old index.old
        presence_stamps.old presence_revisions.old presence.old) start }
{
    let mut board = BoardMut {
        head,
        operators,
        rides,
        stamps,
        revisions,
        index,
        presence_stamps,
        presence_revisions,
        presence,
    };
    Refusal::number_of(call_build::build(&mut board, start))
}

// What a message or a preview answers: 0 and how many index words differ, or the number of its refusal and 0.
fn answer_of(delivered: Result<u16, Refusal>) -> Answer
    ensures { (b : Board) → answered result b ≡ outcome_of delivered b }
{
    delivered.map_or_else(Answer::from, |differ| Answer { code: 0, differ })
}

// Marks who is present and in cover (alpha, beta) by the levels of the index, and answers the counts of operators and rides marked.
#[unsafe(no_mangle)]
pub extern "C" fn board_query(
    head: Head,
    index: &[u16],
    presence: &[u16],
    alpha: u16,
    beta: u16,
    marks: &mut [u16],
) -> Counts
    ensures { queried result marks.new ≡ board_query head index.now presence.now alpha beta marks.old }
{
    call_query::query(head, index, presence, alpha, beta, marks)
}

// Clears, one a step, the mark of the lowest-numbered operator that falls short, else ride, at most the allowed steps. A ride's limit is its own
// minimum, or beta where that is 0.
#[unsafe(no_mangle)]
pub extern "C" fn board_peel(
    head: Head,
    operators: &[u16],
    rides: &[u16],
    presence: &[u16],
    minimums: &[u16],
    marks: &mut [u16],
    alpha: u16,
    beta: u16,
    steps: u16,
) -> Peeled
    ensures { peel_left result marks.new
        ≡ board_peel head operators.now rides.now presence.now minimums.now marks.old alpha beta
        steps }
{
    call_peel::peel(
        CoverRef {
            head,
            operators,
            rides,
            presence,
            minimums,
        },
        marks,
        alpha,
        beta,
        steps,
    )
    .unwrap_or_else(Peeled::from)
}

// Marks the cover with minimums, found from all ones, and answers the counts of operators and rides marked.
#[unsafe(no_mangle)]
pub extern "C" fn board_own_cover(
    head: Head,
    operators: &[u16],
    rides: &[u16],
    presence: &[u16],
    minimums: &[u16],
    alpha: u16,
    beta: u16,
    marks: &mut [u16],
) -> Counts
    ensures { queried result marks.new
        ≡ board_own_cover head operators.now rides.now presence.now minimums.now alpha beta
        marks.old }
{
    call_own_cover::own_cover(
        CoverRef {
            head,
            operators,
            rides,
            presence,
            minimums,
        },
        alpha,
        beta,
        marks,
    )
    .unwrap_or_else(Counts::from)
}
