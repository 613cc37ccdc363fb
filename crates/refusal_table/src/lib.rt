// Document 01's refusals of a pair table, a build and a query: the one of the lowest number that applies, if any does.
#![tactic(auto)]

ghost use Rattle.std.specs.Prelude.{◌≡◌, Bool, false, List, ◌∷◌, ℕ, ◌≤◌, IfOk, length};
ghost use Rattle.model.specs.Layout.{pair_places};
ghost use Rattle.model.specs.Refusal.{board_short, first_number, table_cases, build_refusal, query_refusal};
ghost use Rattle.part_board.specs.Lent.{ref_board};
ghost use Rattle.refusal_kind.specs.Number.{number_of};
ghost use Rattle.refusal_table.specs.Cases.{head_cases};

use model::Head;
use pairs::PairTable;
use part_board::BoardRef;
use refusal_kind::Refusal;

// Whether a pair array, the stamps or the revisions are shorter than operators × rides, the index than its rows, or one of the parts of operators
// and rides than operators + rides.
pub fn short_board(board: BoardRef<'_>) -> bool
    ensures { result ≡ board_short (ref_board board.entry) }
{
    let n = board.head.operators as usize;
    let m = board.head.rides as usize;
    let places = n * m;
    board.operators.len() < places
        || board.rides.len() < places
        || board.stamps.len() < places
        || board.revisions.len() < places
        || board.index.len() < m * (n + m)
        || board.presence_stamps.len() < n + m
        || board.presence_revisions.len() < n + m
        || board.presence.len() < n + m
}

// 1 to 4 of a pair table; short tells whether a lent part is too short.
#[tactic(auto, unfolding(model::specs::Refusal::first_number))]
pub fn check_head(head: Head, short: bool) -> Result<(), Refusal>
    ensures { number_of result ≡ first_number (head_cases head short) }
{
    if 200 < head.operators {
        return Err(Refusal::TooManyOperators);
    }
    if 60 < head.rides {
        return Err(Refusal::TooManyRides);
    }
    if short {
        return Err(Refusal::TooShort);
    }
    if head.operators * head.rides < head.pairs {
        return Err(Refusal::TooManyPairs);
    }
    Ok(())
}

// 1 to 5 of a pair table, or the table; short tells whether a lent part is too short.
#[tactic(auto, using(refusal_kind::proofs::Refused::refused), unfolding(model::specs::Refusal::first_number))]
pub fn check_table<'a>(
    head: Head,
    short: bool,
    operators: &'a [u16],
    rides: &'a [u16],
) -> Result<PairTable<'a>, Refusal>
    requires { short ≡ false → (pair_places head ≤ length operators.now) × (pair_places head ≤ length rides.now) }
    ensures refused { number_of result ≡ first_number (table_cases head short operators.now rides.now) }
    ensures table { IfOk result (λ t. (t.head ≡ head) × (t.operators.now ≡ operators.now) × (t.rides.now ≡ rides.now)) }
{
    check_head(head, short)?;
    if !pairs::ascending(head, operators, rides) {
        return Err(Refusal::BadPair);
    }
    Ok(PairTable {
        head,
        operators,
        rides,
    })
}

// 1 to 5 and 9.
#[tactic(auto, unfolding(model::specs::Refusal::first_number, model::specs::Refusal::build_refusal))]
pub fn check_build(board: BoardRef<'_>, start: u32) -> Result<(), Refusal>
    ensures { number_of result ≡ build_refusal (ref_board board.entry) start }
{
    check_table(board.head, short_board(board), board.operators, board.rides)?;
    if start == 0 {
        return Err(Refusal::NoStamp);
    }
    Ok(())
}

// A number where it applies, else the one that comes after it.
#[tactic(auto, unfolding(model::specs::Refusal::first_number))]
fn first(applies: bool, number: u16, after: u16) -> u16
    ensures { (cs : List (ℕ × Bool)) → after ≡ first_number cs → result ≡ first_number ((number, applies) ∷ cs) }
{
    if applies {
        return number;
    }
    after
}

// The number that refuses a query, 1 to 3, or 0. All are tested, without a branch between them (docs/DECISIONS.md).
pub fn query_number(head: Head, index: &[u16], presence: &[u16], marks: &[u16]) -> u16
    ensures { result ≡ query_refusal head index.now presence.now marks.now }
{
    let n = head.operators as usize;
    let m = head.rides as usize;
    let short = first(
        index.len() < m * (n + m),
        3,
        first(presence.len() < n + m, 3, first(marks.len() < n + m, 3, 0)),
    );
    first(200 < head.operators, 1, first(60 < head.rides, 2, short))
}
