// Document 01's refusals of a peel, and of a cover found by one: the one of the lowest number that applies, if any does.
#![tactic(auto)]

ghost use Rattle.std.specs.Prelude.{◌≡◌, ◌≤◌, IfOk, length};
ghost use Rattle.model.specs.Layout.{mark_places};
ghost use Rattle.model.specs.Refusal.{refused_12, first_number, peel_short, peel_cases, peel_refusal};
ghost use Rattle.refusal_kind.specs.Number.{number_of};

use model::Head;
use pairs::PairTable;
use refusal_kind::Refusal;
use refusal_table::check_table;

// What a peel, or a cover found by one, is lent to read: the pair arrays with their head, the presence words and the rides' minimums.
#[derive(Clone, Copy)]
pub struct CoverRef<'a> {
    pub head: Head,
    pub operators: &'a [u16],
    pub rides: &'a [u16],
    pub presence: &'a [u16],
    pub minimums: &'a [u16],
}

// Whether a pair array is shorter than operators × rides, the presence words or the marks than operators + rides, or the minimums than rides.
fn short_peel(lent: CoverRef<'_>, marks: &[u16]) -> bool
    ensures { result
        ≡ peel_short lent.entry.head lent.entry.operators.now lent.entry.rides.now lent.entry.presence.now lent.entry.minimums.now marks.now }
{
    let n = lent.head.operators as usize;
    let m = lent.head.rides as usize;
    let places = n * m;
    lent.operators.len() < places
        || lent.rides.len() < places
        || lent.presence.len() < n + m
        || lent.minimums.len() < m
        || marks.len() < n + m
}

// Whether a mark in use is not 0 or 1.
fn bad_marks(head: Head, marks: &[u16]) -> bool
    requires { mark_places head ≤ length marks.now }
    ensures { result ≡ refused_12 head marks.now }
{
    let w = head.operators as usize + head.rides as usize;
    for i in 0..w {
        if 1 < marks[i] {
            return true;
        }
    }
    false
}

// 1 to 5, of what is lent to a peel, and to a cover found by one; or the pair table.
pub fn check_lent<'a>(lent: CoverRef<'a>, marks: &[u16]) -> Result<PairTable<'a>, Refusal>
    ensures refused { number_of result
        ≡ first_number
        (peel_cases lent.entry.head lent.entry.operators.now lent.entry.rides.now lent.entry.presence.now lent.entry.minimums.now marks.now) }
    ensures table { IfOk result (λ t. (t.head ≡ lent.entry.head) × (t.operators.now ≡ lent.entry.operators.now) × (t.rides.now ≡ lent.entry.rides.now)) }
{
    let short = short_peel(lent, marks);
    check_table(lent.head, short, lent.operators, lent.rides)
}

// 1 to 5 and 12; or the pair table.
pub fn check_peel<'a>(lent: CoverRef<'a>, marks: &[u16]) -> Result<PairTable<'a>, Refusal>
    ensures refused { number_of result
        ≡ peel_refusal lent.entry.head lent.entry.operators.now lent.entry.rides.now lent.entry.presence.now lent.entry.minimums.now marks.now }
    ensures table { IfOk result (λ t. (t.head ≡ lent.entry.head) × (t.operators.now ≡ lent.entry.operators.now) × (t.rides.now ≡ lent.entry.rides.now)) }
{
    let table = check_lent(lent, marks)?;
    if bad_marks(lent.head, marks) {
        return Err(Refusal::BadMark);
    }
    Ok(table)
}
