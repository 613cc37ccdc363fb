// The cover with minimums: refused, or the cover of those present under their limits.
#![tactic(auto)]

ghost use Rattle.std.specs.Prelude.{◌≡◌};
ghost use Rattle.model.specs.Calls.{board_own_cover};
ghost use Rattle.model.specs.Outcome.{queried};
ghost use Rattle.refusal_kind.specs.Told.{counts_of};

use limits::Asked;
use limits_cover_pairs::cover_present;
use model::Counts;
use refusal_kind::Refusal;
use refusal_peel::{CoverRef, check_lent};

// Marks the cover (alpha, beta) with minimums, and answers the counts of operators and rides marked.
pub fn own_cover(
    lent: CoverRef<'_>,
    alpha: u16,
    beta: u16,
    marks: &mut [u16],
) -> Result<Counts, Refusal>
    ensures { queried (counts_of result) marks.new
        ≡ board_own_cover lent.entry.head lent.entry.operators.now lent.entry.rides.now lent.entry.presence.now lent.entry.minimums.now alpha beta marks.old }
{
    let table = check_lent(lent, marks)?;
    let asked = Asked {
        presence: lent.presence,
        minimums: lent.minimums,
        alpha,
        beta,
    };
    Ok(cover_present(table, asked, marks))
}
