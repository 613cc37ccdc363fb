// A peel: refused, or marks are cleared.
#![tactic(auto)]

ghost use Rattle.std.specs.Prelude.{◌≡◌};
ghost use Rattle.model.specs.Calls.{board_peel};
ghost use Rattle.model.specs.Outcome.{peel_left};
ghost use Rattle.refusal_kind.specs.Told.{peeled_of};

use limits::Asked;
use model::Peeled;
use refusal_kind::Refusal;
use refusal_peel::{CoverRef, check_peel};

// Clears, one a step, the mark of the lowest-numbered operator that falls short, else ride, at most the allowed steps.
pub fn peel(
    lent: CoverRef<'_>,
    marks: &mut [u16],
    alpha: u16,
    beta: u16,
    steps: u16,
) -> Result<Peeled, Refusal>
    ensures { peel_left (peeled_of result) marks.new
        ≡ board_peel lent.entry.head lent.entry.operators.now lent.entry.rides.now lent.entry.presence.now lent.entry.minimums.now marks.old alpha beta steps }
{
    let table = check_peel(lent, marks)?;
    let asked = Asked {
        presence: lent.presence,
        minimums: lent.minimums,
        alpha,
        beta,
    };
    Ok(peel_pairs::peel_over(table, asked, marks, steps))
}
