// The cover for a guest count: refused, or the cover of those present under the limits of its band, with minimums.
#![tactic(auto)]

ghost use Rattle.std.specs.Prelude.{◌≡◌};
ghost use Rattle.model.specs.Crowd.{board_crowd_cover};
ghost use Rattle.model.specs.Outcome.{queried};
ghost use Rattle.refusal_kind.specs.Told.{counts_of};

use limits::Asked;
use limits_cover_pairs::cover_present;
use model::{Bands, Counts};
use refusal_kind::Refusal;
use refusal_peel::{CoverRef, check_lent};

// Marks the cover for a guest count with minimums, and answers the counts of operators and rides marked.
pub fn crowd_cover(
    lent: CoverRef<'_>,
    bands: Bands,
    guests: u16,
    marks: &mut [u16],
) -> Result<Counts, Refusal>
    ensures { queried (counts_of result) marks.new
        ≡ board_crowd_cover lent.entry.head lent.entry.operators.now lent.entry.rides.now lent.entry.presence.now bands guests lent.entry.minimums.now marks.old }
{
    let table = check_lent(lent, marks)?;
    let limits = crowd_bands::find(&bands, guests)?;
    let asked = Asked {
        presence: lent.presence,
        minimums: lent.minimums,
        alpha: limits.alpha,
        beta: limits.beta,
    };
    Ok(cover_present(table, asked, marks))
}
