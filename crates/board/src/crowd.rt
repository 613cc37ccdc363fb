// Limits by crowd: the look-up in a table of bands, and the cover for a guest count.
ghost use Rattle.std.specs.Prelude.{◌≡◌};
ghost use Rattle.model.specs.Crowd.{board_crowd_limits, board_crowd_cover};
ghost use Rattle.model.specs.Outcome.{queried};

use model::{Bands, Counts, CrowdLimits, Head};
use refusal_peel::CoverRef;

// The limits of the band that a guest count falls in.
#[unsafe(no_mangle)]
pub extern "C" fn board_crowd_limits(bands: Bands, guests: u16) -> CrowdLimits
    ensures { result ≡ board_crowd_limits bands guests }
{
    crowd_bands::crowd_limits(bands, guests)
}

// Marks the cover for a guest count, found from all ones under the limits of its band, and answers the counts of operators and rides marked. A ride's
// limit is its own minimum, or the band's beta where that is 0.
#[unsafe(no_mangle)]
pub extern "C" fn board_crowd_cover(
    head: Head,
    operators: &[u16],
    rides: &[u16],
    presence: &[u16],
    bands: Bands,
    guests: u16,
    minimums: &[u16],
    marks: &mut [u16],
) -> Counts
    ensures { queried result marks.new
        ≡ board_crowd_cover head operators.now rides.now presence.now bands guests minimums.now
        marks.old }
{
    call_crowd_cover::crowd_cover(
        CoverRef {
            head,
            operators,
            rides,
            presence,
            minimums,
        },
        bands,
        guests,
        marks,
    )
    .unwrap_or_else(Counts::from)
}
