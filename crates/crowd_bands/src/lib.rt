// A crowd table: the numbers 16 to 18, and the limits of the band that a guest count falls in.
#![tactic(auto)]

ghost use Rattle.std.specs.Prelude.{◌≡◌, ◌||◌, ltb, ℕ, suc, ◌-◌, ◌≤◌, ◌<◌, length};
ghost use Rattle.std.specs.List.{list_any, find as first_passing};
ghost use Rattle.model.specs.Count.{some};
ghost use Rattle.model.specs.Crowd.{most_guests, band, falls_in as falls, board_crowd_limits};
ghost use Rattle.crowd_bands.specs.Bands.{at, malformed, shares, first_of, last_of, malformed_at, shares_earlier, widths as added_up};
ghost use Rattle.crowd_bands.specs.Answer.{crowd_answer};
ghost use Rattle.crowd_bands.specs.Words.{WordsUpTo};

use model::{Band, Bands, CrowdLimits};
use refusal_kind::Refusal;

// The limits of a band.
#[derive(Clone, Copy)]
pub struct Limits {
    pub alpha: u16,
    pub beta: u16,
}

// Whether the first count of a band exceeds its last, or one of them is above 20,000.
fn is_malformed(band: &Band) -> bool
    ensures { result ≡ malformed band.now }
{
    band.last < band.first || 20000 < band.first || 20000 < band.last
}

// Whether one of the bands is malformed.
fn any_malformed(bands: &[Band]) -> bool
    ensures { result ≡ list_any malformed bands.now }
{
    bands.iter().any(is_malformed)
}

// Whether two bands share a guest count.
fn share(band: &Band, other: &Band) -> bool
    ensures { result ≡ shares band.now other.now }
{
    band.first <= other.last && other.first <= band.last
}

// Whether a band shares a guest count with one of the others.
fn shares_one(band: &Band, others: &[Band]) -> bool
    ensures { result ≡ list_any (shares band.now) others.now }
{
    others.iter().any(|other| share(band, other))
}

// Whether two of the bands share a guest count.
fn overlap(bands: &[Band]) -> bool
    ensures { result ≡ some (length bands.now) (shares_earlier bands.now) }
{
    for (i, band) in bands.iter().enumerate() {
        if shares_one(band, &bands[..i]) {
            return true;
        }
    }
    false
}

// The guest counts of a band.
fn width(band: &Band) -> u32
    requires { band.now.first ≤ band.now.last }
    ensures { (result ≡ suc band.now.last - band.now.first) × (result ≤ 65536) }
{
    u32::from(band.last - band.first) + 1
}

// The guest counts of the bands, added up.
fn widths(bands: &[Band]) -> u32
    requires { (length bands.now ≤ 8) × ((i : ℕ) → i < length bands.now → first_of bands.now i ≤ last_of bands.now i) }
    ensures { result ≡ added_up bands.now (length bands.now) }
{
    let mut sum: u32 = 0;
    for band in bands {
        sum += width(band);
    }
    sum
}

// Whether a guest count falls in a band.
fn falls_in(band: &Band, guests: u16) -> bool
    ensures { result ≡ falls band.now guests }
{
    band.first <= guests && guests <= band.last
}

// The first of the bands that a guest count falls in.
fn band_for(bands: &[Band], guests: u16) -> Option<Band>
    ensures { result ≡ first_passing (λ b. falls b guests) bands.now }
{
    bands.iter().copied().find(|band| falls_in(band, guests))
}

// Whether a count of bands is outside 1 to 8, or a guest count above 20,000.
fn out_of_range(count: u16, guests: u16) -> bool
    ensures { result ≡ (ltb count 1 || ltb 8 count || ltb most_guests guests) }
{
    count < 1 || 8 < count || 20000 < guests
}

// The bands that a table lists.
fn listed(bands: &Bands) -> &[Band]
    requires { bands.now.count ≤ 8 }
    ensures long { length result.now ≡ bands.now.count }
    ensures same { (i : ℕ) → i < bands.now.count → at result.now i ≡ band bands.now i }
{
    &bands.bands[..usize::from(bands.count)]
}

// The limits of the band that a guest count falls in. Bands that share no guest count have a gap where they have fewer than 20,001 together. It is
// lent the table and stays a function of its own: put into a caller that has the table by value, it would copy it first.
#[inline(never)]
pub fn find(bands: &Bands, guests: u16) -> Result<Limits, Refusal>
    ensures { crowd_answer result ≡ board_crowd_limits bands.now guests }
{
    if out_of_range(bands.count, guests) {
        return Err(Refusal::BadBands);
    }
    let all = listed(bands);
    if any_malformed(all) {
        return Err(Refusal::BadBands);
    }
    if overlap(all) {
        return Err(Refusal::BandsOverlap);
    }
    if widths(all) < 20001 {
        return Err(Refusal::BandsLeaveGap);
    }
    let band = band_for(all, guests).unwrap();
    Ok(Limits {
        alpha: band.alpha,
        beta: band.beta,
    })
}

// The limits of the band that a guest count falls in.
pub fn crowd_limits(bands: Bands, guests: u16) -> CrowdLimits
    ensures { result ≡ board_crowd_limits bands guests }
{
    find(&bands, guests).map_or_else(
        CrowdLimits::from,
        |limits| CrowdLimits {
            code: 0,
            alpha: limits.alpha,
            beta: limits.beta,
        },
    )
}

// The words of a table, four a band, for a reader that is lent words.
pub fn words(bands: Bands) -> [u16; 32]
    ensures { WordsUpTo 8 bands result }
{
    let mut all = [0u16; 32];
    for i in 0..8 {
        let band = bands.bands[i];
        all[i * 4] = band.first;
        all[i * 4 + 1] = band.last;
        all[i * 4 + 2] = band.alpha;
        all[i * 4 + 3] = band.beta;
    }
    all
}
