// Covers from pair arrays: the cover under a list of limits; and that of those present under limits for operators and rides, own minimums included,
// with its counts.
#![tactic(auto)]

ghost use Rattle.std.specs.Prelude.{◌≡◌, Bool, ℕ, ◌≤◌, ◌<◌, length, get_or};
ghost use Rattle.model.specs.Graph.{cover_under, own_limits};
ghost use Rattle.model.specs.Layout.{mark_places, over};
ghost use Rattle.model.specs.Calls.{counts, shown, present_cover};
ghost use Rattle.model.specs.Outcome.{queried};
ghost use Rattle.limits.specs.Limits.{limit_of, LongEnough};
ghost use Rattle.graph_degrees.specs.Degrees.{Bytes, first_pairs};

use limits::Asked;
use model::{Counts, Head};
use pairs::PairTable;

// Marks the cover under these limits, a word for each node, of the pairs whose nodes are both here; the marks that come in aren't read.
pub fn cover(table: PairTable<'_>, here: &[u8], limits: &[u16], marks: &mut [u16])
    requires { ((on : ℕ → Bool) × Bytes table.head on here.now) ×
        (mark_places table.head ≤ length limits.now) × (mark_places table.head ≤ length marks.old) }
    ensures { (on : ℕ → Bool) → Bytes table.entry.head on here.now →
        marks.new
        ≡ over (cover_under
        (first_pairs table.entry.head table.entry.operators.now table.entry.rides.now on table.entry.head.pairs)
        (limit_of limits.now)) marks.old }
{
    let mut by_operator = [0u8; 12000];
    let mut by_ride = [0u8; 12000];
    let degrees = graph_degrees::tabulate(table, here, &mut by_operator, &mut by_ride);
    limits_cover::cover(table.head, &by_operator, &by_ride, degrees, limits, marks);
}

// The counts of operators and rides marked, where all marks are 0 or 1.
fn count(head: Head, marks: &[u16]) -> Counts
    requires { (head.operators ≤ 200) × (head.rides ≤ 60) × (mark_places head ≤ length marks.now) ×
        ((x : ℕ) → x < mark_places head → get_or marks.now x 0 ≤ 1) }
    ensures { result ≡ counts head marks.now }
{
    let n = head.operators as usize;
    let w = n + head.rides as usize;
    Counts {
        code: 0,
        operators: arrays::count_marks(&marks[0..n]),
        rides: arrays::count_marks(&marks[n..w]),
    }
}

// Marks the cover (alpha, beta) with minimums of the pairs that count and those present, and counts it; the marks that come in aren't read.
pub fn cover_present(table: PairTable<'_>, asked: Asked<'_>, marks: &mut [u16]) -> Counts
    requires { LongEnough table.head asked × (mark_places table.head ≤ length marks.old) }
    ensures { queried result marks.new
        ≡ shown table.entry.head
        (present_cover table.entry.head table.entry.operators.now table.entry.rides.now asked.entry.presence.now
        (own_limits table.entry.head.operators asked.entry.minimums.now asked.entry.alpha asked.entry.beta))
        marks.old }
{
    let here = graph_degrees::present(table.head, asked.presence);
    let mut limits = [0u16; 260];
    limits::fill(table.head, asked, &mut limits);
    cover(table, &here, &limits, marks);
    count(table.head, marks)
}
