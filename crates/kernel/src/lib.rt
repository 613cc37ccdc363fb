// The cover under a list of limits as C functions, for the benchmark and the differential run. The board's library has none of them.
#![tactic(auto)]

ghost use Rattle.std.specs.Prelude.{◌≡◌, Bool, ℕ, ◌≤◌, length};
ghost use Rattle.model.specs.Graph.{Graph, cover_under};
ghost use Rattle.model.specs.Layout.{mark_places, over};
ghost use Rattle.pairs.specs.Accepted.{AcceptedPairs};
ghost use Rattle.graph_tables.specs.Table.{ZeroTables};
ghost use Rattle.limits.specs.Limits.{limit_of};
ghost use Rattle.graph_degrees.specs.Degrees.{Bytes, ReadUpTo, first_pairs};
ghost use Rattle.limits_cover.specs.Cover.{Over};

use graph_degrees::Degrees;
use model::Head;
use pairs::PairTable;

// Reads a pair table once: both tables, which come in as zeros, and the degrees, of the pairs whose nodes are both here.
#[unsafe(no_mangle)]
pub extern "C" fn kernel_tables(
    head: Head,
    operators: &[u16],
    rides: &[u16],
    here: &[u8],
    by_operator: &mut [u8],
    by_ride: &mut [u8],
) -> Degrees
    requires { AcceptedPairs head operators.now rides.now × ((on : ℕ → Bool) × Bytes head on here.now) × ZeroTables by_operator.old by_ride.old }
    ensures { (on : ℕ → Bool) → Bytes head on here.now →
        ReadUpTo head.pairs head operators.now rides.now on
        by_operator.new by_ride.new result.operators result.rides }
{
    let table = PairTable {
        head,
        operators,
        rides,
    };
    graph_degrees::tabulate(table, here, by_operator, by_ride)
}

// The cover under these limits, over tables that are there.
#[unsafe(no_mangle)]
pub extern "C" fn kernel_cover(
    head: Head,
    by_operator: &[u8],
    by_ride: &[u8],
    degrees: Degrees,
    limits: &[u16],
    marks: &mut [u16],
)
    requires { ((g : Graph) × Over g head by_operator.now by_ride.now degrees.operators degrees.rides) ×
        (mark_places head ≤ length limits.now) × (mark_places head ≤ length marks.old) }
    ensures { (g : Graph) → Over g head by_operator.now by_ride.now degrees.operators degrees.rides →
        marks.new ≡ over (cover_under g (limit_of limits.now)) marks.old }
{
    limits_cover::cover(head, by_operator, by_ride, degrees, limits, marks);
}

// The cover under these limits, from pair arrays.
#[unsafe(no_mangle)]
pub extern "C" fn kernel_pair_cover(
    head: Head,
    operators: &[u16],
    rides: &[u16],
    here: &[u8],
    limits: &[u16],
    marks: &mut [u16],
)
    requires { AcceptedPairs head operators.now rides.now × ((on : ℕ → Bool) × Bytes head on here.now) ×
        (mark_places head ≤ length limits.now) × (mark_places head ≤ length marks.old) }
    ensures { (on : ℕ → Bool) → Bytes head on here.now →
        marks.new
        ≡ over (cover_under (first_pairs head operators.now rides.now on head.pairs) (limit_of limits.now)) marks.old }
{
    let table = PairTable {
        head,
        operators,
        rides,
    };
    limits_cover_pairs::cover(table, here, limits, marks);
}
