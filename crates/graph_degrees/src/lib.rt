// The bytes of who is here, and the one reading of a pair table: its pairs that count fill the dense tables of clearances, and the degrees of the
// operators and of the rides, which can be joined in one array.
#![tactic(auto)]

ghost use Rattle.std.specs.Prelude.{◌≡◌, Bool, ◌&&◌, ℕ, ◌+◌, ◌≤◌, ◌<◌, eqb, length, get_or};
ghost use Rattle.model.specs.Count.{bit};
ghost use Rattle.model.specs.Graph.{Graph, marked, present as is_present};
ghost use Rattle.model.specs.Layout.{mark_places};
ghost use Rattle.pairs.specs.Accepted.{AcceptedPairs};
ghost use Rattle.graph_tables.specs.Table.{ZeroTables};
ghost use Rattle.graph_degrees.specs.Degrees.{Bytes, BothDegrees, ReadUpTo, Joined, AllDegrees};

use model::Head;
use pairs::PairTable;

// 1 where two bits are both 1.
fn both(a: u8, b: u8) -> u8
    requires { (a ≤ 1) × (b ≤ 1) }
    ensures { result ≡ bit (eqb a 1 && eqb b 1) }
{
    a & b
}

// A byte for each of so many nodes: 1 where the test holds.
fn bytes_of<F: Fn(usize) -> bool>(nodes: usize, is_here: F) -> [u8; 260]
    requires few { nodes ≤ 260 }
    requires tested { (x : ℕ) → x < nodes → F.pre is_here x }
    ensures { (x : ℕ) → x < nodes → (b : Bool) × F.post is_here x b × (get_or result x 0 ≡ bit b) }
{
    let mut here = [0u8; 260];
    for x in 0..nodes {
        here[x] = u8::from(is_here(x));
    }
    here
}

// Who is here for the index: whoever is present.
pub fn present(head: Head, presence: &[u16]) -> [u8; 260]
    requires { (mark_places head ≤ length presence.now) × (mark_places head ≤ 260) }
    ensures { Bytes head (is_present presence.now) result }
{
    let nodes = head.operators as usize + head.rides as usize;
    bytes_of(nodes, |x| presence[x] == 1)
}

// Who is here for a peel: whoever is present and marked.
pub fn present_and_marked(head: Head, presence: &[u16], marks: &[u16]) -> [u8; 260]
    requires { (mark_places head ≤ length presence.now) × (mark_places head ≤ length marks.now) × (mark_places head ≤ 260) }
    ensures { Bytes head (λ x. is_present presence.now x && marked marks.now x) result }
{
    let nodes = head.operators as usize + head.rides as usize;
    bytes_of(nodes, |x| (presence[x] == 1) & (marks[x] == 1))
}

// The degree of operator u so far. Pairs are in order of operators: where the pair before was u's too, it is at hand, and the byte just stored isn't waited for.
fn so_far(degrees: &[u8], u: usize, last: usize, degree: u8) -> u8
    requires { (u < length degrees.now) × (degree ≡ get_or degrees.now last 0) }
    ensures { result ≡ get_or degrees.now u 0 }
{
    if u == last {
        return degree;
    }
    degrees[u]
}

// The degrees of the operators and of the rides.
#[repr(C)]
#[derive(Clone, Copy)]
pub struct Degrees {
    pub operators: [u8; 200],
    pub rides: [u8; 60],
}

// Reads a pair table once: tables of zeros are filled with the pairs whose nodes are both here, and the degrees in these pairs counted.
pub fn tabulate(
    table: PairTable<'_>,
    here: &[u8],
    by_operator: &mut [u8],
    by_ride: &mut [u8],
) -> Degrees
    requires { ((on : ℕ → Bool) × Bytes table.head on here.now) × ZeroTables by_operator.old by_ride.old }
    ensures { (on : ℕ → Bool) → Bytes table.entry.head on here.now →
        ReadUpTo table.entry.head.pairs table.entry.head table.entry.operators.now table.entry.rides.now on
        by_operator.new by_ride.new result.operators result.rides }
{
    let n = table.head.operators as usize;
    let nodes = n + table.head.rides as usize;
    let of_rides = &here[n..nodes];
    let mut operator_degrees = [0u8; 200];
    let mut ride_degrees = [0u8; 60];
    let mut last = 0;
    let mut degree: u8 = 0;
    // After k places, tables and degrees are of the first k pairs: no pair stands twice, so that each adds its own bit.
    for k in 0..table.head.pairs as usize {
        let u = table.operators[k] as usize;
        let v = table.rides[k] as usize;
        let one = both(here[u], of_rides[v]);
        by_operator[u * 60 + v] = one;
        by_ride[v * 200 + u] = one;
        ride_degrees[v] += one;
        degree = so_far(&operator_degrees, u, last, degree) + one;
        operator_degrees[u] = degree;
        last = u;
    }
    Degrees {
        operators: operator_degrees,
        rides: ride_degrees,
    }
}

// Puts the degrees of the operators into an array, and those of the rides behind them.
fn join(of_operators: &[u8], of_rides: &[u8], all: &mut [u8])
    requires { length of_operators.now + length of_rides.now ≤ length all.old }
    ensures { Joined of_operators.now of_rides.now all.new }
{
    let n = of_operators.len();
    all[..n].copy_from_slice(of_operators);
    all[n..n + of_rides.len()].copy_from_slice(of_rides);
}

// The degrees of all nodes in one array, as marks lie.
pub fn joined(head: Head, degrees: Degrees) -> [u8; 260]
    requires { (head.operators ≤ 200) × (head.rides ≤ 60) }
    ensures { (g : Graph) → head.operators ≡ g.operators → head.rides ≡ g.rides → BothDegrees g degrees.operators degrees.rides → AllDegrees g result }
{
    let n = head.operators as usize;
    let m = head.rides as usize;
    let operators = degrees.operators;
    let rides = degrees.rides;
    let mut all = [0u8; 260];
    join(&operators[0..n], &rides[0..m], &mut all);
    all
}
