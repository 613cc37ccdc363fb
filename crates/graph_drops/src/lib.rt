// Nodes that fall short, found by two bytes each, a degree and a limit, and dropped.
#![tactic(auto)]

ghost use Rattle.std.specs.Prelude.{◌≡◌, List, ℕ, ◌+◌, ◌<◌, ◌≤◌, T, length, get_or, set};
ghost use Rattle.model.specs.Count.{count, lowest};
ghost use Rattle.model.specs.Graph.{Graph, marked};
ghost use Rattle.graph_tables.specs.Table.{Tables};
ghost use Rattle.graph_drops.specs.Drop.{lacks, IsLowest, looked_from, Remaining, HeldOver, Subtracted, NodeDropped};

use graph_tables::ClearanceTables;

// Two bytes for each node, operators first and then rides: its remaining degree, and its limit.
#[derive(Drop)]
pub struct NodeBytes {
    pub degrees: [u8; 260],
    pub limits: [u8; 260],
}

// How many of the first n nodes fall short, with no branch.
fn count_short(degrees: &[u8; 260], limits: &[u8; 260], n: usize) -> u8
    requires { n ≤ 200 }
    ensures { result ≡ count n (lacks degrees.now limits.now) }
{
    let mut short: u8 = 0;
    for x in 0..n {
        short += u8::from(degrees[x] < limits[x]);
    }
    short
}

// The lowest node that falls short, if one does, where none below from does.
pub fn lowest_short(
    degrees: &[u8; 260],
    limits: &[u8; 260],
    from: usize,
    nodes: usize,
) -> Option<usize>
    requires { (from ≤ nodes) × (nodes ≤ 260) × ((x : ℕ) → x < from → T (lacks degrees.now limits.now x) → ⊥) }
    ensures { IsLowest result nodes (lowest nodes (lacks degrees.now limits.now)) }
{
    for x in from..nodes {
        if degrees[x] < limits[x] {
            return Some(x);
        }
    }
    None
}

// Subtracts a row from the degrees that start at from.
fn subtract_at(degrees: &mut [u8; 260], from: usize, row: &[u8])
    requires { (length degrees.old ≡ 260) × (from + length row.now ≤ 260) ×
        ((i : ℕ) → i < length row.now → get_or row.now i 0 ≤ get_or degrees.old (from + i) 0) }
    ensures { Subtracted degrees.old from row.now degrees.new }
{
    graph_tables::subtract(&mut degrees[from..from + row.len()], row);
}

// Subtracts the row of the marked node x from the degrees of the other side.
pub fn subtract_row(tables: ClearanceTables<'_>, degrees: &mut [u8; 260], x: usize)
    requires { ((g : Graph) × (marks : List ℕ) × Tables g tables.by_operator.now tables.by_ride.now ×
        Remaining g tables.operators tables.rides marks degrees.old × T (marked marks x)) ×
        (x < tables.operators + tables.rides) }
    ensures { (g : Graph) (marks : List ℕ) → Tables g tables.entry.by_operator.now tables.entry.by_ride.now →
        Remaining g tables.entry.operators tables.entry.rides marks degrees.old → T (marked marks x) →
        Remaining g tables.entry.operators tables.entry.rides (set marks x 0) degrees.new }
{
    let operators = tables.operators;
    if x < operators {
        let at = x * 60;
        let row = &tables.by_operator[at..at + tables.rides];
        subtract_at(degrees, operators, row);
        return;
    }
    let at = (x - operators) * 200;
    let row = &tables.by_ride[at..at + operators];
    subtract_at(degrees, 0, row);
}

// Drops the marked node x: each of its neighbours has one degree less, and its limit and its mark are cleared.
pub fn drop_node(tables: ClearanceTables<'_>, bytes: &mut NodeBytes, marks: &mut [u16], x: usize)
    requires { ((g : Graph) × (limit : ℕ → ℕ) × HeldOver g limit tables bytes.old marks.old) ×
        (x < tables.operators + tables.rides) × T (marked marks.old x) }
    ensures { (g : Graph) (limit : ℕ → ℕ) → HeldOver g limit tables.entry bytes.old marks.old →
        NodeDropped g limit tables.entry.operators tables.entry.rides marks.old x
        bytes.new.degrees bytes.new.limits marks.new }
{
    subtract_row(tables, &mut bytes.degrees, x);
    bytes.limits[x] = 0;
    marks[x] = 0;
}

// Where to look on after x was dropped, so that nobody below falls short: after an operator at x, since no operator's degree changed; after a ride at x
// too, unless an operator falls short now.
pub fn look_from(degrees: &[u8; 260], limits: &[u8; 260], operators: usize, x: usize) -> usize
    requires { operators ≤ 200 }
    ensures { result ≡ looked_from degrees.now limits.now operators x }
{
    if x < operators {
        return x;
    }
    if count_short(degrees, limits, operators) != 0 {
        return 0;
    }
    x
}
