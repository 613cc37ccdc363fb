// The cover under a list of limits, over dense tables: sweeps drop whoever falls short, until nobody does.
#![tactic(auto)]

ghost use Rattle.std.specs.Prelude.{◌≡◌, ℕ, ◌+◌, ◌≤◌, ◌<◌, T, length};
ghost use Rattle.model.specs.Count.{bit};
ghost use Rattle.model.specs.Graph.{Graph, settled, cover_under};
ghost use Rattle.model.specs.Layout.{mark_places, over};
ghost use Rattle.limits.specs.Limits.{limit_of};
ghost use Rattle.graph_drops.specs.Drop.{HeldOver};
ghost use Rattle.limits_cover.specs.Cover.{Visited, Shrunk, Swept, Over};

use graph_degrees::Degrees;
use graph_drops::{NodeBytes, drop_node};
use graph_tables::ClearanceTables;
use model::Head;

// Drops node x where it falls short; whether it does.
fn visit(tables: ClearanceTables<'_>, bytes: &mut NodeBytes, marks: &mut [u16], x: usize) -> bool
    requires { ((g : Graph) × (limit : ℕ → ℕ) × HeldOver g limit tables bytes.old marks.old) × (x < tables.operators + tables.rides) }
    ensures { (g : Graph) (limit : ℕ → ℕ) → HeldOver g limit tables.entry bytes.old marks.old →
        Visited g limit marks.old x (bit result) marks.new × HeldOver g limit tables.entry bytes.new marks.new }
{
    if bytes.limits[x] <= bytes.degrees[x] {
        return false;
    }
    drop_node(tables, bytes, marks, x);
    true
}

// Sweeps all nodes: drops those that fall short; how many.
fn sweep(tables: ClearanceTables<'_>, bytes: &mut NodeBytes, marks: &mut [u16]) -> usize
    requires { (g : Graph) × (limit : ℕ → ℕ) × HeldOver g limit tables bytes.old marks.old }
    ensures { (g : Graph) (limit : ℕ → ℕ) → HeldOver g limit tables.entry bytes.old marks.old →
        Swept g limit (tables.entry.operators + tables.entry.rides) marks.old result marks.new ×
        HeldOver g limit tables.entry bytes.new marks.new }
{
    let mut dropped = 0;
    for x in 0..tables.operators + tables.rides {
        dropped += usize::from(visit(tables, bytes, marks, x));
    }
    dropped
}

// Sweeps until a sweep drops nobody.
fn settle(tables: ClearanceTables<'_>, bytes: &mut NodeBytes, marks: &mut [u16])
    requires { (g : Graph) × (limit : ℕ → ℕ) × HeldOver g limit tables bytes.old marks.old }
    ensures { (g : Graph) (limit : ℕ → ℕ) → HeldOver g limit tables.entry bytes.old marks.old →
        Shrunk g limit marks.old marks.new × T (settled g limit marks.new) }
{
    while sweep(tables, bytes, marks) != 0 {}
}

// Marks the cover under these limits, a word for each node, of the pairs that the tables hold; the marks that come in aren't read.
pub fn cover(
    head: Head,
    by_operator: &[u8],
    by_ride: &[u8],
    degrees: Degrees,
    limits: &[u16],
    marks: &mut [u16],
)
    requires { ((g : Graph) × Over g head by_operator.now by_ride.now degrees.operators degrees.rides) ×
        (mark_places head ≤ length limits.now) × (mark_places head ≤ length marks.old) }
    ensures { (g : Graph) → Over g head by_operator.now by_ride.now degrees.operators degrees.rides →
        marks.new ≡ over (cover_under g (limit_of limits.now)) marks.old }
{
    let tables = ClearanceTables {
        operators: head.operators as usize,
        rides: head.rides as usize,
        by_operator,
        by_ride,
    };
    let nodes = tables.operators + tables.rides;
    arrays::fill(marks, 0, nodes, 1);
    let mut bytes = NodeBytes {
        degrees: graph_degrees::joined(head, degrees),
        limits: limits::bytes(limits, marks, nodes),
    };
    settle(tables, &mut bytes, marks);
}
