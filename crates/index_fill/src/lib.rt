// The index: all rows, each compared with the old one and stored.
#![tactic(auto)]

ghost use Rattle.std.specs.Prelude.{◌≡◌, ℕ, ◌+◌, ◌*◌, ◌<◌, ◌≤◌, length, get_or};
ghost use Rattle.model.specs.Graph.{row as levels_row, index_of};
ghost use Rattle.model.specs.Layout.{over, counting_graph, mark_places, index_places, differing};
ghost use Rattle.index_row.specs.Source.{graph_of};

use graph_tables::ClearanceTables;
use index_row::RowSource;
use pairs::PairTable;

// The largest of the degrees, 0 where there is none.
fn largest(degrees: &[u8]) -> u8
    ensures { (i : ℕ) → i < length degrees.now → get_or degrees.now i 0 ≤ result }
{
    degrees.iter().copied().max().unwrap_or(0)
}

// The row of alpha; above the largest degree of an operator, high, it is all 0.
fn any_row(source: RowSource<'_>, high: u8, alpha: u8, row: &mut [u16])
    requires sizes { (1 ≤ alpha) × (length row.old ≡ source.tables.operators + source.tables.rides) }
    requires by_index { (u : ℕ) → u < source.tables.operators → get_or source.degrees.now.operators u 0 ≤ high }
    ensures { row.new ≡ levels_row (graph_of source.entry.tables) alpha }
{
    if high < alpha {
        row.fill(0);
        return;
    }
    index_row::fill_row(source, alpha, row);
}

// Every row of the index, each compared and stored once; the number of words that differ.
fn fill_rows(source: RowSource<'_>, high: u8, row: &mut [u16], index: &mut [u16]) -> u16
    requires sizes { (length row.old ≡ source.tables.operators + source.tables.rides) ×
        (source.tables.rides * (source.tables.operators + source.tables.rides) ≤ length index.old) }
    requires by_index { (u : ℕ) → u < source.tables.operators → get_or source.degrees.now.operators u 0 ≤ high }
    ensures { (index.new ≡ over (index_of (graph_of source.entry.tables)) index.old) ×
        (result ≡ differing (source.entry.tables.rides * (source.entry.tables.operators + source.entry.tables.rides)) index.old
        (index_of (graph_of source.entry.tables))) }
{
    let w = row.len();
    let mut differ = 0;
    for a in 0..source.tables.rides {
        any_row(source, high, (a + 1) as u8, row);
        let at = a * w;
        let end = at + w;
        differ += arrays::store(&mut index[at..end], row);
    }
    differ
}

// Fills the index of the pairs of a pair table that count; the number of words that differ before and after.
pub fn fill_index(table: PairTable<'_>, presence: &[u16], index: &mut [u16]) -> u16
    requires { (mark_places table.head ≤ length presence.now) ×
        (index_places table.head ≤ length index.old) }
    ensures { (index.new
        ≡ over (index_of (counting_graph table.entry.head table.entry.operators.now table.entry.rides.now presence.now)) index.old) ×
        (result ≡ differing (index_places table.entry.head) index.old
        (index_of (counting_graph table.entry.head table.entry.operators.now table.entry.rides.now presence.now))) }
{
    let n = table.head.operators as usize;
    let m = table.head.rides as usize;
    let here = graph_degrees::present(table.head, presence);
    let mut by_operator = [0u8; 12000];
    let mut by_ride = [0u8; 12000];
    let degrees = graph_degrees::tabulate(table, &here, &mut by_operator, &mut by_ride);
    let high = largest(&degrees.operators[0..n]);
    let tables = ClearanceTables {
        operators: n,
        rides: m,
        by_operator: &by_operator,
        by_ride: &by_ride,
    };
    let source = RowSource {
        tables,
        degrees: &degrees,
    };
    let mut row = [0u16; 260];
    fill_rows(source, high, &mut row[..n + m], index)
}
