// One row of the index, from the dense tables of clearances.
#![tactic(auto)]

ghost use Rattle.std.specs.Prelude.{◌≡◌, ◌+◌, ◌≤◌, ◌<◌, length, MatchOption};
ghost use Rattle.model.specs.Graph.{nodes, row as levels_row};
ghost use Rattle.graph_degrees.specs.Degrees.{Tabulated};
ghost use Rattle.index_row.specs.Row.{Raising, Settled, Rounded, Lower, Least, Start};
ghost use Rattle.index_row.specs.Source.{graph_of, lists};

use graph_degrees::Degrees;
use graph_tables::ClearanceTables;
use index_sweeps::Sweep;

// What the rows of an index are filled from: the two dense tables, and the degrees in the pairs that they hold.
#[derive(Clone, Copy)]
pub struct RowSource<'a> {
    pub tables: ClearanceTables<'a>,
    pub degrees: &'a Degrees,
    ghost tabulated: { Tabulated tables.operators tables.rides tables.by_operator.now tables.by_ride.now
        degrees.now.operators degrees.now.rides },
}

// The lower of low and the degree of a node, where it is kept.
fn lower(kept: u8, degree: u8, low: u8) -> u8
    ensures { Lower kept degree low result }
{
    if kept == 1 { low.min(degree) } else { low }
}

// The work arrays of a row: for each side who is kept, 1 or 0, and the degrees inside the nodes kept. In this order both arrays of degrees begin at a
// multiple of 16 bytes, so that a sweep's loads don't cross cache lines.
#[derive(Drop)]
struct WorkArrays {
    ride_degrees: [u8; 60],
    rides: [u8; 60],
    operators: [u8; 200],
    operator_degrees: [u8; 200],
}

impl WorkArrays {
    // Sweeps the rides and then the operators once; how many operators are removed.
    fn round(&mut self, source: RowSource<'_>, alpha: u8, beta: u8, row: &mut [u16]) -> usize
        requires sizes { (1 ≤ alpha) × (1 ≤ beta) × (length row.old ≡ nodes (graph_of source.tables)) }
        requires raising { Raising (graph_of source.tables) alpha beta (lists source.tables self.old row.old) }
        ensures { Rounded (graph_of source.entry.tables) alpha beta (lists source.entry.tables self.old row.old).operators result
            (lists source.entry.tables self.new row.new) }
    {
        let tables = source.tables;
        let n = tables.operators;
        let m = tables.rides;
        let end = n + m;
        let level = u16::from(beta - 1);
        let by_rides = Sweep {
            degrees: &self.ride_degrees,
            limit: beta,
            level,
            table: tables.by_ride,
            width: 200,
        };
        index_sweeps::sweep_side(
            by_rides,
            &mut self.rides[0..m],
            &mut row[n..end],
            &mut self.operator_degrees[0..n],
        );
        let by_operators = Sweep {
            degrees: &self.operator_degrees,
            limit: alpha,
            level,
            table: tables.by_operator,
            width: 60,
        };
        index_sweeps::sweep_side(
            by_operators,
            &mut self.operators[0..n],
            &mut row[0..n],
            &mut self.ride_degrees[0..m],
        )
    }

    // Removes whoever falls short of (alpha, beta), until nobody does; the level of those removed is beta - 1.
    fn settle_row(&mut self, source: RowSource<'_>, alpha: u8, beta: u8, row: &mut [u16])
        requires sizes { (1 ≤ alpha) × (1 ≤ beta) × (length row.old ≡ nodes (graph_of source.tables)) }
        requires raising { Raising (graph_of source.tables) alpha beta (lists source.tables self.old row.old) }
        ensures { Raising (graph_of source.entry.tables) alpha beta (lists source.entry.tables self.new row.new)
            × Settled (graph_of source.entry.tables) alpha beta (lists source.entry.tables self.new row.new) }
    {
        while self.round(source, alpha, beta, row) != 0 {}
    }

    // The least degree of a ride that is kept, of m, where it is below 255.
    fn least_ride(&self, m: usize) -> Option<u8>
        requires { m ≤ 60 }
        ensures { MatchOption result (Least m self.now.rides self.now.ride_degrees 255)
            (λ low. (low < 255) × Least m self.now.rides self.now.ride_degrees low) }
    {
        let mut low: u8 = 255;
        for v in 0..m {
            low = lower(self.rides[v], self.ride_degrees[v], low);
        }
        if low == 255 { None } else { Some(low) }
    }

    // The row of alpha from all nodes kept: beta is raised to one more than the least degree of a ride, until no ride is kept.
    fn raise(&mut self, source: RowSource<'_>, alpha: u8, row: &mut [u16])
        requires sizes { (1 ≤ alpha) × (length row.old ≡ nodes (graph_of source.tables)) }
        requires start { Start (graph_of source.tables) (lists source.tables self.old row.old) }
        ensures { row.new ≡ levels_row (graph_of source.entry.tables) alpha }
    {
        let mut beta: u8 = 1;
        loop {
            self.settle_row(source, alpha, beta, row);
            let Some(low) = self.least_ride(source.tables.rides) else {
                return;
            };
            beta = low + 1;
        }
    }
}

// The row of alpha.
pub fn fill_row(source: RowSource<'_>, alpha: u8, row: &mut [u16])
    requires { (1 ≤ alpha) × (length row.old ≡ source.tables.operators + source.tables.rides) }
    ensures { row.new ≡ levels_row (graph_of source.entry.tables) alpha }
{
    let mut work = WorkArrays {
        ride_degrees: source.degrees.rides,
        rides: [1; 60],
        operators: [1; 200],
        operator_degrees: source.degrees.operators,
    };
    work.raise(source, alpha, row);
}
