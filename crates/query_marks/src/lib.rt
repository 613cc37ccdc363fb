// The marks and counts of one row of the index, or of a row of zeros.
#![tactic(auto)]

ghost use Rattle.std.specs.Prelude.{◌+◌, ◌≤◌, length, replicate};
ghost use Rattle.query_marks.specs.Marks.{FitsRow, RowMarked};

use model::Counts;

// Marks those present in one row whose level is at least `least`, operators and rides alike: one loop marks them all.
fn mark_both(row: &[u16], n: usize, presence: &[u16], least: u16, marks: &mut [u16]) -> Counts
    requires { FitsRow row.now n presence.now marks.old }
    ensures { RowMarked row.now n presence.now least least marks.old result marks.new }
{
    let w = row.len();
    let all = query_sides::mark_levels(row, &presence[0..w], least, &mut marks[0..w]);
    let rides = arrays::count_marks(&marks[n..w]);
    Counts {
        code: 0,
        operators: all - rides,
        rides,
    }
}

// Marks the operators present in one row whose level is at least `operator_least`, then the rides whose level is at least `ride_least`.
fn mark_sides(
    row: &[u16],
    n: usize,
    presence: &[u16],
    operator_least: u16,
    ride_least: u16,
    marks: &mut [u16],
) -> Counts
    requires { FitsRow row.now n presence.now marks.old }
    ensures { RowMarked row.now n presence.now operator_least ride_least marks.old result marks.new }
{
    let w = row.len();
    let operators = query_sides::mark_levels(
        &row[0..n],
        &presence[0..n],
        operator_least,
        &mut marks[0..n],
    );
    let rides = query_sides::mark_levels(&row[n..w], &presence[n..w], ride_least, &mut marks[n..w]);
    Counts {
        code: 0,
        operators,
        rides,
    }
}

// Marks those present in one row, n operators and then rides, whose level is at least the least one of their side.
pub fn mark_row(
    row: &[u16],
    n: usize,
    presence: &[u16],
    operator_least: u16,
    ride_least: u16,
    marks: &mut [u16],
) -> Counts
    requires { FitsRow row.now n presence.now marks.old }
    ensures { RowMarked row.now n presence.now operator_least ride_least marks.old result marks.new }
{
    if operator_least == ride_least {
        return mark_both(row, n, presence, ride_least, marks);
    }
    mark_sides(row, n, presence, operator_least, ride_least, marks)
}

// Marks those present as for a row of zeros, where the index has no row for a query.
pub fn mark_zeros(
    operators: u16,
    rides: u16,
    presence: &[u16],
    operator_least: u16,
    ride_least: u16,
    marks: &mut [u16],
) -> Counts
    requires { (operators ≤ 200) × (rides ≤ 60) × (operators + rides ≤ length presence.now) × (operators + rides ≤ length marks.old) }
    ensures { RowMarked (replicate (operators + rides) 0) operators presence.now operator_least ride_least marks.old result marks.new }
{
    let n = operators as usize;
    let w = n + rides as usize;
    let marked_operators = query_sides::mark_zeros(
        &presence[0..n],
        operator_least,
        &mut marks[0..n],
    );
    let marked_rides = query_sides::mark_zeros(&presence[n..w], ride_least, &mut marks[n..w]);
    Counts {
        code: 0,
        operators: marked_operators,
        rides: marked_rides,
    }
}
