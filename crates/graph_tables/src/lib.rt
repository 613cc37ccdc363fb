// The dense tables of clearances as they are lent, and the subtraction of one of their rows from degrees.
#![tactic(auto)]

ghost use Rattle.std.specs.Prelude.{◌≡◌, ℕ, ◌-◌, ◌<◌, ◌≤◌, length, get_or};

// The dense tables of clearances of so many operators and rides: by operator in rows of 60 rides, by ride in rows of 200 operators.
#[derive(Clone, Copy)]
pub struct ClearanceTables<'a> {
    pub operators: usize,
    pub rides: usize,
    pub by_operator: &'a [u8],
    pub by_ride: &'a [u8],
}

// Subtracts a row of a table from the degrees.
pub fn subtract(degrees: &mut [u8], row: &[u8])
    requires degrees_in_bounds { length degrees.old ≤ length row.now }
    requires by_index { (j : ℕ) → j < length degrees.old → get_or row.now j 0 ≤ get_or degrees.old j 0 }
    ensures { (j : ℕ) → j < length degrees.old → get_or degrees.new j 0 ≡ get_or degrees.old j 0 - get_or row.now j 0 }
{
    for j in 0..degrees.len() {
        degrees[j] -= row[j];
    }
}
