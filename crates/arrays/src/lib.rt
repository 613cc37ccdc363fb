// Arrays of words, stamps or bytes: one value stored from one place up to another, items copied; words stored and compared with the old ones,
// marks counted.
#![tactic(auto)]

ghost use Rattle.std.specs.Prelude.{◌≡◌, not, ◌++◌, ℕ, ◌≤◌, ◌<◌, eqb, length, get_or, take, drop};
ghost use Rattle.model.specs.Count.{count};
ghost use Rattle.model.specs.Graph.{marked};
ghost use Rattle.model.specs.Layout.{differing};
ghost use Rattle.arrays.specs.Filled.{filled};

// Stores one value at the places from one up to another.
pub fn fill<T: Copy>(items: &mut [T], from: usize, to: usize, value: T)
    requires { (from ≤ to) × (to ≤ length items.old) }
    ensures { items.new ≡ filled from to value items.old }
{
    for item in &mut items[from..to] {
        *item = value;
    }
}

// Copies the first n items. By place: the library's `copy_from_slice` is a `memmove` in a preview, which the archive would need from outside.
pub fn copy<T: Copy>(from: &[T], to: &mut [T], n: usize)
    requires { (n ≤ length from.now) × (n ≤ length to.old) }
    ensures { to.new ≡ take n from.now ++ drop n to.old }
{
    for i in 0..n {
        to[i] = from[i];
    }
}

// Stores a row, and counts the words that differ.
pub fn store(part: &mut [u16], row: &[u16]) -> u16
    requires { (length part.old ≡ length row.now) × (length row.now ≤ 260) }
    ensures { (part.new ≡ row.now) × (result ≡ differing (length row.now) part.old row.now) }
{
    let mut differ = 0;
    for x in 0..part.len() {
        differ += u16::from(part[x] != row[x]);
        part[x] = row[x];
    }
    differ
}

// How many marks are 1, where all are 0 or 1.
pub fn count_marks(marks: &[u16]) -> u16
    requires marks_len_bound { length marks.now ≤ 260 }
    requires by_index { (i : ℕ) → i < length marks.now → get_or marks.now i 0 ≤ 1 }
    ensures { result ≡ count (length marks.now) (marked marks.now) }
{
    marks.iter().sum()
}
