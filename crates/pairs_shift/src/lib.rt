// One pair array: a word inserted or removed, and those behind it moved by one place.
#![tactic(auto)]

ghost use Rattle.std.specs.Prelude.{◌<◌, ◌≤◌, length};
ghost use Rattle.pairs_shift.specs.Shift.{Inserted, Removed};

// Inserts a word at a place of the first n words; each word from there on moves up by one place.
pub fn insert(array: &mut [u16], place: usize, n: usize, word: u16)
    requires { (place ≤ n) × (n < length array.old) }
    ensures { Inserted place n word array.old array.new }
{
    let mut carried = word;
    for i in place..n + 1 {
        let next = array[i];
        array[i] = carried;
        carried = next;
    }
}

// Removes the word at a place of the first n words; each word behind it moves down by one place.
pub fn remove(array: &mut [u16], place: usize, n: usize)
    requires { (place < n) × (n ≤ length array.old) }
    ensures { Removed place n array.old array.new }
{
    for i in place..n - 1 {
        array[i] = array[i + 1];
    }
}
