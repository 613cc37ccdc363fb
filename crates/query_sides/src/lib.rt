// One side of a row: the marks of its levels, and their count.
#![tactic(auto)]

ghost use Rattle.std.specs.Prelude.{◌≡◌, ◌&&◌, List, Bool, ℕ, ◌<◌, ◌≤◌, ltb, eqb, length, replicate};
ghost use Rattle.model.specs.Count.{bit};
ghost use Rattle.model.specs.Graph.{present};
ghost use Rattle.query_sides.specs.Marked.{Upto, Marked};

// 1 where a node is present and in.
fn mark(word: u16, is_in: bool) -> u16
    ensures { result ≡ bit (eqb word 1 && is_in) }
{
    u16::from(word == 1 && is_in)
}

// Marks those present who are in, and counts them.
fn mark_those<F: Fn(usize) -> bool>(presence: &[u16], is_in: F, marks: &mut [u16]) -> u16
    requires size { (length marks.old ≡ length presence.now) × (length presence.now ≤ 260) }
    requires callable { (i : ℕ) → i < length presence.now → F.pre is_in i }
    ensures { (test : ℕ → Bool) → ((i : ℕ) → i < length presence.now → (b : Bool) → F.post is_in i b → b ≡ test i) →
        Upto (λ i. present presence.now i && test i) (length presence.now) result marks.new }
{
    let mut count = 0;
    for i in 0..marks.len() {
        let m = mark(presence[i], is_in(i));
        marks[i] = m;
        count += m;
    }
    count
}

// Marks those present whose level is at least `least`, from 1, and counts them.
fn mark_from(levels: &[u16], presence: &[u16], least: u16, marks: &mut [u16]) -> u16
    requires { (1 ≤ least) × (length marks.old ≡ length levels.now) × (length presence.now ≡ length levels.now) × (length levels.now ≤ 260) }
    ensures { Marked levels.now presence.now least result marks.new }
{
    let below = least - 1;
    mark_those(presence, |i| below < levels[i], marks)
}

// Marks those present, and counts them.
fn mark_present(presence: &[u16], marks: &mut [u16]) -> u16
    requires { (length marks.old ≡ length presence.now) × (length presence.now ≤ 260) }
    ensures { (levels : List ℕ) → length levels ≡ length presence.now → Marked levels presence.now 0 result marks.new }
{
    mark_those(presence, |_| true, marks)
}

// Marks those present whose level is at least `least`, and counts them: all of them where that is 0.
pub fn mark_levels(levels: &[u16], presence: &[u16], least: u16, marks: &mut [u16]) -> u16
    requires { (length marks.old ≡ length levels.now) × (length presence.now ≡ length levels.now) × (length levels.now ≤ 260) }
    ensures { Marked levels.now presence.now least result marks.new }
{
    if least == 0 {
        return mark_present(presence, marks);
    }
    mark_from(levels, presence, least, marks)
}

// Marks those present as for levels of 0, and counts them: all of them where `least` is 0, and else nobody.
pub fn mark_zeros(presence: &[u16], least: u16, marks: &mut [u16]) -> u16
    requires { (length marks.old ≡ length presence.now) × (length presence.now ≤ 260) }
    ensures { Marked (replicate (length presence.now) 0) presence.now least result marks.new }
{
    if least == 0 {
        return mark_present(presence, marks);
    }
    marks.fill(0);
    0
}
