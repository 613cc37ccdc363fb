// Writers of text: each stores its text from the place `at` on, and answers the place after it.
#![tactic(auto)]

ghost use Rattle.std.specs.Prelude.{[], ◌∷◌, ◌++◌, ◌+◌, ◌≤◌, length};
ghost use Rattle.cover_text.specs.Text.{decimal, refusal_line, first_line, node_line};
ghost use Rattle.cover_text.specs.Write.{Wrote};
ghost use Rattle.refusal_kind.specs.Number.{number};

use refusal_kind::Refusal;

// Stores a text.
fn put_bytes(out: &mut [u8], at: usize, text: &[u8]) -> usize
    requires { at + length text.now ≤ length out.old }
    ensures { Wrote out.old at text.now (length text.now) out.new result }
{
    let end = at + text.len();
    out[at..end].copy_from_slice(text);
    end
}

// Stores a number in decimal: the digits of n / 10, then the last one.
fn put_number(out: &mut [u8], at: usize, n: u16) -> usize
    requires { at + 5 ≤ length out.old }
    ensures { Wrote out.old at (decimal n) 5 out.new result }
{
    let digit = b'0' + (n % 10) as u8;
    if n < 10 {
        out[at] = digit;
        return at + 1;
    }
    let last = put_number(out, at, n / 10);
    out[last] = digit;
    last + 1
}

// Stores a number, and one byte after it.
fn put_field(out: &mut [u8], at: usize, number: u16, after: u8) -> usize
    requires { at + 6 ≤ length out.old }
    ensures { Wrote out.old at (decimal number ++ (after ∷ [])) 6 out.new result }
{
    let end = put_number(out, at, number);
    out[end] = after;
    end + 1
}

// Stores the line of an input that is refused.
pub fn put_refusal(out: &mut [u8], at: usize, refusal: Refusal) -> usize
    requires { at + 14 ≤ length out.old }
    ensures { Wrote out.old at (refusal_line (number refusal)) 14 out.new result }
{
    let named = put_bytes(out, at, b"refused ");
    put_field(out, named, refusal.number(), b'\n')
}

// Stores the first line of a cover.
pub fn put_first(
    out: &mut [u8],
    at: usize,
    alpha: u16,
    beta: u16,
    operators: u16,
    rides: u16,
) -> usize
    requires { at + 30 ≤ length out.old }
    ensures { Wrote out.old at (first_line alpha beta operators rides) 30 out.new result }
{
    let named = put_bytes(out, at, b"cover ");
    let first = put_field(out, named, alpha, b' ');
    let second = put_field(out, first, beta, b' ');
    let third = put_field(out, second, operators, b' ');
    put_field(out, third, rides, b'\n')
}

// Stores the line of a node: its name, its number and its level.
pub fn put_node(out: &mut [u8], at: usize, name: &[u8], number: u16, level: u16) -> usize
    requires { (length name.now ≤ 9) × (at + 21 ≤ length out.old) }
    ensures { Wrote out.old at (node_line name.now number level) 21 out.new result }
{
    let named = put_bytes(out, at, name);
    let numbered = put_field(out, named, number, b' ');
    put_field(out, numbered, level, b'\n')
}
