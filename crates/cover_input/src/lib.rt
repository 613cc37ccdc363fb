// The input of `cover`: its 16-bit little-endian words, and the checks of its sizes.
#![tactic(auto)]

ghost use Rattle.std.specs.Prelude.{◌≡◌, ◌+◌, ◌*◌, ◌≤◌, ◌<◌, IfOk, length};
ghost use Rattle.model.specs.Layout.{over};
ghost use Rattle.model.specs.Refusal.{first_number};
ghost use Rattle.refusal_kind.specs.Number.{number_of};
ghost use Rattle.cover_input.specs.Input.{word, words_from, head, size_cases};

use model::Head;
use refusal_kind::Refusal;

// The word at place i.
pub fn word_at(input: &[u8], i: usize) -> u16
    requires { 2 * i + 1 < length input.now }
    ensures { result ≡ word input.now i }
{
    u16::from_le_bytes([input[2 * i], input[2 * i + 1]])
}

// Copies n words, from the place `start` on.
pub fn copy_words(input: &[u8], start: usize, n: usize, to: &mut [u16])
    requires { (2 * (start + n) ≤ length input.now) × (n ≤ length to.old) }
    ensures { to.new ≡ over (words_from input.now start n) to.old }
{
    for i in 0..n {
        to[i] = word_at(input, start + i);
    }
}

// The head, from the first three words.
pub fn head_of(input: &[u8]) -> Head
    requires { 6 ≤ length input.now }
    ensures { result ≡ head input.now }
{
    Head {
        operators: word_at(input, 0),
        rides: word_at(input, 1),
        pairs: word_at(input, 2),
    }
}

// The checks after the one of the least length.
#[tactic(auto, using(refusal_kind::proofs::Refused::refused), unfolding(model::specs::Refusal::first_number))]
fn check_head(size: usize, head: Head) -> Result<(), Refusal>
    requires { 6 ≤ size }
    ensures { number_of result ≡ first_number (size_cases size head) }
{
    refusal_table::check_head(head, false)?;
    if size != 10 + 4 * usize::from(head.pairs) {
        return Err(Refusal::BadLength);
    }
    Ok(())
}

// The head, if no check of the sizes refuses.
#[tactic(auto, unfolding(model::specs::Refusal::first_number))]
pub fn check_size(input: &[u8]) -> Result<Head, Refusal>
    ensures refused { number_of result ≡ first_number (size_cases (length input.now) (head input.now)) }
    ensures read { IfOk result (λ h. (6 ≤ length input.now) × (h ≡ head input.now)) }
{
    if input.len() < 6 {
        return Err(Refusal::BadLength);
    }
    let head = head_of(input);
    check_head(input.len(), head)?;
    Ok(head)
}
