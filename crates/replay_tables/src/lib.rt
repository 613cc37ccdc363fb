// The calls of a frame that send no message and take no crowd table: build, query, peel and the cover with minimums, by the functions behind the
// exported calls. Each writes its answer's numbers.
#![tactic(auto)]

use frames::Words;
use model::{Counts, Head, Peeled};
use refusal_kind::Refusal;
use refusal_peel::CoverRef;
use replay_memory::Memory;
use std::io;
use std::io::Write;

// Writes three numbers of an answer.
fn print_three<W: Write>(out: &mut W, first: u16, second: u16, third: u16) -> io::Result<()> {
    frames::print(out, first)?;
    frames::print(out, second)?;
    frames::print(out, third)
}

// Writes what a query or a cover answers.
pub fn print_counts<W: Write>(out: &mut W, counts: Counts) -> io::Result<()> {
    print_three(out, counts.code, counts.operators, counts.rides)
}

// A build.
pub fn build<W: Write>(
    out: &mut W,
    words: &mut Words<'_>,
    memory: &mut Memory<'_>,
) -> io::Result<()> {
    let head = words.head();
    let start = words.long();
    memory.load_board(words);
    let built = call_build::build(&mut memory.board(head), start);
    frames::print(out, Refusal::number_of(built))
}

// A query.
pub fn query<W: Write>(
    out: &mut W,
    words: &mut Words<'_>,
    memory: &mut Memory<'_>,
) -> io::Result<()> {
    let head = words.head();
    let alpha = words.word();
    let beta = words.word();
    memory.load_query(words);
    let counts = call_query::query(
        head,
        memory.index.read(),
        memory.presence.read(),
        alpha,
        beta,
        memory.marks.lent(),
    );
    print_counts(out, counts)
}

// A peel.
pub fn peel<W: Write>(
    out: &mut W,
    words: &mut Words<'_>,
    memory: &mut Memory<'_>,
) -> io::Result<()> {
    let head = words.head();
    let alpha = words.word();
    let beta = words.word();
    let steps = words.word();
    memory.load_cover(words);
    let peeled = call_peel::peel(
        CoverRef {
            head,
            operators: memory.operators.read(),
            rides: memory.rides.read(),
            presence: memory.presence.read(),
            minimums: memory.minimums.read(),
        },
        memory.marks.lent(),
        alpha,
        beta,
        steps,
    )
    .unwrap_or_else(Peeled::from);
    print_three(out, peeled.code, peeled.settled, peeled.steps)
}

// A cover with minimums, with the parts that are lent.
pub fn cover<W: Write>(
    out: &mut W,
    head: Head,
    alpha: u16,
    beta: u16,
    memory: &mut Memory<'_>,
) -> io::Result<()> {
    let counts = call_own_cover::own_cover(
        CoverRef {
            head,
            operators: memory.operators.read(),
            rides: memory.rides.read(),
            presence: memory.presence.read(),
            minimums: memory.minimums.read(),
        },
        alpha,
        beta,
        memory.marks.lent(),
    )
    .unwrap_or_else(Counts::from);
    print_counts(out, counts)
}

// A cover with minimums.
pub fn own_cover<W: Write>(
    out: &mut W,
    words: &mut Words<'_>,
    memory: &mut Memory<'_>,
) -> io::Result<()> {
    let head = words.head();
    let alpha = words.word();
    let beta = words.word();
    memory.load_cover(words);
    cover(out, head, alpha, beta, memory)
}
