// The calls of a frame that take a crowd table: the look-up and the cover for a guest count. Each writes its answer's numbers.
#![tactic(auto)]

use frames::Words;
use model::{Band, Bands, Counts, Head};
use refusal_peel::CoverRef;
use replay_memory::Memory;
use std::io;
use std::io::Write;

// The next words of a frame as a band.
fn band(words: &mut Words<'_>) -> Band {
    Band {
        first: words.word(),
        last: words.word(),
        alpha: words.word(),
        beta: words.word(),
    }
}

// The next words of a frame as a crowd table: the count, and eight bands.
pub fn table(words: &mut Words<'_>) -> Bands {
    let count = words.word();
    let mut bands = [band(words); 8];
    for place in &mut bands[1..] {
        *place = band(words);
    }
    Bands { count, bands }
}

// A look-up. Nothing is lent.
pub fn limits<W: Write>(
    out: &mut W,
    words: &mut Words<'_>,
    memory: &mut Memory<'_>,
) -> io::Result<()> {
    let guests = words.word();
    let found = crowd_bands::crowd_limits(table(words), guests);
    memory.clear();
    frames::print(out, found.code)?;
    frames::print(out, found.alpha)?;
    frames::print(out, found.beta)
}

// A cover for a guest count, with the parts that are lent.
pub fn cover<W: Write>(
    out: &mut W,
    head: Head,
    guests: u16,
    bands: Bands,
    memory: &mut Memory<'_>,
) -> io::Result<()> {
    let counts = call_crowd_cover::crowd_cover(
        CoverRef {
            head,
            operators: memory.operators.read(),
            rides: memory.rides.read(),
            presence: memory.presence.read(),
            minimums: memory.minimums.read(),
        },
        bands,
        guests,
        memory.marks.lent(),
    )
    .unwrap_or_else(Counts::from);
    replay_tables::print_counts(out, counts)
}

// A cover for a guest count.
pub fn crowd_cover<W: Write>(
    out: &mut W,
    words: &mut Words<'_>,
    memory: &mut Memory<'_>,
) -> io::Result<()> {
    let head = words.head();
    let guests = words.word();
    let bands = table(words);
    memory.load_cover(words);
    cover(out, head, guests, bands, memory)
}
