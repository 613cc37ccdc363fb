// Replays the calls on standard input, and writes what each answered and left (reference/README.md).
#![tactic(auto)]

use frames::{CallKind, UnknownCall, Words};
use lent_parts::Part;
use model::Head;
use replay_memory::Memory;
use std::io;
use std::io::{Read, Write};

// A frame whose first word names no call is answered as a cover with minimums if it is 0, and else as a cover for a guest count. Its parts begin where
// those of a message list do.
fn unknown<W: Write>(
    out: &mut W,
    number: u16,
    words: &mut Words<'_>,
    memory: &mut Memory<'_>,
) -> io::Result<()> {
    let head = words.head();
    let first = words.word();
    memory.load_pairs(&mut words.behind(6 * usize::from(first)));
    if number == 0 {
        replay_tables::cover(out, head, first, words.word(), memory)
    } else {
        replay_crowds::cover(out, head, first, replay_crowds::table(words), memory)
    }
}

// Makes the call of a frame, writes its answer's numbers, and answers the head after it where the call has one that may change.
fn call<W: Write>(
    out: &mut W,
    words: &mut Words<'_>,
    memory: &mut Memory<'_>,
) -> io::Result<Option<Head>> {
    match CallKind::try_from(words.word()) {
        Ok(CallKind::Build) => replay_tables::build(out, words, memory)?,
        Ok(CallKind::Query) => replay_tables::query(out, words, memory)?,
        Ok(CallKind::Peel) => replay_tables::peel(out, words, memory)?,
        Ok(CallKind::Message) => return Ok(Some(replay_messages::message(out, words, memory)?)),
        Ok(CallKind::List) => return Ok(Some(replay_messages::list(out, words, memory)?)),
        Ok(CallKind::LookUp) => replay_crowds::limits(out, words, memory)?,
        Ok(CallKind::CrowdCover) => replay_crowds::crowd_cover(out, words, memory)?,
        Ok(CallKind::OwnCover) => replay_tables::own_cover(out, words, memory)?,
        Err(UnknownCall(number)) => unknown(out, number, words, memory)?,
    }
    Ok(None)
}

// Replays a frame, and writes its line.
fn step<W: Write>(out: &mut W, frame: &[u8], memory: &mut Memory<'_>) -> io::Result<()> {
    let head = call(out, &mut Words::new(frame), memory)?;
    frames::print_checksum(out, memory.checksum(head))
}

// Replays the stream, with memory that stays from call to call. A stream has fewer calls than the bound.
pub fn run<R: Read, W: Write>(input: &mut R, out: &mut W) -> io::Result<()> {
    let mut buffer = [0u8; 131070];
    let mut operators = [0u16; 12300];
    let mut rides = [0u16; 12300];
    let mut stamps = [0u32; 12300];
    let mut revisions = [0u16; 12300];
    let mut index = [0u16; 16000];
    let mut presence_stamps = [0u32; 270];
    let mut presence_revisions = [0u16; 270];
    let mut presence = [0u16; 270];
    let mut minimums = [0u16; 70];
    let mut marks = [0u16; 270];
    let mut answers = [0u16; 70];
    let mut memory = Memory {
        operators: Part::new(&mut operators),
        rides: Part::new(&mut rides),
        stamps: Part::new(&mut stamps),
        revisions: Part::new(&mut revisions),
        index: Part::new(&mut index),
        presence_stamps: Part::new(&mut presence_stamps),
        presence_revisions: Part::new(&mut presence_revisions),
        presence: Part::new(&mut presence),
        minimums: Part::new(&mut minimums),
        marks: Part::new(&mut marks),
        answers: Part::new(&mut answers),
    };
    for _ in 0..1000000u32 {
        let Some(frame) = frames::next(input, &mut buffer)? else {
            return Ok(());
        };
        step(out, frame, &mut memory)?;
    }
    Ok(())
}
