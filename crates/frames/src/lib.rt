// What the programs read and print. `cover` reads its input by it. The replay programs read frames, as reference/README.md lays them out: the words of
// a frame, one after another, its head and messages; they print a line of text for each call.
#![tactic(auto)]

ghost use Rattle.std.specs.Prelude.{◌≤◌, ◌++◌, ◌∷◌, [], length, IfOk, IfSome, OnOk};
ghost use Rattle.std.specs.Fmt.{decimal};
ghost use Rattle.std.specs.Io.KnownBytes.{Appends};

use model::{Head, Message};
use std::io;
use std::io::{Read, Write};

// The calls of a stream, by the first word of their frames.
#[derive(Clone, Copy, Debug, PartialEq, Eq)]
pub enum CallKind {
    Build = 1,
    Query = 2,
    Peel = 3,
    Message = 4,
    List = 5,
    LookUp = 6,
    CrowdCover = 7,
    OwnCover = 8,
}

// A word that names no call.
#[derive(Clone, Copy, Debug, PartialEq, Eq)]
pub struct UnknownCall(pub u16);

impl TryFrom<u16> for CallKind {
    type Error = UnknownCall;

    fn try_from(number: u16) -> Result<CallKind, UnknownCall> {
        match number {
            1 => Ok(CallKind::Build),
            2 => Ok(CallKind::Query),
            3 => Ok(CallKind::Peel),
            4 => Ok(CallKind::Message),
            5 => Ok(CallKind::List),
            6 => Ok(CallKind::LookUp),
            7 => Ok(CallKind::CrowdCover),
            8 => Ok(CallKind::OwnCover),
            _ => Err(UnknownCall(number)),
        }
    }
}

// Reads until the buffer is full or the stream ends, and answers how many bytes it put to the start of the buffer.
fn fill<R: Read>(input: &mut R, buffer: &mut [u8]) -> io::Result<usize>
    ensures { IfOk result (λ n. n ≤ length buffer.old) }
{
    let mut done = 0;
    while done < buffer.len() {
        let more = input.read(&mut buffer[done..])?;
        if more == 0 {
            break;
        }
        done += more;
    }
    Ok(done)
}

// Reads the next count of the stream, if it has one more.
pub fn count<R: Read>(input: &mut R) -> io::Result<Option<u16>> {
    let mut bytes = [0u8; 2];
    let read = fill(input, &mut bytes)?;
    Ok((read == 2).then(|| u16::from_le_bytes(bytes)))
}

// Reads so many bytes into the buffer, of those that there are.
pub fn read<'a, R: Read>(input: &mut R, buffer: &'a mut [u8], bytes: usize) -> io::Result<&'a [u8]>
    ensures { IfOk result (λ s. length s.now ≤ length buffer.old) }
{
    let room = bytes.min(buffer.len());
    let n = fill(input, &mut buffer[..room])?;
    Ok(&buffer[..n])
}

// Reads the next frame into the buffer, if there is one. A count of 0 ends the stream.
pub fn next<'a, R: Read>(input: &mut R, buffer: &'a mut [u8]) -> io::Result<Option<&'a [u8]>>
    ensures { IfOk result (λ frame. IfSome frame (λ s. length s.now ≤ length buffer.old)) }
{
    let words = count(input)?.unwrap_or(0);
    let frame = read(input, buffer, 2 * usize::from(words))?;
    Ok(if frame.is_empty() { None } else { Some(frame) })
}

// The words of a frame that are left to read. A word past the end is 0.
#[derive(Clone, Copy)]
pub struct Words<'a> {
    rest: &'a [u8],
}

impl<'a> Words<'a> {
    pub fn new(frame: &'a [u8]) -> Words<'a> {
        Words { rest: frame }
    }

    pub fn word(&mut self) -> u16 {
        let Some((bytes, rest)) = self.rest.split_first_chunk::<2>() else {
            return 0;
        };
        self.rest = rest;
        u16::from_le_bytes(*bytes)
    }

    // A number of 32 bits: two words, the low one first.
    pub fn long(&mut self) -> u32 {
        let low = u32::from(self.word());
        let high = u32::from(self.word());
        high << 16 | low
    }

    // The words behind the next so many.
    pub fn behind(self, words: usize) -> Words<'a> {
        let n = words.min(self.rest.len() / 2);
        Words {
            rest: &self.rest[2 * n..],
        }
    }

    pub fn head(&mut self) -> Head {
        Head {
            operators: self.word(),
            rides: self.word(),
            pairs: self.word(),
        }
    }

    pub fn message(&mut self) -> Message {
        Message {
            kind: self.word(),
            operator: self.word(),
            ride: self.word(),
            revision: self.word(),
            stamp: self.long(),
        }
    }
}

// Writes one of a call's numbers, and a space.
pub fn print<W: Write>(out: &mut W, number: u16) -> io::Result<()>
    ensures { OnOk result (Appends (W.contents out.old) (W.contents out.new) (decimal number ++ 32 ∷ [])) }
{
    write!(out, "{number} ")
}

// Writes the checksum, and ends the line.
pub fn print_checksum<W: Write>(out: &mut W, sum: u64) -> io::Result<()>
    ensures { OnOk result (Appends (W.contents out.old) (W.contents out.new) (decimal sum ++ 10 ∷ [])) }
{
    writeln!(out, "{sum}")
}
