// Replays inputs of the program `cover`, and writes the output of each (reference/README.md).
#![tactic(auto)]

use std::io;
use std::io::Write;

// Writes the output of an input.
fn answer<W: Write>(to: &mut W, input: &[u8]) -> io::Result<()> {
    let mut text = [0u8; 8192];
    let size = cover_report::cover_text(input, &mut text);
    to.write_all(&text[..size])
}

// A stream has fewer inputs than the bound.
fn main(rt: HostRuntime) -> io::Result<()> {
    let mut input = rt.stdin();
    let mut out = rt.stdout();
    let mut buffer = [0u8; 65535];
    for _ in 0..1000000u32 {
        let Some(bytes) = frames::count(&mut input)? else {
            return Ok(());
        };
        answer(
            &mut out,
            frames::read(&mut input, &mut buffer, usize::from(bytes))?,
        )?;
    }
    Ok(())
}
