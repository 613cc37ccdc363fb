// The program `cover`: a board on standard input, its cover on standard output. The longest board has 48,010 bytes; one byte
// more is read, so that a longer input is refused as its length asks.
#![tactic(auto)]

use std::io;
use std::io::Write;

fn main(rt: HostRuntime) -> io::Result<()> {
    let mut buffer = [0u8; 48011];
    let input = frames::read(&mut rt.stdin(), &mut buffer, 48011)?;
    let mut out = [0u8; 8192];
    let size = cover_report::cover_text(input, &mut out);
    rt.stdout().write_all(&out[..size])
}
