// Replays deliveries of messages (reference/README.md).
#![tactic(auto)]

use std::io;

fn main(rt: HostRuntime) -> io::Result<()> {
    replay::run(&mut rt.stdin(), &mut rt.stdout())
}
