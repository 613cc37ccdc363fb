// Replays builds, queries, peels, covers with minimums and the calls that take a crowd table (reference/README.md).
#![tactic(auto)]

use std::io;

fn main(rt: HostRuntime) -> io::Result<()> {
    replay::run(&mut rt.stdin(), &mut rt.stdout())
}
