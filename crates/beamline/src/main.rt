//! A shift at a beamline, answered as `ranges` answers it: the binary32 script in stdin, and what must be written in stdout.

#![tactic(auto)]

use session::serve;
use std::io;

fn main(rt: HostRuntime) -> io::Result<()> {
    serve(rt.alloc(), rt.stdin(), &mut rt.stdout())
}
