//! A sum that creeps one reading a step, answered as `ranges` answers it.

#![tactic(auto)]

use session::serve;
use std::io;

fn main(rt: HostRuntime) -> io::Result<()> {
    serve(rt.alloc(), rt.stdin(), &mut rt.stdout())
}
