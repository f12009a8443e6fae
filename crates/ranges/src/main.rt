//! The program `ranges`: a script on standard input, its answers on standard output.

#![tactic(auto)]

use session::serve;
use std::io;

fn main(rt: HostRuntime) -> io::Result<()> {
    serve(rt.alloc(), rt.stdin(), &mut rt.stdout())
}
