//! Says how many worked examples are proved: whoever builds this program has had them proved.

#![tactic(auto)]

use examples::worked_examples;
use std::io;

fn main(rt: HostRuntime) -> io::Result<()> {
    let count = worked_examples();
    println!(rt; "{count} worked examples are proved of the definitions")
}
