// Prints the device order of the grant file on standard input, or why there is none.
#![tactic(auto)]

use report::flow_order::{MOST_BYTES, flow_order};
use std::io::{self, Read};

fn main(rt: HostRuntime) -> io::Result<()> {
    let mut input = Vec::new(rt.alloc());
    rt.stdin().take(MOST_BYTES as u64).read_to_end(&mut input)?;
    let answer = flow_order(rt.alloc(), &input)?;
    print!(rt; "{answer}")
}
