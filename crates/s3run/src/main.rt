//! Prints the counts of a run of the image on standard input, or the number of its refusal.
#![tactic(auto)]

use std::io;

fn main(rt: HostRuntime) -> io::Result<()> {
    let heap = rt.alloc();
    let bytes = listing::read_image(heap, rt.stdin())?;
    rt.print(console::run_line(bytes.as_slice()))
}
