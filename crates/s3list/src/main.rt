//! Prints the listing of the image on standard input.
#![tactic(auto)]

use std::io;

fn main(rt: HostRuntime) -> io::Result<()> {
    let heap = rt.alloc();
    let bytes = listing::read_image(heap, rt.stdin())?;
    rt.print(listing::list(heap, bytes.as_slice())?)
}
