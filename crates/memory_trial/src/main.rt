// Tries each kind of memory at its edges, and prints what it saw.
#![tactic(auto)]

mod adaptor_trial;
mod core_trial;
mod counted_memory;
mod joined_trial;
mod plan_trial;
mod tries;

use counted_memory::Counted;
use std::io;

// A memory of another kind than the library's, which owns its words and changes inside at each fetch.
fn counted(rt: &HostRuntime) -> io::Result<()> {
    let mut memory = Counted::new();
    print!(rt; "memory that owns its words: ")?;
    tries::show(rt, &mut memory, &[8191, 8192, 0])?;
    let count = memory.count();
    println!(rt; "; {count} fetches")
}

fn main(rt: HostRuntime) -> io::Result<()> {
    core_trial::run(&rt)?;
    plan_trial::run(&rt)?;
    adaptor_trial::run(&rt)?;
    joined_trial::run(&rt)?;
    counted(&rt)
}
