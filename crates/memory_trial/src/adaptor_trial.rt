// Adaptor memory by plans that are not new.
use crate::tries::{Fetched, show};
use memory::{Adaptor, Memory, Plan};
use std::io;

// What every 32-bit word holds before a trial: 10 in its left half, 20 in its right.
const MARK: u32 = 10 * 65536 + 20;

fn show_changed(rt: &HostRuntime, words: &[u32]) -> io::Result<()> {
    for (place, word) in words.iter().enumerate() {
        if *word != MARK {
            let left = *word / 65536;
            let right = *word % 65536;
            print!(rt; "; 32-bit word {place} is now {left}, {right}")?;
        }
    }
    println!(rt; "")
}

// Blocks 0 and 1 meet at address 8192, but their portions are 2 and 0.
fn try_edge(rt: &HostRuntime) -> io::Result<()> {
    let mut words = vec![in rt.alloc(); MARK; 12288]?;
    let mut plan = Plan::new();
    let _ = plan.exchange(0, 2);
    let _ = plan.exchange(1, 2);
    let mut memory = Adaptor::new(&mut words, &plan);
    let below = Fetched(memory.fetch(8191));
    let above = Fetched(memory.fetch(8192));
    println!(rt; "adaptor memory of three blocks: fetched at 8191 {below}, at 8192 {above}")?;
    print!(rt; "adaptor memory of three blocks: ")?;
    show(rt, &mut memory, &[8191, 8192, 24576])?;
    show_changed(rt, memory.into_words())
}

// Block 0 has portion 7, so that the blocks behind it are out of reach too.
fn try_first_out(rt: &HostRuntime) -> io::Result<()> {
    let mut words = vec![in rt.alloc(); MARK; 28672]?;
    let mut plan = Plan::new();
    let _ = plan.exchange(0, 7);
    let mut memory = Adaptor::new(&mut words, &plan);
    print!(rt; "adaptor memory, first portion not in the words: ")?;
    show(rt, &mut memory, &[0, 8192])?;
    show_changed(rt, memory.into_words())
}

pub(crate) fn run(rt: &HostRuntime) -> io::Result<()> {
    try_edge(rt)?;
    try_first_out(rt)
}
