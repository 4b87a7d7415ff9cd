// Core memory over rows of several lengths.
ghost use Rattle.std.specs.Prelude.{◌≡◌, ◌++◌, slice_set};
ghost use Rattle.memory.specs.Words.{front, behind};

use crate::tries::{last, show};
use memory::{Core, Memory};
use std::io;

// What every word holds before a trial.
const MARK: u16 = 5555;

// The caller's words after a store through core memory: those behind its size are as they were.
fn store_through<'a>(words: &'a mut [u16], address: u16, word: u16) -> &'a mut [u16]
    ensures { result.now ≡ slice_set (front words.old) address word ++ behind words.old }
{
    let mut core = Core::new(words);
    core.store(address, word);
    core.into_words()
}

// How many words behind the size are not as they were.
fn changed_behind(words: &[u16], size: u32) -> usize {
    words
        .iter()
        .skip(size as usize)
        .filter(|word| **word != MARK)
        .count()
}

fn try_length(rt: &HostRuntime, len: usize) -> io::Result<()> {
    let mut words = vec![in rt.alloc(); MARK; len]?;
    let mut core = Core::new(&mut words);
    let size = core.size();
    let end = last(&core);
    print!(rt; "core memory of {len} words: ")?;
    show(rt, &mut core, &[end, 8191, 8192, 65535])?;
    let changed = changed_behind(core.into_words(), size);
    let behind = len.saturating_sub(size as usize);
    println!(rt; "; {changed} of {behind} words behind changed")
}

fn try_behind(rt: &HostRuntime) -> io::Result<()> {
    let mut words = vec![in rt.alloc(); MARK; 8194]?;
    let words = store_through(&mut words, 8191, 7);
    let words = store_through(words, 8192, 9);
    let reached = words.get(8191).copied().unwrap_or(0);
    let behind = words.get(8192).copied().unwrap_or(0);
    println!(rt;
        "core memory of 8194 words: stores at 8191 and 8192 leave {reached}, and behind {behind}"
    )
}

pub(crate) fn run(rt: &HostRuntime) -> io::Result<()> {
    for len in [0usize, 8191, 8192, 65536, 70000] {
        try_length(rt, len)?;
    }
    try_behind(rt)
}
