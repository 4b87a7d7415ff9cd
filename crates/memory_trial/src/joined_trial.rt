// Joined memory at its seams and at its cut.
use crate::tries::{last, show};
use memory::{Adaptor, Core, Joined, Plan};
use std::io;

fn try_seam(rt: &HostRuntime, narrow: &mut [u16], wide: &mut [u32]) -> io::Result<()> {
    let plan = Plan::new();
    let mut memory = Joined::new(Core::new(narrow), Adaptor::new(wide, &plan));
    print!(rt; "core and adaptor joined: ")?;
    show(rt, &mut memory, &[8191, 8192, 16384])?;
    let (core, adaptor) = memory.into_parts();
    let below = core.into_words().last().copied().unwrap_or(0);
    let above = adaptor.into_words().first().copied().unwrap_or(0) / 65536;
    println!(rt; "; the core's last word is {below}, the adaptor's first {above}")
}

fn try_nested(
    rt: &HostRuntime,
    narrow: &mut [u16],
    wide: &mut [u32],
    more: &mut [u16],
) -> io::Result<()> {
    let plan = Plan::new();
    let inner = Joined::new(Core::new(narrow), Adaptor::new(wide, &plan));
    let mut memory = Joined::new(inner, Core::new(more));
    print!(rt; "joined memory and core joined: ")?;
    show(rt, &mut memory, &[8191, 8192, 16383, 16384, 24576])?;
    println!(rt; "")
}

fn try_cut(rt: &HostRuntime, first: &mut [u16], second: &mut [u16]) -> io::Result<()> {
    let mut memory = Joined::new(Core::new(first), Core::new(second));
    let end = last(&memory);
    print!(rt; "cores of 40960 words joined: ")?;
    show(rt, &mut memory, &[40959, 40960, end])?;
    let (_, core) = memory.into_parts();
    let words = core.into_words();
    let reached = words.get(24575).copied().unwrap_or(0);
    let behind = words.get(24576).copied().unwrap_or(0);
    println!(rt; "; the second's word 24575 is {reached}, 24576 is {behind}")
}

pub(crate) fn run(rt: &HostRuntime) -> io::Result<()> {
    let mut wide = vec![in rt.alloc(); 0u32; 4096]?;
    let mut first = vec![in rt.alloc(); 0u16; 8192]?;
    try_seam(rt, &mut first, &mut wide)?;
    let mut second = vec![in rt.alloc(); 0u16; 8200]?;
    try_nested(rt, &mut first, &mut wide, &mut second)?;
    let mut first = vec![in rt.alloc(); 0u16; 40960]?;
    let mut second = vec![in rt.alloc(); 0u16; 40960]?;
    try_cut(rt, &mut first, &mut second)
}
