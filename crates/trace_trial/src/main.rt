//! Prints runs and traces that try what one trace does not.
#![tactic(auto)]

use console::Signal;
use std::io;

// A privileged operation at 0880, which level 0 meets again at 088a, in the background.
const STALLS: &[u8] =
    b"\x02\x00\x80\x00\x03\x01\x08\x80\x01\x01\x00\x08\x88\x01\x08\x80\x10\x10\x01\x08\x8a\x10\x10\xff";

// Each register set from A by its number, from 0000 on.
const REGISTERS: &[u8] =
    b"\x03\x07\xab\xcd\x01\x00\x00\x00\x02\x01\x00\x01\x00\x03\x01\x00\x02\x00\x04\x01\x00\x03\x00\x05\x01\x00\x04\x00\x06\xff";

fn main(rt: HostRuntime) -> io::Result<()> {
    let heap = rt.alloc();
    rt.println("a branch to itself, no kind, and no bytes")?;
    rt.print(console::run_line(b"\x01\x00\x00\x48\x00\xff"))?;
    rt.print(console::run_line(b"\x00"))?;
    rt.print(console::run_line(b""))?;
    rt.println("a trace of no bytes")?;
    rt.print(console::trace(heap, b"", 2, true, &[])?)?;
    rt.println("a refused image")?;
    rt.print(console::trace(heap, b"\x00", 5, true, &[])?)?;
    rt.println("a stall and an idle step")?;
    let signals = [Signal { step: 0, level: 0 }, Signal { step: 4, level: 1 }];
    rt.print(console::trace(heap, STALLS, 4, true, &signals)?)?;
    rt.println("the same with the protect switch off")?;
    rt.print(console::trace(heap, STALLS, 2, false, &[])?)?;
    rt.println("each register")?;
    rt.print(console::trace(heap, REGISTERS, 5, false, &[])?)?;
    rt.println("no steps, and too many")?;
    rt.print(console::trace(heap, STALLS, 0, true, &[])?)?;
    rt.print(console::trace(heap, STALLS, 1_000_001, true, &[])?)
}

#[cfg(test)]
mod tests {
    use std::alloc::AllocError;

    #[test]
    fn a_trace_is_given(rt: HostRuntime) -> Result<(), AllocError> {
        let text = console::trace(rt.alloc(), b"\xff", 1, false, &[])?;
        assert_eq!(rt; text.as_str(), "0 0000 done\n1 0 0 0 0 0\nviolation none\n");
        Ok(())
    }
}
