//! Tries worked cases through the calls of a processor, and prints what it saw, a line for each.
#![tactic(auto)]

mod addresses;
mod case;
mod instructions;
mod interrupts;
mod limits;
mod start;
mod text;

use std::io;

fn main(rt: HostRuntime) -> io::Result<()> {
    for case in instructions::CASES {
        case.carry_out(&rt)?;
    }
    addresses::run(&rt)?;
    for case in interrupts::CASES {
        case.carry_out(&rt)?;
    }
    limits::run(&rt)
}
