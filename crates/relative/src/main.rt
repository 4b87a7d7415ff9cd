//! Compares the sum behind relative addresses with the sum in 64-bit signed numbers, at every i, D and S.
#![tactic(auto)]

use comparison::{MachineAdder, compare};
use std::io;

#[cfg(test)]
mod wrong;

fn main(rt: HostRuntime) -> io::Result<()> {
    rt.print(compare::<MachineAdder>())
}
