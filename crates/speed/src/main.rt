//! Runs a mixed loop, by default 20 times 1,000,000 steps, and prints what came of it.
#![tactic(auto)]

mod sums;

use engine::{Idle, Processor, Running};
use memory::Core;
use std::rt::Env;
use std::{env, fmt, io};
use sums::Sums;

// The steps of one run.
const STEPS: u32 = 1_000_000;

// How many runs there are where none are asked for.
const RUNS: u32 = 20;

// The numbers of the registers P and X2.
const P: u8 = 1;

const X2: u8 = 5;

// The registers before the first run: P is at the start of the loop, and X2 has a base.
const REGISTERS: [(u8, u16); 2] = [(P, 0x0200), (X2, 0x0300)];

// The loop and its data: addresses and words. No page is protected, so all of it is background.
const LOOP: [(u16, u16); 17] = [
    (0x0200, 0xc810), // LDX 0x0210: X1 is where the table starts, counted from its end
    (0x0201, 0x8e10), // LDA by 0x0211, plus X1: a word of the table
    (0x0202, 0xa810), // ADD 0x0212
    (0x0203, 0xee0e), // STA by 0x0211, plus X1: the same word of the table
    (0x0204, 0xf80f), // IM 0x0213: the passes
    (0x0205, 0x9040), // AND 0x0040
    (0x0206, 0xb150), // SUB 0x0050 plus X2, so 0x0350
    (0x0207, 0x7c37), // a copy: T and A are added into T
    (0x0208, 0x6602), // BIX 0x020a: the next word of the table
    (0x0209, 0xc807), // LDX 0x0210: the table is at its end, and starts again
    (0x020a, 0x49f7), // B 0x0201
    (0x0210, 0xf000), // 4,096 words before the end
    (0x0211, 0x8000), // the end of the table
    (0x0212, 0x1235), // what is added
    (0x0213, 0x0000), // the passes
    (0x0040, 0x7fff), // what is kept
    (0x0350, 0x0101), // what is taken away
];

// The registers in their order.
#[derive(Drop)]
struct Registers([u16; 8]);

impl fmt::Display for Registers {
    fn fmt<W: fmt::Write>(&self, f: &mut fmt::Formatter<W>) -> fmt::Result {
        f.write_str("registers")?;
        for word in &self.0 {
            write!(f, " {word:04x}")?;
        }
        Ok(())
    }
}

// Puts the loop into memory, and sets the registers.
fn prepare(processor: &mut Processor<Idle, Core<'_>>) {
    for (address, word) in LOOP {
        let _ = processor.deposit_word(address, word);
    }
    for (number, word) in REGISTERS {
        let _ = processor.deposit_register(number, word);
    }
}

fn run_all(processor: &mut Processor<Running, Core<'_>>, runs: u32) -> Sums {
    let mut sums = Sums::default();
    for _ in 0..runs {
        if let Ok(counts) = processor.run(STEPS) {
            sums.count(counts);
        }
        sums.mix(&processor.registers());
    }
    sums
}

// How many runs are asked for by the first argument.
fn runs_asked(rt: &(impl Env + AllocGlobal)) -> io::Result<u32> {
    let asked = env::args(rt)?.nth(1);
    Ok(asked.and_then(|text| text.parse().ok()).unwrap_or(RUNS))
}

fn main(rt: HostRuntime) -> io::Result<()> {
    let runs = runs_asked(&rt)?;
    let mut words = vec![in rt.alloc(); 0u16; 65536]?;
    let mut idle = Processor::new(Core::new(&mut words));
    prepare(&mut idle);
    let mut running = idle.go(true);
    let mut sums = run_all(&mut running, runs);
    let registers = Registers(running.registers());
    sums.mix(running.halt().into_memory().into_words());
    println!(rt; "{runs} runs of {STEPS} steps")?;
    println!(rt; "{sums}")?;
    println!(rt; "{registers}")
}
