//! What is taken and what is refused, with the number of the refusal.
use crate::start::{Register, SIZE, Start, ZEROS};
use crate::text::{Answer, Loaded, Ran, Word};
use engine::{Processor, Running};
use memory::{Core, Plan, PlanRefusal};
use std::io;

fn try_plan(rt: &impl Print, plan: &mut Plan, block: u8, portion: u8) -> io::Result<()> {
    let set = plan.set(block, portion);
    let answer = Answer(set.map(|()| "taken").map_err(PlanRefusal::number));
    println!(rt; "plan: block {block} to portion {portion} is {answer}")
}

fn try_run(
    rt: &impl Print,
    processor: &mut Processor<Running, Core<'_>>,
    steps: u32,
) -> io::Result<()> {
    let answer = Answer::from(processor.run(steps).map(Ran));
    println!(rt; "run {steps} is {answer}")
}

// A run at the limit and one past it, of an instruction that branches to itself.
fn try_runs(rt: &(impl Print + AllocGlobal)) -> io::Result<()> {
    let start = Start {
        registers: &[(Register::P, 0x0200)],
        words: &[(0x0200, 0x4800)],
        protect: true,
        ..ZEROS
    };
    let mut words = vec![in rt.alloc(); 0u16; SIZE]?;
    start.go(&mut words, |processor| {
        try_run(rt, processor, 1_000_000)?;
        try_run(rt, processor, 1_000_001)
    })
}

// An image for an idle processor that holds a register and a word, and what it holds then.
fn try_image(rt: &(impl Print + AllocGlobal), name: &str, image: &[u8]) -> io::Result<()> {
    let mut words = vec![in rt.alloc(); 0u16; SIZE]?;
    let mut idle = Processor::new(Core::new(&mut words));
    let _ = idle.deposit_register(Register::A as u8, 0x1234);
    let _ = idle.deposit_word(0x0200, 0x7777);
    let loaded = idle.load(image).map(Loaded);
    let answer = Answer(loaded.map_err(|fault| fault.cause.number()));
    let accumulator = Word(Register::A.of(idle.registers()));
    let word = Answer::from(idle.word(0x0200).map(Word));
    let _ = idle.into_memory();
    println!(rt; "an image of {name} is {answer}; A is {accumulator}; word 0x0200 is {word}")
}

pub(crate) fn run(rt: &(impl Print + AllocGlobal)) -> io::Result<()> {
    let mut plan = Plan::new();
    for block in [3, 4] {
        try_plan(rt, &mut plan, block, 9)?;
    }
    try_runs(rt)?;
    try_image(rt, "no bytes", b"")?;
    try_image(rt, "one byte and no end", b"\x03")
}
