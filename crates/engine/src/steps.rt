//! One step.
ghost use Rattle.std.specs.Prelude.{◌≡◌, true, Some};
ghost use Rattle.machine.specs.Decode.{address as addressed};
ghost use Rattle.machine.specs.Step.{at_fetch, by_fetch, enter, exits, fetched, index, instruction_at, judgement, permitted, step as stepped};
ghost use Rattle.machine.specs.Words.{read as word_at};
ghost use Rattle.isolation.specs.Isolation.{Confined};
ghost use Rattle.engine.specs.Steps.{unless_found};
ghost use Rattle.engine.specs.View.{seen};

use crate::processor::{Processor, Running};
use levels::bit_of;
use machine::{
    Instruction, Mark, Outcome, Violation, ViolationKind, Work, add, addresses, decode, relative,
    subtract,
};
use memory::Memory;

impl<M: Memory> Processor<Running, M> {
    // Entry of a level: its cell is read before the status words are stored.
    fn enter(&mut self, number: u8)
        ensures after { seen M.words self.new ≡ enter number (seen M.words self.old) }
        ensures outside { M.outer self.new.memory ≡ M.outer self.old.memory }
    {
        let cell = read(&mut self.memory, 0x0100 + number as u16);
        let status = self.state.status();
        let p = self.state.work.p;
        self.memory.store(cell, status);
        self.memory.store(cell.wrapping_add(1), p);
        self.state.enter(number, cell);
    }

    // The word at an address, once the instruction at P is fetched.
    fn operand(&mut self, pp: bool, address: u16) -> u16
        ensures answer { result ≡ word_at (M.words self.old.memory) address }
        ensures after { seen M.words self.new ≡ fetched pp (seen M.words self.old) }
        ensures outside { M.outer self.new.memory ≡ M.outer self.old.memory }
    {
        self.state.fetch(pp);
        read(&mut self.memory, address)
    }

    // Judges an instruction at P and carries it out, at the PP that its fetch leaves. One match decides all, since each step makes it.
    fn execute(&mut self, pp: bool, instruction: Instruction) -> Result<(), Violation>
        ensures answer { result ≡ permitted (judgement pp instruction (seen M.words self.old)) }
        ensures after { seen M.words self.new ≡ unless_found (judgement pp instruction (seen M.words self.old)) pp instruction (seen M.words self.old) }
        ensures outside { M.outer self.new.memory ≡ M.outer self.old.memory }
    {
        match instruction {
            Instruction::Lda(address) => self.state.work.a = self.operand(pp, address),
            Instruction::And(address) => self.state.work.a &= self.operand(pp, address),
            Instruction::Add(address) => {
                let sum = add(self.state.work.a, self.operand(pp, address), false);
                self.state.work.settle(sum);
            }
            Instruction::Sub(address) => {
                let sum = subtract(self.state.work.a, self.operand(pp, address));
                self.state.work.settle(sum);
            }
            Instruction::Ldx(address) => self.index(pp, address),
            Instruction::Sta(address) => {
                self.state.judge(pp, instruction)?;
                self.state.fetch(pp);
                self.memory.store(address, self.state.work.a);
            }
            Instruction::Im(address) => {
                self.state.judge(pp, instruction)?;
                let sum = add(self.operand(pp, address), 1, false);
                self.state.work.flag(sum);
                self.memory.store(address, sum.word);
            }
            Instruction::B(address) => {
                self.state.fetch(pp);
                self.state.work.p = address;
            }
            Instruction::Branch(condition, address) => {
                self.state.fetch(pp);
                self.state.work.branch(condition, address);
            }
            Instruction::Copy(transfer) => {
                self.state.fetch(pp);
                self.state.work.copy(transfer);
            }
            Instruction::ReadRegister(number) => {
                self.state.fetch(pp);
                self.state.work.a = self.state.work.register(number);
            }
            Instruction::WriteRegister(number) => {
                self.state.fetch(pp);
                let word = self.state.work.a;
                let _ = self.state.work.put(number, word);
            }
            Instruction::Read(function, _) => {
                self.state.judge(pp, instruction)?;
                self.state.fetch(pp);
                self.state.read(function);
            }
            Instruction::Write(function, _) => {
                self.state.judge(pp, instruction)?;
                self.state.fetch(pp);
                self.state.write(function);
            }
            Instruction::NotCarried => self.state.fetch(pp),
        }
        Ok(())
    }

    // Fetches at P, and carries the instruction out or makes it a violation, at the PP that the fetch leaves.
    fn instruct(&mut self, pp: bool) -> Outcome
        ensures answer { result ≡ (by_fetch (Some pp) (seen M.words self.old)).outcome }
        ensures after { seen M.words self.new ≡ (by_fetch (Some pp) (seen M.words self.old)).after }
        ensures outside { M.outer self.new.memory ≡ M.outer self.old.memory }
    {
        let instruction = instruction(&mut self.memory, self.state.work);
        match self.execute(pp, instruction) {
            Ok(()) => instruction.outcome(),
            Err(found) => self.state.violate(pp, found),
        }
    }

    // Fetches at P, unless that is an entry violation.
    fn fetch(&mut self) -> Outcome
        ensures answer { result ≡ (at_fetch (seen M.words self.old)).outcome }
        ensures after { seen M.words self.new ≡ (at_fetch (seen M.words self.old)).after }
        ensures outside { M.outer self.new.memory ≡ M.outer self.old.memory }
    {
        match self.state.fetch_pp() {
            Some(pp) => self.instruct(pp),
            None => {
                let place = self.state.last;
                let aim = self.state.work.p;
                self.state.violate(
                    false,
                    Violation {
                        kind: ViolationKind::Entry,
                        place,
                        aim,
                    },
                )
            }
        }
    }

    /// One step.
    pub fn step(&mut self) -> Outcome
        ensures answer { result ≡ (stepped (seen M.words self.old)).outcome }
        ensures after { seen M.words self.new ≡ (stepped (seen M.words self.old)).after }
        ensures outside { M.outer self.new.memory ≡ M.outer self.old.memory }
        ensures confined { (seen M.words self.old).cpu.switch ≡ true → Confined (stepped (seen M.words self.old)) }
    {
        if let Some(level) = self.state.due() {
            self.enter(level);
            return Outcome::Entered(level);
        }
        match self.state.mark {
            Mark::Wait => Outcome::Idle,
            Mark::Unset | Mark::Exit => self.fetch(),
        }
    }

    // LDX: an exit by two status words, or an index.
    fn index(&mut self, pp: bool, address: u16)
        ensures after { let m = seen M.words self.old in seen M.words self.new ≡ index (exits m.cpu.mark pp) address (fetched pp m) }
        ensures outside { M.outer self.new.memory ≡ M.outer self.old.memory }
    {
        let exits = self.state.exits(pp);
        let first = self.operand(pp, address);
        if exits {
            let second = read(&mut self.memory, address.wrapping_add(1));
            self.state.leave(first, second);
        } else {
            self.state.work.x1 = first;
        }
    }
}

// What an address reads: 0 where the word is absent.
fn read<M: Memory>(memory: &mut M, address: u16) -> u16
    ensures answer { result ≡ word_at (M.words memory.old) address }
    ensures same { M.words memory.new ≡ M.words memory.old }
    ensures outside { M.outer memory.new ≡ M.outer memory.old }
{
    memory.fetch(address).unwrap_or(0)
}

// The effective address of an instruction word at P, for the codes that have one.
fn address<M: Memory>(memory: &mut M, work: Work, word: u16) -> u16
    ensures answer { result ≡ addressed work.p work (M.words memory.old) word }
    ensures same { M.words memory.new ≡ M.words memory.old }
    ensures outside { M.outer memory.new ≡ M.outer memory.old }
{
    if !addresses(word) {
        return 0;
    }
    let reference = if bit_of(word, 4) {
        relative(work.p, word)
    } else if bit_of(word, 7) {
        (word % 256).wrapping_add(work.x2)
    } else {
        word % 256
    };
    let direct = if bit_of(word, 5) {
        read(memory, reference)
    } else {
        reference
    };
    if bit_of(word, 6) {
        direct.wrapping_add(work.x1)
    } else {
        direct
    }
}

// The instruction at P.
#[tactic(auto, unfolding(machine::specs::Step::instruction_at))]
fn instruction<M: Memory>(memory: &mut M, work: Work) -> Instruction
    ensures answer { result ≡ instruction_at work (M.words memory.old) }
    ensures same { M.words memory.new ≡ M.words memory.old }
    ensures outside { M.outer memory.new ≡ M.outer memory.old }
{
    let word = read(memory, work.p);
    let address = address(memory, work, word);
    decode(word, address, relative(work.p, word))
}
