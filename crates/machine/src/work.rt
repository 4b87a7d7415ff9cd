//! What any instruction may change.
ghost use Rattle.std.specs.Prelude.{◌≡◌, ℕ, ◌<◌};
ghost use Rattle.machine.specs.State.{put_answer, put_after, registers as eight};
ghost use Rattle.machine.specs.Work.{branched, copied, count_branch, flagged, register, set_a};

use crate::instruction::{Condition, Join, Transfer};
use crate::refusal::Refusal;
use crate::sum::{Sum, add};

/// The registers but Z, which reads as 0 and keeps nothing, and the indicators O and C.
#[derive(Clone, Copy, Default)]
pub struct Work {
    pub p: u16,
    pub l: u16,
    pub t: u16,
    pub x1: u16,
    pub x2: u16,
    pub e: u16,
    pub a: u16,
    pub o: bool,
    pub c: bool,
}

impl Work {
    /// Registers 0 to 7.
    pub fn registers(&self) -> [u16; 8]
        ensures { result ≡ eight self.now }
    {
        [0, self.p, self.l, self.t, self.x1, self.x2, self.e, self.a]
    }

    /// Sets register 1 to 7.
    pub fn put(&mut self, number: u8, word: u16) -> Result<(), Refusal>
        ensures answer { result ≡ put_answer number }
        ensures after { self.new ≡ put_after number word self.old }
    {
        match number {
            1 => self.p = word,
            2 => self.l = word,
            3 => self.t = word,
            4 => self.x1 = word,
            5 => self.x2 = word,
            6 => self.e = word,
            7 => self.a = word,
            _ => return Err(Refusal::NoRegister),
        }
        Ok(())
    }

    /// Register 0 to 7; Z and any other number read as 0.
    pub fn register(&self, number: u8) -> u16
        ensures { result ≡ register number self.now }
    {
        match number {
            1 => self.p,
            2 => self.l,
            3 => self.t,
            4 => self.x1,
            5 => self.x2,
            6 => self.e,
            7 => self.a,
            _ => 0,
        }
    }

    /// Sets O and C by a sum.
    pub fn flag(&mut self, sum: Sum)
        ensures { self.new ≡ flagged sum self.old }
    {
        self.o = sum.overflow;
        self.c = sum.carry;
    }

    /// Puts a sum or a difference into A, O and C.
    pub fn settle(&mut self, sum: Sum)
        ensures { self.new ≡ flagged sum (set_a sum.word self.old) }
    {
        self.a = sum.word;
        self.flag(sum);
    }

    // Counts X1 up, and branches where it is then not 0.
    fn count(&mut self, target: u16)
        ensures { self.new ≡ count_branch target self.old }
    {
        self.x1 = self.x1.wrapping_add(1);
        if self.x1 != 0 {
            self.p = target;
        }
    }

    /// A branch.
    pub fn branch(&mut self, condition: Condition, target: u16)
        ensures { self.new ≡ branched condition target self.old }
    {
        match condition {
            Condition::Bno if !self.o => self.p = target,
            Condition::Bnc if !self.c => self.p = target,
            Condition::Baz if self.a == 0 => self.p = target,
            Condition::Ben if self.e >= 0x8000 => self.p = target,
            Condition::Ban if self.a >= 0x8000 => self.p = target,
            Condition::Bix => self.count(target),
            Condition::Bxno if !self.o => self.count(target),
            Condition::Bxnc if !self.c => self.count(target),
            _ => {}
        }
    }

    /// A copy from register to register.
    pub fn copy(&mut self, transfer: Transfer)
        ensures { self.new ≡ copied transfer self.old }
    {
        let value = self.register(transfer.source);
        let source = if transfer.invert { !value } else { value };
        let old = if transfer.clear {
            0
        } else {
            self.register(transfer.destination)
        };
        let plus_one = transfer.plus_one || transfer.carry && self.c;
        let result = match transfer.join {
            Join::And => (old & source).wrapping_add(plus_one as u16),
            Join::Or => (old | source).wrapping_add(plus_one as u16),
            Join::ExclusiveOr => (old ^ source).wrapping_add(plus_one as u16),
            Join::Add => {
                let sum = add(old, source, plus_one);
                self.flag(sum);
                sum.word
            }
        };
        let _ = self.put(transfer.destination, result);
    }
}
