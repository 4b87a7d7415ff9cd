//! The sum behind relative addresses, compared with the same sum in 64-bit signed numbers.
#![tactic(auto)]

ghost use Rattle.std.specs.Prelude.{◌≡◌, ℕ, ◌<◌, ◌≤◌, ◌+◌, ◌*◌, Some, codes};
ghost use Rattle.levels.specs.Bits.{one};
ghost use Rattle.machine.specs.Decode.{relative};
ghost use Rattle.comparison.specs.Cases.{AsMachine, comparison_line, differing, differing_at, differs, remainder, word_of};

use std::fmt;

/// An adder in 16 bits for relative addresses: it is to make i + D - 256 S modulo 65,536 of an address i and of an instruction word, in
/// which D is bits 8 to 15 and S is bit 7.
pub trait Adder {
    // What it makes of an address and a word.
    ghost sum: { ℕ → ℕ → ℕ };

    /// What it makes of an address and an instruction word.
    fn relative(address: u16, word: u16) -> u16
        ensures { result ≡ sum address word };
}

/// The adder of the machine: `machine::relative`, which R addressing and branches go through.
pub struct MachineAdder;

impl Adder for MachineAdder {
    ghost sum = { relative };

    fn relative(address: u16, word: u16) -> u16 {
        machine::relative(address, word)
    }
}

// An address i, a displacement D, and whether S is 1.
#[derive(Clone, Copy)]
struct Case {
    address: u16,
    displacement: u8,
    backward: bool,
}

impl Case {
    // An instruction word with this D and S, and zeros elsewhere.
    fn word(self) -> u16
        ensures { result ≡ word_of self }
    {
        u16::from(self.displacement) + 256 * u16::from(self.backward)
    }

    // i + D - 256 S in 64-bit signed numbers, modulo 65,536.
    fn remainder(self) -> i64
        ensures { result ≡ remainder self }
    {
        let sum = i64::from(self.address) + i64::from(self.displacement)
            - 256 * i64::from(self.backward);
        sum.rem_euclid(65536)
    }

    // Whether an adder makes another number of it than the signed sum.
    fn differs<A: Adder>(self) -> bool
        ensures { result ≡ differs A.sum self }
    {
        i64::from(A::relative(self.address, self.word())) != self.remainder()
    }
}

/// How many cases were compared, and in how many of them an adder makes another number than the sum in 64-bit signed numbers. Its text
/// is the two numbers in decimal, with a blank between and a line feed at the end. `compare` answers 33,554,432 cases, and 0 to as many
/// differences.
#[derive(Clone, Copy, PartialEq, Eq, Debug, Default)]
pub struct Comparison {
    pub cases: u32,
    pub differences: u32,
}

impl fmt::Display for Comparison {
    ghost output = { λ x. Some (comparison_line x.cases x.differences) };

    fn fmt<W: fmt::Write>(&self, f: &mut fmt::Formatter<W>) -> fmt::Result {
        writeln!(f, "{} {}", self.cases, self.differences)
    }
}

impl Comparison {
    // One case more.
    fn count<A: Adder>(&mut self, case: Case)
        requires room { self.old.cases < 65536 * 256 * 2 }
        requires within { self.old.differences ≤ self.old.cases }
        ensures cases { self.new.cases ≡ self.old.cases + 1 }
        ensures differences { self.new.differences ≡ self.old.differences + one (differs A.sum case) }
    {
        self.cases += 1;
        if case.differs::<A>() {
            self.differences += 1;
        }
    }

    // The cases of an address more: every D and S.
    #[tactic(auto, using(crate::proofs::Cases::displacements))]
    fn count_at<A: Adder>(&mut self, address: u16)
        requires room { self.old.cases + 256 * 2 ≤ 65536 * 256 * 2 }
        requires within { self.old.differences ≤ self.old.cases }
        ensures cases { self.new.cases ≡ self.old.cases + 256 * 2 }
        ensures differences { self.new.differences ≡ self.old.differences + differing_at A.sum address }
        ensures within { self.new.differences ≤ self.new.cases }
    {
        for displacement in 0..=u8::MAX {
            let forward = Case {
                address,
                displacement,
                backward: false,
            };
            self.count::<A>(forward);
            self.count::<A>(Case {
                backward: true,
                ..forward
            });
        }
    }
}

/// Compares an adder with the sum i + D - 256 S in 64-bit signed numbers, modulo 65,536, in each case: i 0 to 65,535, D 0 to 255, S 0
/// and 1. In the words that the adder is given all other bits are 0. It refuses nothing.
#[tactic(auto, using(crate::proofs::Relative::addresses))]
pub fn compare<A: Adder>() -> Comparison
    ensures cases { result.cases ≡ 65536 * 256 * 2 }
    ensures differences { result.differences ≡ differing A.sum }
    ensures adder { AsMachine ⟦<MachineAdder as Adder>⟧.sum }
    ensures machine { AsMachine A.sum → result.differences ≡ 0 }
    ensures line { AsMachine A.sum → ⟦<Comparison as fmt::Display>⟧.output result ≡ Some (codes "33554432 0\n") }
{
    let mut comparison = Comparison::default();
    for address in 0..=u16::MAX {
        comparison.count_at::<A>(address);
    }
    comparison
}
