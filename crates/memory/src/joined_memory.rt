//! Two memories as one: the first's addresses, then the second's.
ghost use Rattle.std.specs.Prelude.{◌≡◌};
ghost use Rattle.memory.specs.Outer.{outer_pair};
ghost use Rattle.memory.specs.Sizes.{joint_sized};
ghost use Rattle.memory.specs.Words.{joint};

use crate::Memory;

// How many addresses there are of 16 bits.
const ADDRESSES: u32 = 65536;

/// Two memories as one.
#[derive(Drop)]
pub struct Joined<A, B> {
    first: A,
    second: B,
}

impl<A: Memory, B: Memory> Joined<A, B> {
    /// The addresses of the first memory, then those of the second, cut at 65,536.
    pub fn new(first: A, second: B) -> Joined<A, B>
        ensures first { result.first ≡ first }
        ensures second { result.second ≡ second }
    {
        Joined { first, second }
    }

    /// The two memories back.
    pub fn into_parts(self) -> (A, B)
        ensures value { result ≡ (self.first, self.second) }
    {
        let Joined { first, second } = self;
        (first, second)
    }
}

impl<A: Memory, B: Memory> Memory for Joined<A, B> {
    ghost words = { λ m. joint (A.Memory.words m.first) (B.Memory.words m.second) };

    ghost sized = { λ m. joint_sized (A.Memory.words m.first) (B.Memory.words m.second) (A.Memory.sized m.first) (B.Memory.sized m.second) };

    ghost outer = { λ m. outer_pair (A.Memory.outer m.first) (B.Memory.outer m.second) (A.Memory.words m.first) (B.Memory.words m.second) };

    fn size(&self) -> u32 {
        (self.first.size() + self.second.size()).min(ADDRESSES)
    }

    fn fetch(&mut self, address: u16) -> Option<u16> {
        let split = self.first.size();
        if (address as u32) < split {
            self.first.fetch(address)
        } else {
            self.second.fetch((address as u32 - split) as u16)
        }
    }

    fn store(&mut self, address: u16, word: u16) {
        let split = self.first.size();
        if (address as u32) < split {
            self.first.store(address, word);
        } else {
            self.second.store((address as u32 - split) as u16, word);
        }
    }
}
