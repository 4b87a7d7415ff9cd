// A memory that owns its words and counts its fetches.
ghost use Rattle.std.specs.Prelude.{◌≡◌, length, replicate};
ghost use Rattle.memory.specs.Outer.{nothing};
ghost use Rattle.memory_trial.specs.Full.{full_sized};

use memory::Memory;

#[derive(Drop)]
pub(crate) struct Counted {
    words: [u16; 8192],
    fetches: u32,
    ghost full: { length words ≡ 8192 },
}

impl Counted {
    pub(crate) fn new() -> Counted
        ensures words { result.words ≡ replicate 8192 0 }
        ensures count { result.fetches ≡ 0 }
    {
        Counted {
            words: [0; 8192],
            fetches: 0,
        }
    }

    pub(crate) fn count(&self) -> u32
        ensures { result ≡ self.now.fetches }
    {
        self.fetches
    }
}

impl Memory for Counted {
    ghost words = { λ m. m.words };

    ghost sized = { λ m. full_sized m.words m.full };

    ghost outer = { λ _. nothing };

    fn size(&self) -> u32 {
        8192
    }

    fn fetch(&mut self, address: u16) -> Option<u16> {
        self.fetches = self.fetches.saturating_add(1);
        self.words.get(address as usize).copied()
    }

    fn store(&mut self, address: u16, word: u16) {
        if address < 8192 {
            self.words[address as usize] = word;
        }
    }
}
