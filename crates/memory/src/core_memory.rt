//! Core memory: the caller's own 16-bit words.
ghost use Rattle.std.specs.Prelude.{◌≡◌};
ghost use Rattle.memory.specs.Outer.{outer_row};
ghost use Rattle.memory.specs.Sizes.{front_sized};
ghost use Rattle.memory.specs.Words.{front};

use crate::Memory;

// The words of a block.
const BLOCK: usize = 8192;

/// The caller's words, of which the whole blocks at the front are memory, eight at most.
#[derive(Drop)]
pub struct Core<'a> {
    words: &'a mut [u16],
}

impl<'a> Core<'a> {
    /// Memory over words.
    pub fn new(words: &'a mut [u16]) -> Core<'a>
        ensures value { result.words.now ≡ words.old }
        ensures named { result.words.ghost_name ≡ words.entry.ghost_name }
    {
        Core { words }
    }

    /// The words back, and the end of the memory.
    pub fn into_words(self) -> &'a mut [u16]
        ensures value { result.now ≡ self.entry.words.now }
        ensures named { result.ghost_name ≡ self.entry.words.ghost_name }
    {
        let Core { words } = self;
        words
    }

    // The words that are memory: whole blocks, eight at most, since an address has 16 bits.
    fn front(&self) -> &[u16]
        ensures { result.now ≡ front self.now.words.now }
    {
        &self.words[..BLOCK * (self.words.len() / BLOCK).min(8)]
    }
}

impl Memory for Core<'_> {
    ghost words = { λ m. front m.words.now };

    ghost sized = { λ m. front_sized m.words.now };

    ghost outer = { λ m. outer_row m.words };

    fn size(&self) -> u32 {
        self.front().len() as u32
    }

    fn fetch(&mut self, address: u16) -> Option<u16> {
        self.front().get(address as usize).copied()
    }

    fn store(&mut self, address: u16, word: u16) {
        if (address as u32) < self.size() {
            self.words[address as usize] = word;
        }
    }
}
