//! Memory of 16-bit words: the interface, and core, adaptor and joined memory.
#![tactic(auto)]

ghost use Rattle.std.specs.Prelude.{◌≡◌, ℕ, List, length, slice_set};
ghost use Rattle.memory.specs.Fetches.{fetched_at};
ghost use Rattle.memory.specs.Outer.{Outer};
ghost use Rattle.memory.specs.Sizes.{Sized};

mod core_memory;
mod joined_memory;
mod portions;
mod refusals;
mod wide_memory;

pub use core_memory::Core;
pub use joined_memory::Joined;
pub use portions::Plan;
pub use refusals::PlanRefusal;
pub use wide_memory::Adaptor;

/// Memory of 16-bit words, as many as its size; no call changes the size, and none refuses.
pub trait Memory {
    // The meaning: the words by address, as many as the size.
    ghost words: { Self → List ℕ };

    // What each implementation proves: whole blocks of 8192 words, eight at most.
    ghost sized: { (m : Self) → Sized (words m) };

    // What no call changes beside the meaning.
    ghost outer: { Self → Outer };

    /// How many words there are: whole blocks of 8,192, eight at most.
    fn size(&self) -> u32
        ensures answer { result ≡ length (words self.now) };

    /// The word at an address, or `None` at or above the size.
    // The reference is exclusive, so that an implementation may change inside while its meaning stays.
    fn fetch(&mut self, address: u16) -> Option<u16>
        ensures answer { result ≡ fetched_at (words self.old) address }
        ensures same { words self.new ≡ words self.old }
        ensures outside { outer self.new ≡ outer self.old };

    /// Changes the word at an address, and nothing at or above the size.
    fn store(&mut self, address: u16, word: u16)
        ensures after { words self.new ≡ slice_set (words self.old) address word }
        ensures outside { outer self.new ≡ outer self.old };
}
