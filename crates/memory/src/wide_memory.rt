//! Adaptor memory: 16-bit words in the caller's 32-bit words, by a plan.
ghost use Rattle.std.specs.Prelude.{◌≡◌, ◌<◌, ◌↔◌, length, IsSome, IfSome};
ghost use Rattle.memory.specs.Outer.{outer_wide};
ghost use Rattle.memory.specs.Sizes.{adapted_sized};
ghost use Rattle.memory.specs.Wide.{lead, place, half, merged, adapted};

use crate::Memory;
use crate::portions::Plan;

// The addresses of a block.
const BLOCK: u16 = 8192;

// The 32-bit words of a portion, which hold a block.
const PORTION: usize = 4096;

/// The caller's 32-bit words, each of two 16-bit words, as memory by a plan.
// The plan is lent with a lifetime of its own, so that it stays while the memory lives.
#[derive(Drop)]
pub struct Adaptor<'a, 'b> {
    words: &'a mut [u32],
    plan: &'b Plan,
}

// How many blocks, from the first on, have their portions wholly in the words.
fn leading(plan: &Plan, len: usize) -> u32
    ensures { result ≡ lead plan.now.portions len }
{
    plan.portions()
        .iter()
        .take_while(|portion| PORTION * (**portion as usize + 1) <= len)
        .count() as u32
}

// The half of a 32-bit word that an address means: the left half for an even one.
fn half_of(wide: u32, address: u16) -> u16
    ensures { result ≡ half wide address }
{
    if address % 2 == 0 {
        (wide / 65536) as u16
    } else {
        (wide % 65536) as u16
    }
}

// A 32-bit word with that half replaced.
fn with_half(wide: u32, address: u16, word: u16) -> u32
    ensures { result ≡ merged wide address word }
{
    if address % 2 == 0 {
        65536 * word as u32 + wide % 65536
    } else {
        65536 * (wide / 65536) + word as u32
    }
}

impl<'a, 'b> Adaptor<'a, 'b> {
    /// Memory over words, by a plan that it keeps to.
    pub fn new(words: &'a mut [u32], plan: &'b Plan) -> Adaptor<'a, 'b>
        ensures value { result.words.now ≡ words.old }
        ensures named { result.words.ghost_name ≡ words.entry.ghost_name }
        ensures planned { result.plan.now ≡ plan.now }
    {
        Adaptor { words, plan }
    }

    /// The words back, and the end of the memory.
    pub fn into_words(self) -> &'a mut [u32]
        ensures value { result.now ≡ self.entry.words.now }
        ensures named { result.ghost_name ≡ self.entry.words.ghost_name }
    {
        let Adaptor { words, plan: _ } = self;
        words
    }

    // Which 32-bit word an address below the size lies in.
    fn place(&self, address: u16) -> Option<usize>
        ensures below { IsSome result ↔ (address < length (adapted self.now.plan.now.portions self.now.words.now)) }
        ensures value { IfSome result (λ i. i ≡ place self.now.plan.now.portions address) }
        ensures within { IfSome result (λ i. i < length self.now.words.now) }
    {
        if (address as u32) >= self.size() {
            return None;
        }
        let portion = self.plan.portion((address / BLOCK) as u8);
        Some(PORTION * portion as usize + (address % BLOCK / 2) as usize)
    }
}

impl Memory for Adaptor<'_, '_> {
    ghost words = { λ m. adapted m.plan.now.portions m.words.now };

    ghost sized = { λ m. adapted_sized m.plan.now.portions m.words.now m.plan.now.eight };

    ghost outer = { λ m. outer_wide m.plan.now.portions m.words };

    fn size(&self) -> u32 {
        BLOCK as u32 * leading(self.plan, self.words.len())
    }

    fn fetch(&mut self, address: u16) -> Option<u16> {
        let place = self.place(address)?;
        Some(half_of(self.words[place], address))
    }

    fn store(&mut self, address: u16, word: u16) {
        if let Some(place) = self.place(address) {
            self.words[place] = with_half(self.words[place], address, word);
        }
    }
}
