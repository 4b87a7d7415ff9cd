//! Bits of words.
ghost use Rattle.std.specs.Prelude.{◌≡◌};
ghost use Rattle.levels.specs.Bits.{bit};

/// Bit `number` of a word, bit 0 being the leftmost; above 15 it is the rightmost.
pub fn bit_of(word: u16, number: u8) -> bool
    ensures { result ≡ bit word number }
{
    (word >> 15u8.saturating_sub(number)) % 2 == 1
}
