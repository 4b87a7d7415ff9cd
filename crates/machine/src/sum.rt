//! Sums and differences of words, with what they carry.
ghost use Rattle.std.specs.Prelude.{◌≡◌};
ghost use Rattle.machine.specs.Arithmetic.{added, subtracted};

/// A 16-bit result with its carry, or borrow, and its overflow.
#[derive(Clone, Copy, PartialEq, Eq, Debug)]
pub struct Sum {
    pub word: u16,
    pub carry: bool,
    pub overflow: bool,
}

/// The sum of two words, and 1 more if `plus_one`; it carries where it reaches 65,536.
pub fn add(a: u16, b: u16, plus_one: bool) -> Sum
    ensures { result ≡ added a b plus_one }
{
    let wide = a as u32 + b as u32 + plus_one as u32;
    let word = (wide % 65536) as u16;
    let minus = a >= 0x8000;
    let overflow = minus == (b >= 0x8000) && minus != (word >= 0x8000);
    Sum {
        word,
        carry: wide >= 65536,
        overflow,
    }
}

/// The difference of two words; it carries where it borrows.
pub fn subtract(a: u16, b: u16) -> Sum
    ensures { result ≡ subtracted a b }
{
    let (word, borrow) = a.overflowing_sub(b);
    let (_, overflow) = a.cast_signed().overflowing_sub(b.cast_signed());
    Sum {
        word,
        carry: borrow,
        overflow,
    }
}
