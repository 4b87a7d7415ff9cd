//! Wrong adders, and how many differences a comparison finds with each.
ghost use Rattle.std.specs.Prelude.{◌+◌, ◌%◌};
ghost use Rattle.levels.specs.Bits.{bit, one};
ghost use Rattle.machine.specs.Decode.{relative};

use comparison::{Adder, Comparison, compare};
use levels::bit_of;

// 255 is taken away for 256: the cases with S 1 differ.
struct Less255;

impl Adder for Less255 {
    ghost sum = { λ i w. relative ((i + one (bit w 7)) % 65536) w };

    fn relative(address: u16, word: u16) -> u16 {
        machine::relative(address.wrapping_add(u16::from(bit_of(word, 7))), word)
    }
}

// S is turned, so 256 is taken away where it is 0: all cases differ.
struct SignTurned;

impl Adder for SignTurned {
    ghost sum = { λ i w. relative i ((w + 256) % 65536) };

    fn relative(address: u16, word: u16) -> u16 {
        machine::relative(address, word.wrapping_add(256))
    }
}

// D is added twice: the cases with a D other than 0 differ.
struct AddedTwice;

impl Adder for AddedTwice {
    ghost sum = { λ i w. relative ((i + w % 256) % 65536) w };

    fn relative(address: u16, word: u16) -> u16 {
        machine::relative(address.wrapping_add(word % 256), word)
    }
}

// A comparison of all cases, of which so many differ.
fn differing(differences: u32) -> Comparison {
    Comparison {
        cases: 65536 * 256 * 2,
        differences,
    }
}

#[test]
fn wrong_adders_are_seen(rt: HostRuntime) {
    assert_eq!(rt; compare::<Less255>(), differing(65536 * 256));
    assert_eq!(rt; compare::<SignTurned>(), differing(65536 * 256 * 2));
    assert_eq!(rt; compare::<AddedTwice>(), differing(65536 * 255 * 2));
}
