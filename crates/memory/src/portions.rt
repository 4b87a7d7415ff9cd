//! The plan of an adaptor: which portion of the 32-bit words each block of addresses has.
ghost use Rattle.std.specs.Prelude.{◌≡◌, length};
ghost use Rattle.memory.specs.Plans.{Within, Apart};

mod changes;

/// The portion of each of eight blocks; no two blocks have one portion.
#[derive(Clone, Copy)]
pub struct Plan {
    portions: [u8; 8],
    ghost eight: { length portions ≡ 8 },
    ghost within: { Within portions },
    ghost apart: { Apart portions },
}
