//! Images of a Sigma 3's memory and registers: the records, the reader over the bytes, and the check.
#![tactic(auto)]

ghost use Rattle.std.specs.Prelude.{◌≡◌, ℕ, ◌+◌, ◌<◌, ◌≤◌, length};
ghost use Rattle.image.specs.Format.{fault_layer, number as numbered, layer as layered, storing};

mod reader;
mod text;
mod whole;

pub use reader::Reader;
pub use text::Hex;
pub use whole::check;

/// What is wrong with an image.
#[derive(Clone, Copy, PartialEq, Eq, Debug)]
pub enum Cause {
    /// Register 0 or above 7, or a protection register above 15.
    NoRegister = 4,
    /// An address at or above the memory's size.
    NoAddress = 5,
    /// A level above 15.
    NoLevel = 6,
    LevelZero = 7,
    UnknownKind = 9,
    /// A record with too few bytes, or no end in an image of one or more bytes.
    CutShort = 10,
    /// Bytes behind the end.
    AfterEnd = 11,
    /// A level state above 2.
    NoState = 12,
}

/// Where a fault is found: in the bytes, or in what a record would store.
#[derive(Clone, Copy, PartialEq, Eq, Debug)]
pub enum Layer {
    Reading,
    Storing,
}

impl Cause {
    /// The number by which the cause is refused.
    pub fn number(self) -> u8
        ensures { result ≡ numbered self }
    {
        self as u8
    }

    /// The layer that finds the cause.
    pub fn layer(self) -> Layer
        ensures { result ≡ layered self }
    {
        match self {
            Cause::UnknownKind | Cause::CutShort | Cause::AfterEnd => Layer::Reading,
            _ => Layer::Storing,
        }
    }
}

/// A refused image: the cause, and its byte place, which is the kind byte of the record at fault, the first byte behind
/// the end, or the length of an image of whole records and no end.
#[derive(Clone, Copy, PartialEq, Eq, Debug)]
pub struct Fault {
    pub cause: Cause,
    pub place: usize,
}

impl Fault {
    /// The layer that found the fault.
    pub fn layer(self) -> Layer
        ensures { result ≡ fault_layer self }
    {
        self.cause.layer()
    }
}

/// One record of an image; the end is no record.
#[derive(Clone, Copy, PartialEq, Eq, Debug)]
pub enum Record {
    Word { address: u16, word: u16 },
    Protection { number: u8, word: u16 },
    Register { number: u8, word: u16 },
    Level { number: u8, state: u8 },
}

impl Record {
    /// Whether a processor over `size` words can store the record, which stands at `place`.
    pub fn storable(self, size: u32, place: usize) -> Result<(), Fault>
        ensures { result ≡ storing size place self }
    {
        let cause = match self {
            Record::Word { address, .. } if address as u32 >= size => Cause::NoAddress,
            Record::Protection { number, .. } if number > 15 => Cause::NoRegister,
            Record::Register { number, .. } if number == 0 || number > 7 => Cause::NoRegister,
            Record::Level { number, .. } if number > 15 => Cause::NoLevel,
            Record::Level { number: 0, .. } => Cause::LevelZero,
            Record::Level { state, .. } if state > 2 => Cause::NoState,
            _ => return Ok(()),
        };
        Err(Fault { cause, place })
    }
}
