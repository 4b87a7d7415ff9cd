//! The reader over the bytes of an image.
ghost use Rattle.std.specs.Prelude.{◌≡◌, ℕ, ◌+◌, ◌<◌, ◌≤◌, OnOk};
ghost use Rattle.image.specs.Reading.{byte_at, word_at, item_at, place_after, ahead};

use crate::{Cause, Fault, Record};

/// The bytes of an image and the place of the next one to read.
#[derive(Drop)]
pub struct Reader<'a> {
    bytes: &'a [u8],
    place: usize,
}

impl<'a> Reader<'a> {
    /// A reader at the first byte.
    pub fn new(bytes: &'a [u8]) -> Reader<'a>
        ensures bytes { result.bytes.now ≡ bytes.now }
        ensures place { result.place ≡ 0 }
    {
        Reader { bytes, place: 0 }
    }

    /// The place of the next byte to read.
    pub fn place(&self) -> usize
        ensures { result ≡ self.now.place }
    {
        self.place
    }

    // One byte of the record that begins at `start`.
    fn byte(&mut self, start: usize) -> Result<u8, Fault>
        ensures answer { result ≡ byte_at self.old.bytes.now start self.old.place }
        ensures after { OnOk result (self.new ≡ ahead 1 self.old) }
    {
        let byte = self.bytes.get(self.place).copied().ok_or(Fault {
            cause: Cause::CutShort,
            place: start,
        })?;
        self.place += 1;
        Ok(byte)
    }

    // Two bytes, the high one first.
    fn word(&mut self, start: usize) -> Result<u16, Fault>
        ensures answer { result ≡ word_at self.old.bytes.now start self.old.place }
        ensures after { OnOk result (self.new ≡ ahead 2 self.old) }
    {
        Ok(u16::from_be_bytes([self.byte(start)?, self.byte(start)?]))
    }

    // A record; or `None` over no bytes, and at the end, behind which no byte may stand.
    fn item(&mut self) -> Result<Option<Record>, Fault>
        ensures answer { result ≡ item_at self.old.bytes.now self.old.place }
        ensures after { OnOk result (self.new.place ≡ place_after self.old.bytes.now self.old.place result) }
        ensures same { OnOk result (self.new.bytes ≡ self.old.bytes) }
    {
        if self.bytes.is_empty() {
            return Ok(None);
        }
        let start = self.place;
        let record = match self.byte(start)? {
            1 => Record::Word {
                address: self.word(start)?,
                word: self.word(start)?,
            },
            2 => Record::Protection {
                number: self.byte(start)?,
                word: self.word(start)?,
            },
            3 => Record::Register {
                number: self.byte(start)?,
                word: self.word(start)?,
            },
            4 => Record::Level {
                number: self.byte(start)?,
                state: self.byte(start)?,
            },
            255 if self.place < self.bytes.len() => return Err(Fault {
                cause: Cause::AfterEnd,
                place: self.place,
            }),
            255 => return Ok(None),
            _ => return Err(Fault {
                cause: Cause::UnknownKind,
                place: start,
            }),
        };
        Ok(Some(record))
    }

    /// The next record, or `None` at the end, and the reader stands behind it; after a fault it stands where it stood.
    /// Over no bytes it answers `None` however often it is asked, and stays at 0.
    pub fn next(&mut self) -> Result<Option<Record>, Fault>
        ensures answer { result ≡ item_at self.old.bytes.now self.old.place }
        ensures after { self.new.place ≡ place_after self.old.bytes.now self.old.place result }
        ensures same { self.new.bytes ≡ self.old.bytes }
    {
        let mut ahead = Reader {
            bytes: self.bytes,
            place: self.place,
        };
        let item = ahead.item()?;
        self.place = ahead.place;
        Ok(item)
    }
}
