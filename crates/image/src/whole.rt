//! The check of a whole image.
ghost use Rattle.std.specs.Prelude.{◌≡◌, ℕ, ◌+◌, ◌<◌, ◌≤◌};
ghost use Rattle.image.specs.Law.{Complete, Told};
ghost use Rattle.image.specs.Reading.{counted, verdict};

use crate::{Fault, Reader};

/// How many records an image has for a memory of `size` words, or the fault that comes first. An image of no bytes has
/// 0 records.
pub fn check(bytes: &[u8], size: u32) -> Result<usize, Fault>
    ensures answer { result ≡ counted 0 (verdict size bytes.now) }
    ensures told { Told size bytes.now result }
    ensures complete { Complete size bytes.now result }
{
    let mut reader = Reader::new(bytes);
    let mut count = 0;
    loop {
        let place = reader.place();
        let Some(record) = reader.next()? else {
            return Ok(count);
        };
        record.storable(size, place)?;
        count += 1;
    }
}
