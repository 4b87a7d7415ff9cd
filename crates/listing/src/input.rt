//! The bytes of an image from a reader.
ghost use Rattle.std.specs.Prelude.{◌≡◌, take, IfOk, IfSome};

use crate::whole::LIMIT;
use std::alloc::Global;
use std::io;
use std::io::Read;

/// The bytes of a reader that count, where it gives them all; no more are read, and of standard input no clause can speak.
pub fn read_image<R: Read + Drop>(heap: Global, reader: R) -> io::Result<Vec<u8>>
    ensures { IfOk result (λ v. IfSome (R.remaining reader) (λ bs. v.items ≡ take 65536 bs)) }
{
    let mut bytes = Vec::new(heap);
    reader.take(LIMIT as u64).read_to_end(&mut bytes)?;
    Ok(bytes)
}
