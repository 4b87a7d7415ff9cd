//! The text of a whole image.
ghost use Rattle.std.specs.Prelude.{◌≡◌, List, take, IfOk, Ok, string_bytes};
ghost use Rattle.image.specs.declared.Record.{Record as Item};
ghost use Rattle.image.specs.Reading.{verdict};
ghost use Rattle.listing.specs.Listing.{record_lines, listing};

use crate::lines::{LoadedLine, MapLine};
use engine::Processor;
use image::Reader;
use memory::Core;
use std::alloc::{AllocError, Global};

/// How many bytes of an image count at most.
pub const LIMIT: usize = 65536;

/// The bytes that count.
pub fn first(bytes: &[u8]) -> &[u8]
    ensures { result.now ≡ take 65536 bytes.now }
{
    &bytes[..LIMIT.min(bytes.len())]
}

// A line for each record of an image that was accepted.
fn records(heap: Global, bytes: &[u8]) -> Result<String, AllocError>
    ensures { IfOk result (λ s. (rs : List Item) → verdict 8192 bytes.now ≡ Ok rs → string_bytes s ≡ record_lines rs) }
{
    let mut text = String::new(heap);
    let mut reader = Reader::new(bytes);
    while let Ok(Some(record)) = reader.next() {
        writeln!(text, "{record}")?;
    }
    Ok(text)
}

/// The text of an image, loaded into a new processor over 8192 zero words: a line for each record, how many there are,
/// and the protection registers; or the line of the fault.
pub fn list(heap: Global, bytes: &[u8]) -> Result<String, AllocError>
    ensures { IfOk result (λ s. string_bytes s ≡ listing bytes.now) }
{
    let bytes = first(bytes);
    let mut words = [0; 8192];
    let mut processor = Processor::new(Core::new(&mut words));
    let answer = processor.load(bytes);
    let map = processor.protection();
    drop(processor.into_memory());
    match answer {
        Ok(count) => {
            let mut text = records(heap, bytes)?;
            writeln!(text, "{}", LoadedLine(count))?;
            writeln!(text, "{}", MapLine(map))?;
            Ok(text)
        }
        Err(fault) => format!(in heap; "{fault}\n"),
    }
}
