//! The image of the hall, as bytes of records.
use crate::hall;
use image::Record;
use std::alloc::{AllocError, Global};

// The byte behind the last record.
const END: u8 = 255;

// A register of a kind, by its number.
fn put_register(bytes: &mut Vec<u8>, kind: u8, number: u8, word: u16) -> Result<(), AllocError> {
    let [high, low] = word.to_be_bytes();
    bytes.extend_from_slice(&[kind, number, high, low])
}

// A record: its kind, and what it holds, of each word the high byte first.
fn put_record(bytes: &mut Vec<u8>, record: Record) -> Result<(), AllocError> {
    match record {
        Record::Word { address, word } => {
            let [page, place] = address.to_be_bytes();
            let [high, low] = word.to_be_bytes();
            bytes.extend_from_slice(&[1, page, place, high, low])
        }
        Record::Protection { number, word } => put_register(bytes, 2, number, word),
        Record::Register { number, word } => put_register(bytes, 3, number, word),
        Record::Level { number, state } => bytes.extend_from_slice(&[4, number, state]),
    }
}

// The tables, and the text, two characters to a word.
fn put_words(bytes: &mut Vec<u8>) -> Result<(), AllocError> {
    let (pairs, _) = hall::TEXT.as_bytes().as_chunks::<2>();
    let text = pairs.iter().map(|pair| u16::from_be_bytes(*pair));
    let words = hall::FOREGROUND
        .into_iter()
        .chain(hall::KEYS)
        .chain(hall::BACKGROUND)
        .chain((hall::TEXT_PLACE..).zip(text));
    for (address, word) in words {
        put_record(bytes, Record::Word { address, word })?;
    }
    Ok(())
}

// Protection register 0, the registers, and the levels that are armed and enabled.
fn put_processor(bytes: &mut Vec<u8>) -> Result<(), AllocError> {
    put_record(
        bytes,
        Record::Protection {
            number: 0,
            word: hall::PAGES,
        },
    )?;
    for (number, word) in hall::REGISTERS {
        put_record(bytes, Record::Register { number, word })?;
    }
    for number in hall::LEVELS {
        put_record(
            bytes,
            Record::Level {
                number,
                state: hall::ARMED_AND_ENABLED,
            },
        )?;
    }
    Ok(())
}

/// All records, and the end.
pub(crate) fn image_bytes(alloc: Global) -> Result<Vec<u8>, AllocError> {
    let mut bytes = Vec::new(alloc);
    put_words(&mut bytes)?;
    put_processor(&mut bytes)?;
    bytes.push(END)?;
    Ok(bytes)
}
