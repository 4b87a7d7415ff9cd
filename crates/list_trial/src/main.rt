//! Prints the listings of images that try each rule.
#![tactic(auto)]

use cases::CASES;
use std::alloc::{AllocError, Global};
use std::io;

mod cases;

// A record that is repeated, and the bytes that follow.
fn long(heap: Global, record: &[u8], times: usize, end: &[u8]) -> Result<Vec<u8>, AllocError> {
    let mut bytes = record.repeat(heap, times)?;
    bytes.extend_from_slice(end)?;
    Ok(bytes)
}

// The last two lines of a listing, and what the check says of all the bytes.
fn show(rt: &HostRuntime, name: &str, bytes: &[u8]) -> io::Result<()> {
    let text = listing::list(rt.alloc(), bytes)?;
    let lines = text.as_str().lines().count();
    rt.println(name)?;
    for line in text.as_str().lines().skip(lines.saturating_sub(2)) {
        rt.println(line)?;
    }
    match image::check(bytes, 8192) {
        Ok(count) => println!(rt; "uncut: {count} records"),
        Err(fault) => println!(rt; "uncut: {fault}"),
    }
}

fn main(rt: HostRuntime) -> io::Result<()> {
    let heap = rt.alloc();
    for (name, bytes) in CASES {
        rt.println(name)?;
        rt.print(listing::list(heap, bytes)?)?;
    }
    let word = [1, 31, 255, 0, 0];
    let exact = long(heap, &word, 13107, &[255])?;
    show(&rt, "65536 bytes", exact.as_slice())?;
    let more = long(heap, &word, 13107, &[255, 0])?;
    show(&rt, "65536 bytes and one more", more.as_slice())?;
    let late = long(heap, &[2, 5, 0, 7], 16384, &[255])?;
    show(&rt, "the end behind 65536 bytes", late.as_slice())
}

#[cfg(test)]
mod tests {
    use image::Record;
    use std::alloc::AllocError;
    use std::io;

    #[test]
    fn a_record_has_its_line(rt: HostRuntime) -> Result<(), AllocError> {
        let record = Record::Level {
            number: 15,
            state: 2,
        };
        let line = format!(in rt.alloc(); "{record}")?;
        assert_eq!(rt; line.as_str(), "level 15 enabled");
        Ok(())
    }

    #[test]
    fn a_listing_is_given(rt: HostRuntime) -> Result<(), AllocError> {
        let text = listing::list(rt.alloc(), b"\x02\x01\x12\x34\xff")?;
        let lines =
            "protection 1 1234\nloaded 1 records\nmap 0000 1234 0000 0000 0000 0000 0000 0000 0000 0000 0000 0000 0000 0000 0000 0000\n";
        assert_eq!(rt; text.as_str(), lines);
        Ok(())
    }

    #[test]
    fn the_bytes_of_a_reader_are_given(rt: HostRuntime) -> io::Result<()> {
        let image = [3, 7, 255];
        let bytes = listing::read_image(rt.alloc(), image.as_slice())?;
        assert_eq!(rt; bytes.as_slice(), image.as_slice());
        Ok(())
    }
}
