//! The story of a hall whose keys a print program reaches, with the protect switch on and with it off.
#![tactic(auto)]

mod hall;
mod image_bytes;
mod sentence;
mod tell;

use engine::{Idle, Processor};
use memory::Core;
use std::io;
use tell::Teller;

// Loads the image.
fn load(rt: &(impl Print + AllocGlobal), idle: &mut Processor<Idle, Core<'_>>) -> io::Result<()> {
    let bytes = image_bytes::image_bytes(rt.alloc())?;
    match idle.load(bytes.as_slice()) {
        Ok(count) => println!(rt; "An image of {count} records is loaded."),
        Err(fault) => println!(rt; "The image is refused by {}.", fault.cause.number()),
    }
}

// The story from the image to the halt, with the protect switch on or off.
fn story(rt: &(impl Print + AllocGlobal), protect: bool) -> io::Result<()> {
    let mut words = vec![in rt.alloc(); 0u16; 8192]?;
    let mut idle = Processor::new(Core::new(&mut words));
    let loaded = load(rt, &mut idle);
    let mut processor = idle.go(protect);
    let mut teller = Teller {
        rt,
        processor: &mut processor,
    };
    let told = teller.tell();
    let _ = processor.halt().into_memory();
    loaded?;
    told
}

fn main(rt: HostRuntime) -> io::Result<()> {
    rt.println("The protect switch is on.")?;
    story(&rt, true)?;
    rt.println("The protect switch is off.")?;
    story(&rt, false)
}
