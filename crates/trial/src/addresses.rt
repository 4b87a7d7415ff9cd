//! The effective address at each of the sixteen settings of R, I, X and S.
use crate::start::{Register, SIZE, Start, ZEROS};
use std::{fmt, io};

// Where the instruction stands, its D, and what X1 and X2 hold.
const PLACE: u16 = 0x0200;

const D: u16 = 0x0040;

const FIRST_INDEX: u16 = 0x0300;

const SECOND_INDEX: u16 = 0x0510;

// What the store stores.
const MARK: u16 = 0x5a5a;

// The operation codes.
const BRANCH: u16 = 0x4000;

const STORE: u16 = 0xe000;

// A setting of R, I, X and S, of which S is the low bit.
#[derive(Clone, Copy)]
struct Setting(u8);

impl Setting {
    fn instruction(self, operation: u16) -> u16 {
        operation | u16::from(self.0) << 8 | D
    }
}

impl fmt::Display for Setting {
    fn fmt<W: fmt::Write>(&self, f: &mut fmt::Formatter<W>) -> fmt::Result {
        let bits = self.0;
        write!(
            f,
            "R {}, I {}, X {}, S {}",
            bits >> 3 & 1,
            bits >> 2 & 1,
            bits >> 1 & 1,
            bits & 1
        )
    }
}

// What P is after one instruction, whose store is seen in the words.
fn after(words: &mut [u16], instruction: u16) -> u16 {
    let start = Start {
        registers: &[
            (Register::P, PLACE),
            (Register::X1, FIRST_INDEX),
            (Register::X2, SECOND_INDEX),
            (Register::A, MARK),
        ],
        words: &[
            (PLACE, instruction),
            // Where a reference without X can be: at D, at D + X2, at PLACE + D and at PLACE + D - 256.
            (0x0040, 0x0700),
            (0x0550, 0x0820),
            (0x0240, 0x0930),
            (0x0140, 0x0a40),
        ],
        ..ZEROS
    };
    start.go(words, |processor| {
        let _ = processor.step();
        Register::P.of(processor.registers())
    })
}

// B goes to the effective address, and STA stores there and nowhere else.
fn try_setting(rt: &(impl Print + AllocGlobal), setting: Setting) -> io::Result<()> {
    let branch = setting.instruction(BRANCH);
    let store = setting.instruction(STORE);
    let mut words = vec![in rt.alloc(); 0u16; SIZE]?;
    let went = after(&mut words, branch);
    let mut words = vec![in rt.alloc(); 0u16; SIZE]?;
    let _ = after(&mut words, store);
    print!(rt; "{setting}: 0x{branch:04x} goes to 0x{went:04x}, 0x{store:04x} stores at")?;
    for (address, word) in words.iter().enumerate() {
        if *word == MARK {
            print!(rt; " 0x{address:04x}")?;
        }
    }
    rt.println("")
}

pub(crate) fn run(rt: &(impl Print + AllocGlobal)) -> io::Result<()> {
    println!(rt;
        "an instruction at 0x{PLACE:04x} with D 0x{D:02x}, X1 0x{FIRST_INDEX:04x} and X2 0x{SECOND_INDEX:04x}"
    )?;
    for setting in (0..16).map(Setting) {
        try_setting(rt, setting)?;
    }
    Ok(())
}
