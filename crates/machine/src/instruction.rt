//! Instruction words, decoded.
ghost use Rattle.std.specs.Prelude.{◌≡◌};
ghost use Rattle.machine.specs.Decode.{decoded, has_address, relative, transferred};

use levels::{LevelControl, Property, bit_of};

/// The condition of a branch, by its mnemonic.
#[derive(Clone, Copy)]
pub enum Condition {
    /// O is 0.
    Bno,
    /// C is 0.
    Bnc,
    /// A is 0.
    Baz,
    /// X1, counted up, is not 0.
    Bix,
    /// The same, where O is 0.
    Bxno,
    /// The same, where C is 0.
    Bxnc,
    /// E is negative.
    Ben,
    /// A is negative.
    Ban,
}

/// How a copy joins its destination and its source.
#[derive(Clone, Copy)]
pub enum Join {
    And,
    Or,
    ExclusiveOr,
    Add,
}

/// A copy from register to register.
#[derive(Clone, Copy)]
pub struct Transfer {
    pub join: Join,
    pub carry: bool,
    pub plus_one: bool,
    pub clear: bool,
    pub destination: u8,
    pub invert: bool,
    pub source: u8,
}

/// A privileged function of RD.
#[derive(Clone, Copy)]
pub enum ReadFunction {
    /// A protection register.
    Protection(u8),
    /// The first status word.
    Status,
    /// A bit for each level that has a property.
    Levels(Property),
    /// Any other: it sets O and C.
    Unlisted,
}

/// A privileged function of WD.
#[derive(Clone, Copy)]
pub enum WriteFunction {
    /// A protection register.
    Protection(u8),
    /// II and EI.
    Inhibits,
    /// Sets the wait mark.
    Wait,
    /// Sets the exit mark.
    Exit,
    /// A control of the levels whose bits are 1.
    Levels(LevelControl),
    /// Any other: it sets O and C.
    Unlisted,
}

/// An instruction with its effective address, or the target of a branch.
#[derive(Clone, Copy)]
pub enum Instruction {
    /// Loads A.
    Lda(u16),
    /// A and the word.
    And(u16),
    /// Adds the word to A.
    Add(u16),
    /// Takes the word from A.
    Sub(u16),
    /// Loads X1, or exits.
    Ldx(u16),
    /// Stores A.
    Sta(u16),
    /// Adds 1 to the word.
    Im(u16),
    /// Branches.
    B(u16),
    /// Branches on a condition.
    Branch(Condition, u16),
    /// Copies from register to register.
    Copy(Transfer),
    /// RD of a register, which is not privileged.
    ReadRegister(u8),
    /// WD of a register, which is not privileged.
    WriteRegister(u8),
    /// RD of a privileged function.
    Read(ReadFunction, u16),
    /// WD of a privileged function.
    Write(WriteFunction, u16),
    /// A code that is not carried.
    NotCarried,
}

// The codes that have an effective address: bit n from the right is code n's, and 2, 3, 5, 6, 7 and 13 have none.
const ADDRESSED: u16 = 0b1101_1111_0001_0011;

/// Whether the code of an instruction word has an effective address.
#[tactic(auto, using(crate::proofs::Masks::masked))]
pub fn addresses(word: u16) -> bool
    ensures { result ≡ has_address word }
{
    (ADDRESSED >> (word / 4096)) % 2 == 1
}

/// The address i + D - 256 S modulo 65,536, of an instruction word at address i: the reference of R addressing, and the target of a
/// branch. D is bits 8 to 15 of the word, S is bit 7, and no other bit counts. Each step of the sum is made in 16 bits and wraps.
pub fn relative(address: u16, word: u16) -> u16
    ensures { result ≡ relative address word }
{
    let forward = address.wrapping_add(word % 256);
    if bit_of(word, 7) {
        forward.wrapping_sub(256)
    } else {
        forward
    }
}

/// The instruction of a word, of its effective address and of the target that a branch of it has.
pub fn decode(word: u16, address: u16, target: u16) -> Instruction
    ensures { result ≡ decoded word address target }
{
    let bits = word / 512 % 8;
    let joins = word / 1024 % 4;
    let mode = address / 4096;
    let function = address % 4096;
    let number = (address % 16) as u8;
    match word / 4096 {
        0 if mode == 0 && function <= 0x007 => Instruction::WriteRegister(number),
        0 if mode == 0 && matches!(function, 0x010..=0x01f) => {
            Instruction::Write(WriteFunction::Protection(number), address)
        }
        0 if mode == 0 && function == 0x020 => Instruction::Write(WriteFunction::Inhibits, address),
        0 if mode == 0 && function == 0x030 => Instruction::Write(WriteFunction::Wait, address),
        0 if mode == 0 && function == 0x031 => Instruction::Write(WriteFunction::Exit, address),
        0 if mode == 1 && function == 0 => write_levels(LevelControl::Disarm, address),
        0 if mode == 1 && function == 1 => write_levels(LevelControl::Arm, address),
        0 if mode == 1 && function == 2 => write_levels(LevelControl::Disable, address),
        0 if mode == 1 && function == 3 => write_levels(LevelControl::Enable, address),
        0 if mode == 1 && function == 4 => write_levels(LevelControl::Trigger, address),
        0 => Instruction::Write(WriteFunction::Unlisted, address),
        1 if mode == 0 && function <= 0x007 => Instruction::ReadRegister(number),
        1 if mode == 0 && matches!(function, 0x010..=0x01f) => {
            Instruction::Read(ReadFunction::Protection(number), address)
        }
        1 if mode == 0 && function == 0x020 => Instruction::Read(ReadFunction::Status, address),
        1 if mode == 1 && function == 0 => read_levels(Property::Enabled, address),
        1 if mode == 1 && function == 1 => read_levels(Property::Waiting, address),
        1 if mode == 1 && function == 2 => read_levels(Property::Active, address),
        1 => Instruction::Read(ReadFunction::Unlisted, address),
        4 => Instruction::B(address),
        6 if bits == 0 => Instruction::Branch(Condition::Bno, target),
        6 if bits == 1 => Instruction::Branch(Condition::Bnc, target),
        6 if bits == 2 => Instruction::Branch(Condition::Baz, target),
        6 if bits == 3 => Instruction::Branch(Condition::Bix, target),
        6 if bits == 4 => Instruction::Branch(Condition::Bxno, target),
        6 if bits == 5 => Instruction::Branch(Condition::Bxnc, target),
        6 if bits == 6 => Instruction::Branch(Condition::Ben, target),
        6 => Instruction::Branch(Condition::Ban, target),
        7 if joins == 0 => Instruction::Copy(transfer_of(Join::And, word)),
        7 if joins == 1 => Instruction::Copy(transfer_of(Join::Or, word)),
        7 if joins == 2 => Instruction::Copy(transfer_of(Join::ExclusiveOr, word)),
        7 => Instruction::Copy(transfer_of(Join::Add, word)),
        8 => Instruction::Lda(address),
        9 => Instruction::And(address),
        10 => Instruction::Add(address),
        11 => Instruction::Sub(address),
        12 => Instruction::Ldx(address),
        14 => Instruction::Sta(address),
        15 => Instruction::Im(address),
        _ => Instruction::NotCarried,
    }
}

// WD to the levels.
fn write_levels(control: LevelControl, address: u16) -> Instruction
    ensures { result ≡ Instruction.Write (WriteFunction.Levels control) address }
{
    Instruction::Write(WriteFunction::Levels(control), address)
}

// RD of the levels.
fn read_levels(property: Property, address: u16) -> Instruction
    ensures { result ≡ Instruction.Read (ReadFunction.Levels property) address }
{
    Instruction::Read(ReadFunction::Levels(property), address)
}

// The other fields of a copy.
fn transfer_of(join: Join, word: u16) -> Transfer
    ensures { result ≡ transferred join word }
{
    Transfer {
        join,
        carry: bit_of(word, 6),
        plus_one: bit_of(word, 7),
        clear: bit_of(word, 8),
        destination: (word / 16 % 8) as u8,
        invert: bit_of(word, 12),
        source: (word % 8) as u8,
    }
}
