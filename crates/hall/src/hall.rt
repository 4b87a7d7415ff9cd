//! What the hall's memory holds: the foreground, its key table, and the print program of the background.

/// The pages that are protected: 1 with the level cells, 3 with the key table and 6 with the foreground.
pub(crate) const PAGES: u16 = 0x5200;

/// The number of P, which holds the place of the next instruction.
pub(crate) const P: u8 = 1;

// The number of X2, the base register.
const X2: u8 = 5;

/// The registers at the start: P is the print program's first instruction, and X2 the base of its line.
pub(crate) const REGISTERS: [(u8, u16); 2] = [(P, 0x0400), (X2, 0x0200)];

/// The levels that are armed and enabled.
pub(crate) const LEVELS: [u8; 2] = [5, 9];

/// The state of those levels.
pub(crate) const ARMED_AND_ENABLED: u8 = 2;

/// The key table.
pub(crate) const KEYS: [(u16, u16); 4] = [
    (0x0300, 0x4b31),
    (0x0301, 0x4b32),
    (0x0302, 0x4b33),
    (0x0303, 0x4b34),
];

/// Where the foreground counts the runs of level 0; those of level k are k words further.
pub(crate) const COUNTS: u16 = 0x0640;

/// Where the print program's line of 16 words begins, just below the key table.
pub(crate) const LINE: u16 = 0x02f0;

/// Where the print program rests once its line is full.
pub(crate) const REST: u16 = 0x0406;

/// The text to print, of 16 words with two characters each.
pub(crate) const TEXT: &str = "THE HALL IS OPEN FROM TEN TO SIX";

/// Where the text stands.
pub(crate) const TEXT_PLACE: u16 = 0x0480;

/// The foreground: each level counts its run and exits.
pub(crate) const FOREGROUND: [(u16, u16); 15] = [
    // The cells of levels 0, 5 and 9: where their status words go, and their code follows.
    (0x0100, 0x0600),
    (0x0105, 0x0620),
    (0x0109, 0x0630),
    // Level 0
    (0x0602, 0xf83e), // IM 0x0640: counts the run
    (0x0603, 0x880e), // LDA 0x0611: where the background is to rest
    (0x0604, 0xe9fd), // STA 0x0601: its P is there when this level has exited
    (0x0605, 0x0031), // WD of the exit mark
    (0x0606, 0xc9fa), // LDX 0x0600: exit
    (0x0611, 0x0406), // the place to rest
    // Level 5
    (0x0622, 0xf823), // IM 0x0645: counts the run
    (0x0623, 0x0031), // WD of the exit mark
    (0x0624, 0xc9fc), // LDX 0x0620: exit
    // Level 9
    (0x0632, 0xf817), // IM 0x0649: counts the run
    (0x0633, 0x0031), // WD of the exit mark
    (0x0634, 0xc9fc), // LDX 0x0630: exit
];

/// The print program, which copies the text into the line. It counts 17 words where the line has 16.
pub(crate) const BACKGROUND: [(u16, u16); 10] = [
    (0x0400, 0xc811), // LDX 0x0411: X1 is 0
    (0x0401, 0x8a7f), // LDA 0x0480 plus X1: a word of the text
    (0x0402, 0xe3f0), // STA 0x00f0 plus X2 plus X1: into the line, whose base 0x02f0 is in page 2
    (0x0403, 0x7d40), // a copy: 1 is added to X1
    (0x0404, 0xf80c), // IM 0x0410: a word less is left, and the last sets C
    (0x0405, 0x63fc), // BNC 0x0401: the next word
    (0x0406, 0x4800), // B 0x0406: rests
    (0x0410, 0xffef), // 17 words to go, one too many
    (0x0411, 0x0000), // 0
    (0x0490, 0x2020), // what stands behind the text: two blanks
];
