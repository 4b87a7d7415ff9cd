//! Violations, entries, exits and inhibits.
use crate::case::{Act, Case};
use crate::start::Register::{A, P, X1};
use crate::start::{Start, ZEROS};

/// The cases in their order.
pub(crate) const CASES: [Case; 6] = [
    STORE,
    STALL,
    ENTRY_AND_EXIT,
    EXIT_SWITCH_OFF,
    INHIBITED,
    EXTERNAL,
];

// STA 0x00f0 plus X1 0x0110 from page 4, into page 2, which alone is protected.
const STORE: Case = Case {
    name: "0xe2f0 at 0x0400 with X1 0x0110 and A 0x1234, page 2 protected",
    start: Start {
        registers: &[(P, 0x0400), (X1, 0x0110), (A, 0x1234)],
        words: &[(0x0400, 0xe2f0), (0x0200, 0x7777), (0x0100, 0x0600)],
        pages: 0x2000,
        protect: true,
        ..ZEROS
    },
    acts: &[
        Act::Step,
        Act::Word(0x0200),
        Act::Register(P),
        // Level 0 stores PP 0 and P, which is still the place of the violation.
        Act::Step,
        Act::Word(0x0600),
        Act::Word(0x0601),
        Act::Register(P),
    ],
};

// Level 0 begins in page 6, which is not protected, so its first instruction is of the background.
const STALL: Case = Case {
    name: "level 0 violates",
    start: Start {
        registers: &[(P, 0x0400)],
        words: &[
            (0x0100, 0x0600),
            // RD of the status word
            (0x0400, 0x1020),
            // STA 0x0200, by the word at 0x0010
            (0x0602, 0xe410),
            (0x0010, 0x0200),
        ],
        pages: 0x2000,
        protect: true,
        ..ZEROS
    },
    acts: &[
        Act::Step,
        Act::Step,
        Act::Step,
        Act::Step,
        Act::Step,
        Act::Register(P),
    ],
};

// Background in page 4 that level 5, in page 3, breaks into; C is 1 at the entry, 0 inside, and 1 again after the exit.
const ENTRY_AND_EXIT: Case = Case {
    name: "entry and exit of level 5, switch on",
    start: Start {
        registers: &[(P, 0x0400)],
        words: &[
            (0x0105, 0x0300),
            // 0 minus A, where A is 0: C becomes 1
            (0x0400, 0x7dff),
            // BNC 0x0406
            (0x0401, 0x6205),
            // RD of the status word
            (0x0402, 0x1020),
            // A plus Z: C becomes 0
            (0x0302, 0x7c70),
            // WD of the exit mark
            (0x0303, 0x0031),
            // LDX 0x0300
            (0x0304, 0xc9fc),
        ],
        pages: 0x1000,
        levels: &[5],
        protect: true,
        ..ZEROS
    },
    acts: &[
        Act::Step,
        Act::Signal(5),
        Act::Step,
        Act::Word(0x0300),
        Act::Word(0x0301),
        Act::Register(P),
        Act::Step,
        Act::Signal(5),
        Act::Step,
        Act::Step,
        Act::Register(P),
        Act::Step,
        Act::Register(P),
        Act::Step,
    ],
};

// The level clears its first status word, and PP is 1 after the exit all the same.
const EXIT_SWITCH_OFF: Case = Case {
    name: "entry and exit of level 5, switch off",
    start: Start {
        registers: &[(P, 0x0400)],
        words: &[
            (0x0105, 0x0300),
            // 0 minus A, where A is 0: C becomes 1
            (0x0400, 0x7dff),
            // RD of the status word
            (0x0401, 0x1020),
            // STA 0x0300, where A is 0
            (0x0302, 0xe9fe),
            // WD of the exit mark
            (0x0303, 0x0031),
            // LDX 0x0300
            (0x0304, 0xc9fc),
        ],
        pages: 0x1000,
        levels: &[5],
        ..ZEROS
    },
    acts: &[
        Act::Step,
        Act::Signal(5),
        Act::Step,
        Act::Word(0x0300),
        Act::Word(0x0301),
        Act::Step,
        Act::Word(0x0300),
        Act::Step,
        Act::Step,
        Act::Register(P),
        Act::Step,
        Act::Register(A),
    ],
};

// Level 3 is active and blocks level 9 until it sets II, which inhibits levels 2 to 7. Level 9 exits, and level 3 stays active until
// its own exit, where it is the only active level and inhibited; that clears II.
const INHIBITED: Case = Case {
    name: "active level 3 and waiting level 9, II set",
    start: Start {
        registers: &[(P, 0x0400)],
        words: &[
            (0x0103, 0x0300),
            (0x0109, 0x0900),
            // LDA 0x0010, with the bit of II
            (0x0302, 0x8010),
            // WD of the inhibits
            (0x0303, 0x0020),
            (0x0010, 0x0008),
            // RD of the active levels, by the word at 0x0011
            (0x0304, 0x1411),
            (0x0902, 0x1411),
            (0x0011, 0x1002),
            // WD of the exit mark
            (0x0305, 0x0031),
            (0x0903, 0x0031),
            // LDX 0x0300 and LDX 0x0900
            (0x0306, 0xc9fa),
            (0x0904, 0xc9fc),
            // RD of the active levels, and of the status word
            (0x0400, 0x1411),
            (0x0401, 0x1020),
        ],
        levels: &[3, 9],
        ..ZEROS
    },
    acts: &[
        Act::Signal(3),
        Act::Step,
        Act::Signal(9),
        Act::Step,
        Act::Step,
        Act::Step,
        Act::Word(0x0900),
        Act::Word(0x0901),
        Act::Step,
        Act::Register(A),
        // The exit of level 9.
        Act::Step,
        Act::Step,
        Act::Register(P),
        Act::Step,
        Act::Register(A),
        // The exit of level 3.
        Act::Step,
        Act::Step,
        Act::Register(P),
        Act::Step,
        Act::Register(A),
        Act::Step,
        Act::Register(A),
    ],
};

// Level 9 is active and sets EI, which inhibits levels 8 to 15: level 12 is inhibited itself, and level 1 never is.
const EXTERNAL: Case = Case {
    name: "active level 9 and waiting level 12, EI set, then level 1",
    start: Start {
        registers: &[(P, 0x0400)],
        words: &[
            (0x0101, 0x0500),
            (0x0109, 0x0900),
            (0x010c, 0x0c00),
            // LDA 0x0010, with the bit of EI
            (0x0902, 0x8010),
            // WD of the inhibits
            (0x0903, 0x0020),
            // B to itself
            (0x0904, 0x4800),
            (0x0010, 0x0004),
        ],
        levels: &[1, 9, 12],
        ..ZEROS
    },
    acts: &[
        Act::Signal(9),
        Act::Step,
        Act::Signal(12),
        Act::Step,
        Act::Step,
        Act::Step,
        Act::Signal(1),
        Act::Step,
        Act::Word(0x0500),
    ],
};
