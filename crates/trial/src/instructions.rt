//! Instructions at 0x0200 with the protect switch off. RD of the status word, 0x1020, then shows O and C.
use crate::case::{Act, Case};
use crate::start::Register::{A, L, P, T, X1};
use crate::start::{Start, ZEROS};

// The instruction, the register that it sets, O and C, and P.
const IN_A: &[Act] = &[
    Act::Step,
    Act::Register(A),
    Act::Step,
    Act::Flags,
    Act::Register(P),
];

const IN_L: &[Act] = &[
    Act::Step,
    Act::Register(L),
    Act::Step,
    Act::Flags,
    Act::Register(P),
];

const IN_X1: &[Act] = &[Act::Step, Act::Register(X1), Act::Register(P)];

/// The cases, each with its instruction and what it starts from.
pub(crate) const CASES: [Case; 13] = [
    // OR, N, to A, inverted, from A: the inverse of A.
    Case {
        name: "0x74ff with A 0x1234",
        start: Start {
            registers: &[(P, 0x0200), (A, 0x1234)],
            words: &[(0x0200, 0x74ff), (0x0201, 0x1020)],
            ..ZEROS
        },
        acts: IN_A,
    },
    // ADD, J, N, to A, inverted, from A: 0 minus A, which 0x8000 has no room for.
    Case {
        name: "0x7dff with A 0x8000",
        start: Start {
            registers: &[(P, 0x0200), (A, 0x8000)],
            words: &[(0x0200, 0x7dff), (0x0201, 0x1020)],
            ..ZEROS
        },
        acts: IN_A,
    },
    // 0xffff and 1 carry.
    Case {
        name: "0x7dff with A 0x0000",
        start: Start {
            registers: &[(P, 0x0200), (A, 0x0000)],
            words: &[(0x0200, 0x7dff), (0x0201, 0x1020)],
            ..ZEROS
        },
        acts: IN_A,
    },
    // 0 is below 1, so it borrows.
    Case {
        name: "SUB with A 0x0000 and W 0x0001",
        start: Start {
            registers: &[(P, 0x0200), (A, 0x0000)],
            words: &[(0x0200, 0xb010), (0x0201, 0x1020), (0x0010, 0x0001)],
            ..ZEROS
        },
        acts: IN_A,
    },
    // 0x7fff and 1 leave the signed range, and do not carry.
    Case {
        name: "ADD with A 0x7fff and W 0x0001",
        start: Start {
            registers: &[(P, 0x0200), (A, 0x7fff)],
            words: &[(0x0200, 0xa010), (0x0201, 0x1020), (0x0010, 0x0001)],
            ..ZEROS
        },
        acts: IN_A,
    },
    // R and S: 0x0200 + 0xff - 0x100.
    Case {
        name: "0x89ff at 0x0200, with 0x7777 at 0x01ff",
        start: Start {
            registers: &[(P, 0x0200)],
            words: &[(0x0200, 0x89ff), (0x01ff, 0x7777)],
            ..ZEROS
        },
        acts: &[Act::Step, Act::Register(A), Act::Register(P)],
    },
    // BIX to 0x0205: X1 becomes 0, so it does not branch.
    Case {
        name: "BIX 0x6605 with X1 0xffff",
        start: Start {
            registers: &[(P, 0x0200), (X1, 0xffff)],
            words: &[(0x0200, 0x6605)],
            ..ZEROS
        },
        acts: IN_X1,
    },
    // X1 becomes 0xffff, so it branches.
    Case {
        name: "BIX 0x6605 with X1 0xfffe",
        start: Start {
            registers: &[(P, 0x0200), (X1, 0xfffe)],
            words: &[(0x0200, 0x6605)],
            ..ZEROS
        },
        acts: IN_X1,
    },
    // OR, N, to A, from Z: A is cleared.
    Case {
        name: "0x74f0 with A 0x1234",
        start: Start {
            registers: &[(P, 0x0200), (A, 0x1234)],
            words: &[(0x0200, 0x74f0), (0x0201, 0x1020)],
            ..ZEROS
        },
        acts: IN_A,
    },
    // ADD to A, inverted, from Z: 0xffff is added, so 1 is taken, and it carries.
    Case {
        name: "0x7c78 with A 0x1234",
        start: Start {
            registers: &[(P, 0x0200), (A, 0x1234)],
            words: &[(0x0200, 0x7c78), (0x0201, 0x1020)],
            ..ZEROS
        },
        acts: IN_A,
    },
    // ADD, J, to A, inverted, from T: 0x1234 + 0xfffc + 1.
    Case {
        name: "0x7d7b with A 0x1234 and T 0x0003",
        start: Start {
            registers: &[(P, 0x0200), (T, 0x0003), (A, 0x1234)],
            words: &[(0x0200, 0x7d7b), (0x0201, 0x1020)],
            ..ZEROS
        },
        acts: IN_A,
    },
    // OR, J, N, to L, from P: P is already 0x0201.
    Case {
        name: "0x75a1 at 0x0200",
        start: Start {
            registers: &[(P, 0x0200)],
            words: &[(0x0200, 0x75a1), (0x0201, 0x1020)],
            ..ZEROS
        },
        acts: IN_L,
    },
    // A code that is not carried: P goes on, and nothing else changes.
    Case {
        name: "0xd010 with A 0x1234",
        start: Start {
            registers: &[(P, 0x0200), (A, 0x1234)],
            words: &[(0x0200, 0xd010), (0x0201, 0x1020)],
            ..ZEROS
        },
        acts: IN_A,
    },
];
