//! The images, each with what it tries.

/// Images that are accepted, and then those that are refused, by the numbers of their refusals.
pub const CASES: [(&str, &[u8]); 29] = [
    ("no bytes", b""),
    ("the end alone", b"\xff"),
    (
        "the first and last address, protection register and register",
        b"\x01\x00\x00\x00\x00\x01\x1f\xff\xff\xff\x02\x00\x00\x00\x02\x0f\xff\xff\x03\x01\x00\x00\x03\x07\xff\xff\xff",
    ),
    (
        "the first and last level, and each state",
        b"\x04\x01\x00\x04\x0f\x01\x04\x08\x02\xff",
    ),
    (
        "every hexadecimal digit",
        b"\x01\x01\x23\x45\x67\x01\x09\xab\xcd\xef\xff",
    ),
    (
        "a later record wins",
        b"\x02\x03\x00\x01\x02\x04\x00\x02\x02\x03\x80\x00\xff",
    ),
    (
        "an end inside a record is no end",
        b"\x01\x00\xff\xff\xff\xff",
    ),
    ("register 0", b"\x03\x00\x00\x00\xff"),
    ("register 8", b"\x01\x00\x00\x00\x00\x03\x08\x00\x00\xff"),
    (
        "protection register 16",
        b"\x04\x01\x01\x02\x10\x00\x00\xff",
    ),
    ("address 8192", b"\x01\x20\x00\x00\x00\xff"),
    ("level 16", b"\x02\x00\x00\x00\x04\x10\x00\xff"),
    ("level 16 in state 3", b"\x04\x10\x03\xff"),
    ("level 0", b"\x04\x00\x01\xff"),
    ("level 0 in state 3", b"\x04\x00\x03\xff"),
    ("kind 0", b"\x00\xff"),
    ("kind 5 and nothing behind it", b"\x05"),
    ("kind 254 behind a record", b"\x03\x07\x00\x00\xfe\xff"),
    ("no end", b"\x01\x00\x00\x00\x00"),
    ("a word cut short", b"\x04\x01\x01\x01\x00\x00\x00"),
    ("a protection register cut short", b"\x02\x00\x00"),
    ("a register cut short", b"\x03"),
    ("a level cut short", b"\x04\x01"),
    ("register 0 cut short: reading comes first", b"\x03\x00\x00"),
    ("an end behind the end", b"\xff\xff"),
    ("bytes behind the end", b"\x04\x01\x01\xff\x00\x00\x00"),
    ("state 3", b"\x04\x01\x03\xff"),
    (
        "a refused record before an unknown kind",
        b"\x03\x00\x00\x00\x05\xff",
    ),
    (
        "an unknown kind before a refused record",
        b"\x05\x03\x00\x00\x00\xff",
    ),
];
