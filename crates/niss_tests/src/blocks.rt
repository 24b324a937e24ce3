//! Input that is read in blocks: how often it is read, and how often written.
use crate::devices::{Devices, FAULTLESS};
use crate::runs::Given::Input;
use crate::runs::Run::{Fault, Good};
use crate::runs::{check_count, repeated};
use std::alloc::Global;
use std::process::Abort;

/// How many bytes a read asks for.
pub const BLOCK: usize = 4096;

/// Runs `invert` over many lines, of which a read gives at most so many bytes: it takes so many reads.
#[test]
fn reads_of_many_lines_are_counted(rt: HostRuntime) {
    let input = repeated(rt.alloc(), "R U'\n", 3000, "").expect(&rt, "memory for input");
    let output = repeated(rt.alloc(), "U R'\n", 3000, "").expect(&rt, "memory for output");
    let run = Good(Input(&["invert"], input.as_bytes()), output.as_bytes());
    for (most_read, wanted) in &[(1usize, 15_001usize), (7, 2_144), (BLOCK, 5)] {
        let devices = Devices {
            most_read: *most_read,
            most_written: 1000,
            ..FAULTLESS
        };
        let calls = run.check(&rt, rt.alloc(), devices);
        check_count(&rt, "reads", calls.reads, *wanted);
    }
}

/// So many blanks and a text, what `invert` writes of them, and their fault, if they have one.
type Padded = (usize, &'static str, &'static [u8], &'static [u8]);

/// What is cut by the end of the first block is read as one, and a fault may stand after it.
const PADDED: &[Padded] = &[
    (4092, "R U\nF'\n", b"U' R'\nF\n", b""),
    (4092, "R U\n", b"U' R'\n", b""),
    (4093, "R U", b"U' R'\n", b""),
    (4095, "R2\n", b"R2\n", b""),
    (4094, "R\r\nU\r\n", b"R'\nU'\n", b""),
    (4095, "R\u{2019} U\n", b"U' R\n", b""),
    (4094, "R\u{2019} U\n", b"U' R\n", b""),
    (4093, "R\u{2019} U\n", b"U' R\n", b""),
    (
        4096,
        "q\n",
        b"",
        b"nissy: line 1, column 4097: not a move\n",
    ),
];

/// The same, whether a read gives a byte or a block.
fn check_padded(rt: &impl Abort, alloc: Global, row: &Padded) {
    let (blanks, text, output, fault) = *row;
    let input = repeated(alloc, " ", blanks, text).expect(rt, "memory for input");
    let given = Input(&["invert"], input.as_bytes());
    let run = if fault.is_empty() {
        Good(given, output)
    } else {
        Fault(given, output, fault)
    };
    for most_read in &[1, BLOCK] {
        let devices = Devices {
            most_read: *most_read,
            ..FAULTLESS
        };
        run.check(rt, alloc, devices);
    }
}

#[test]
fn a_block_ends_anywhere(rt: HostRuntime) {
    for row in PADDED {
        check_padded(&rt, rt.alloc(), row);
    }
}
