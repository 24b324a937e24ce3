//! Runs whose reads, writes or flushes fail, each in turn.
use crate::blocks::BLOCK;
use crate::devices::{Devices, FAULTLESS};
use crate::runs::Given::{self, Input, Words};
use crate::runs::Run::{self, Failure, Fault, Good};
use crate::runs::{CANNOT_WRITE, STEPS, check_count, check_each_read, check_each_write};
use std::alloc::Global;
use std::process::Abort;

/// Words, and what they write after no line, after one and after two.
type Reads = (&'static [&'static str], [&'static [u8]; 3]);

const READS: &[Reads] = &[
    (&["unniss"], [b"", b"R\n", b"R\nU\n"]),
    (&["invert"], [b"", b"R'\n", b"R'\nU'\n"]),
    (
        &["solve", "eofb", "7"],
        [b"", b"(0)\n\n", b"(0)\n\n(0)\n\n"],
    ),
    (
        &["near", "eofb", "7", "0"],
        [b"", b"(0)\n\n", b"(0)\n\n(0)\n\n"],
    ),
];

#[test]
fn each_read_fails(rt: HostRuntime) {
    for (words, outputs) in READS {
        check_each_read(&rt, rt.alloc(), words, outputs, FAULTLESS);
    }
}

/// A run, how many bytes a read of it gives at most, and what goes out in each write.
#[derive(Clone, Copy)]
struct Writes<'a> {
    given: Given<'a>,
    most_read: usize,
    pieces: &'a [&'a [u8]],
}

/// Each solution goes out by itself as it is found, and so does what stands after the last one.
const WRITES: &[Writes] = &[
    Writes {
        given: Words(&["invert", "R U' F2"]),
        most_read: 1,
        pieces: &[b"F2 U R'\n"],
    },
    Writes {
        given: Words(&["solve", "eofb", "5", "F", "B"]),
        most_read: 1,
        pieces: &[
            b"F B (2)\n",
            b"F B' (2)\n",
            b"F' B (2)\n",
            b"F' B' (2)\n",
            b"\n",
        ],
    },
    Writes {
        given: Words(&["solve", "eofb", "0", "F"]),
        most_read: 1,
        pieces: &[b"no solution within 0 moves\n\n"],
    },
    Writes {
        given: Words(&["count", "eofb", "7", "F"]),
        most_read: 1,
        pieces: &[b"length 1 solutions 2 nodes 20\n"],
    },
    Writes {
        given: Words(&["near", "eofb", "1", "1", ""]),
        most_read: 1,
        pieces: &[
            b"(0)\n",
            b"U (1)\n",
            b"U2 (1)\n",
            b"U' (1)\n",
            b"D (1)\n",
            b"D2 (1)\n",
            b"D' (1)\n",
            b"R (1)\n",
            b"R2 (1)\n",
            b"R' (1)\n",
            b"L (1)\n",
            b"L2 (1)\n",
            b"L' (1)\n",
            b"F2 (1)\n",
            b"B2 (1)\n",
            b"\n",
        ],
    },
    Writes {
        given: Words(&["steps"]),
        most_read: 1,
        pieces: &[STEPS],
    },
    // of two lines read one after the other, what stands after the first answer goes out before the next read
    Writes {
        given: Input(&["solve", "eofb", "7"], b"F\nF B\n"),
        most_read: 1,
        pieces: &[
            b"F (1)\n",
            b"F' (1)\n",
            b"\n",
            b"F B (2)\n",
            b"F B' (2)\n",
            b"F' B (2)\n",
            b"F' B' (2)\n",
            b"\n",
        ],
    },
    // of two lines in one read, it goes out with the next solution
    Writes {
        given: Input(&["solve", "eofb", "7"], b"F\nF B\n"),
        most_read: 6,
        pieces: &[
            b"F (1)\n",
            b"F' (1)\n",
            b"\nF B (2)\n",
            b"F B' (2)\n",
            b"F' B (2)\n",
            b"F' B' (2)\n",
            b"\n",
        ],
    },
];

/// What the first so many writes bring.
fn written(rt: &impl Abort, alloc: Global, pieces: &[&[u8]], writes: usize) -> Vec<u8> {
    let mut written = Vec::new(alloc);
    for piece in pieces.iter().take(writes) {
        written
            .extend_from_slice(piece)
            .expect(rt, "memory for pieces");
    }
    written
}

/// Makes a run whose first write takes no byte: no other follows it.
fn check_nothing_taken(rt: &impl Abort, alloc: Global, given: Given<'_>, devices: Devices<'_>) {
    let full = Devices {
        most_written: 0,
        ..devices
    };
    let calls = Failure(given, b"", CANNOT_WRITE).check(rt, alloc, full);
    check_count(rt, "writes", calls.writes, 1);
}

impl Writes<'_> {
    fn devices(self) -> Devices<'static> {
        Devices {
            most_read: self.most_read,
            ..FAULTLESS
        }
    }

    /// Makes the run in which the write after so many others fails: after all of them there is none.
    fn check_write_after(self, rt: &impl Abort, alloc: Global, before: usize) {
        let brought = written(rt, alloc, self.pieces, before);
        let all = self.pieces.len();
        let run = if before < all {
            Failure(self.given, brought.as_slice(), CANNOT_WRITE)
        } else {
            Good(self.given, brought.as_slice())
        };
        let number = before.saturating_add(1);
        let failing = Devices {
            failed_write: Some(number),
            ..self.devices()
        };
        let calls = run.check(rt, alloc, failing);
        check_count(rt, "writes", calls.writes, number.min(all));
    }

    /// Makes the run with each write of a byte failing in turn, with no byte taken, and with the last flush failing.
    fn check_output(self, rt: &impl Abort, alloc: Global) {
        let output = written(rt, alloc, self.pieces, self.pieces.len());
        let run = Good(self.given, output.as_slice());
        check_each_write(rt, alloc, run, self.devices());
        check_nothing_taken(rt, alloc, self.given, self.devices());
        let run = Failure(self.given, output.as_slice(), CANNOT_WRITE);
        let unflushed = Devices {
            flush_fails: true,
            ..self.devices()
        };
        run.check(rt, alloc, unflushed);
    }
}

#[test]
fn each_write_fails(rt: HostRuntime) {
    for row in WRITES {
        for before in 0..=row.pieces.len() {
            row.check_write_after(&rt, rt.alloc(), before);
        }
        row.check_output(&rt, rt.alloc());
    }
}

/// Runs of which each write of a byte fails in turn: a fault comes after the answers that wait, and a refused write before it.
const BYTEWISE: &[Run] = &[
    Good(
        Words(&["scramble", "42", "54", "3", "2"]),
        b"L' D' F'\nL F' L'\n",
    ),
    Fault(
        Input(&["invert"], b"R\nU\nq\n"),
        b"R'\nU'\n",
        b"nissy: line 3, column 1: not a move\n",
    ),
];

#[test]
fn each_byte_fails(rt: HostRuntime) {
    for run in BYTEWISE {
        let devices = Devices {
            most_read: BLOCK,
            ..FAULTLESS
        };
        check_each_write(&rt, rt.alloc(), *run, devices);
    }
}

const NOT_A_MOVE: &[u8] = b"nissy: line 1, column 3: not a move\n";

/// The error writer takes a byte at a time, and each of its writes fails in turn.
#[test]
fn each_write_of_a_fault_fails(rt: HostRuntime) {
    for taken in 0..NOT_A_MOVE.len() {
        let devices = Devices {
            most_reported: 1,
            failed_report: Some(taken + 1),
            ..FAULTLESS
        };
        Fault(Words(&["invert", "R '"]), b"", &NOT_A_MOVE[..taken]).check(&rt, rt.alloc(), devices);
    }
}
