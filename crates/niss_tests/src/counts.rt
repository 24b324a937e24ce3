//! How often runs read and write. What reads gave is answered before the next one, a fault goes out whole in one write, and a
//! target that takes no byte is written to once.
use crate::blocks::BLOCK;
use crate::devices::{Devices, FAULTLESS};
use crate::runs::Given::{Input, Words};
use crate::runs::Run::{self, Failure, Fault, Good, Usage};
use crate::runs::{CANNOT_WRITE, check_count};
use std::alloc::Global;
use std::io;
use std::process::Abort;

/// A run, how many bytes a read and a write move at most, whether the flush fails, and how often it reads, writes and reports.
type Row = (Run<'static>, [usize; 2], bool, [usize; 3]);

const LINES: Run<'static> = Good(Input(&["invert"], b"R\nU\nF\n"), b"R'\nU'\nF'\n");

const NOT_A_MOVE: Run<'static> = Fault(
    Words(&["invert", "R '"]),
    b"",
    b"nissy: line 1, column 3: not a move\n",
);

const ROWS: &[Row] = &[
    (LINES, [1, 99], false, [7, 3, 0]),
    (LINES, [2, 99], false, [4, 3, 0]),
    (LINES, [4, 99], false, [3, 2, 0]),
    (LINES, [BLOCK, 99], false, [2, 1, 0]),
    (NOT_A_MOVE, [1, 99], false, [0, 0, 1]),
    (NOT_A_MOVE, [1, 99], true, [0, 0, 1]),
    (Usage(&[""]), [1, 99], false, [0, 0, 1]),
    (
        Failure(Words(&["invert", "R U' F2"]), b"", CANNOT_WRITE),
        [1, 0],
        false,
        [0, 1, 1],
    ),
    // a read that gives few bytes is followed by one more, up to the one that gives none
    (
        Good(Input(&["invert"], b"R\nU\nF"), b"R'\nU'\nF'\n"),
        [1, 99],
        false,
        [6, 3, 0],
    ),
    (
        Fault(
            Input(&["invert"], b"R\nU\nR '\n"),
            b"R'\nU'\n",
            b"nissy: line 3, column 3: not a move\n",
        ),
        [1, 99],
        false,
        [8, 2, 1],
    ),
];

/// Makes the run over the devices themselves, or over them as streams.
fn check_counts(rt: &impl Abort, alloc: Global, row: &Row, stream_error: Option<io::ErrorKind>) {
    let (run, [most_read, most_written], flush_fails, counts) = *row;
    let devices = Devices {
        most_read,
        most_written,
        flush_fails,
        stream_error,
        ..FAULTLESS
    };
    let calls = run.check(rt, alloc, devices);
    check_count(rt, "reads", calls.reads, counts[0]);
    check_count(rt, "writes", calls.writes, counts[1]);
    check_count(rt, "reports", calls.error_writes, counts[2]);
}

#[test]
fn calls_of_devices_are_counted(rt: HostRuntime) {
    for row in ROWS {
        check_counts(&rt, rt.alloc(), row, None);
        check_counts(&rt, rt.alloc(), row, Some(io::ErrorKind::Other));
    }
}
