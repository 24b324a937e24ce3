//! Runs over readers and writers of `std::io`, which move few bytes or whole blocks, and fail with each kind of error.
use crate::blocks::BLOCK;
use crate::devices::{Devices, FAULTLESS};
use crate::runs::Given::{Input, Words};
use crate::runs::Run::{self, Failure, Good};
use crate::runs::{
    CANNOT_READ, CANNOT_WRITE, check_bytes, check_count, check_each_read, check_each_write,
    repeated, words_of,
};
use niss_shell::{FromReader, Meter, Source, Target, ToWriter, run};
use std::alloc::Global;
use std::io;
use std::io::Cursor;
use std::process::Abort;

/// Kinds of error that a stream may answer with: none of them is tried again.
const KINDS: &[io::ErrorKind] = &[
    io::ErrorKind::Interrupted,
    io::ErrorKind::WouldBlock,
    io::ErrorKind::BrokenPipe,
    io::ErrorKind::PermissionDenied,
    io::ErrorKind::Other,
];

/// Streams of which no call fails, so that no kind of error is seen.
const STREAMS: Devices<'static> = Devices {
    stream_error: Some(io::ErrorKind::Other),
    ..FAULTLESS
};

#[test]
fn a_cursor_and_lists_are_streams(rt: HostRuntime) {
    let words = words_of(rt.alloc(), &["invert"]).expect(&rt, "memory for words");
    let mut output = Vec::new(rt.alloc());
    let mut error = Vec::new(rt.alloc());
    let status = run(
        rt.alloc(),
        &words,
        &mut FromReader::new(Cursor::new(b"R U\n".as_slice())),
        &mut ToWriter::new(&mut output),
        &mut ToWriter::new(&mut error),
        &mut Meter::new(),
    );
    check_count(&rt, "status", usize::from(status), 0);
    check_bytes(&rt, "output", output.as_slice(), b"U' R'\n");
    check_bytes(&rt, "error", error.as_slice(), b"");
}

/// So many blocks of blanks, and their inverse.
const BLANKS: &[(usize, &[u8])] = &[(0, b""), (1, b"\n"), (2, b"\n"), (3, b"\n")];

/// A reader that fills so many blocks is read to its end, by reads that each ask for a whole block.
#[test]
fn reads_ask_for_whole_blocks(rt: HostRuntime) {
    for (blocks, output) in BLANKS {
        let spaces = repeated(rt.alloc(), " ", blocks.saturating_mul(BLOCK), "");
        let spaces = spaces.expect(&rt, "memory for blocks");
        let devices = Devices {
            most_read: usize::MAX,
            ..STREAMS
        };
        let run = Good(Input(&["invert"], spaces.as_bytes()), output);
        let calls = run.check(&rt, rt.alloc(), devices);
        check_count(&rt, "reads", calls.reads, blocks.saturating_add(1));
        check_count(&rt, "least that a read asks for", calls.least_asked, BLOCK);
        check_count(&rt, "most that a read asks for", calls.most_asked, BLOCK);
    }
}

/// A read of a whole block that fails with this kind of error is not tried again.
fn check_failed_blocks(rt: &impl Abort, alloc: Global, kind: io::ErrorKind) {
    let spaces = repeated(alloc, " ", 4 * BLOCK, "").expect(rt, "memory for blocks");
    for failed_read in 1..4usize {
        let devices = Devices {
            most_read: usize::MAX,
            failed_read: Some(failed_read),
            stream_error: Some(kind),
            ..FAULTLESS
        };
        let run = Failure(Input(&["invert"], spaces.as_bytes()), b"", CANNOT_READ);
        let calls = run.check(rt, alloc, devices);
        check_count(rt, "reads", calls.reads, failed_read);
    }
}

const INVERT: Run<'static> = Good(Words(&["invert", "R U' F2"]), b"F2 U R'\n");

/// Runs `unniss` over 700 empty lines and one that gives 256 words, of which the writer takes all at once, and may fail to
/// flush with this error.
fn check_long_piece(rt: &impl Abort, alloc: Global, flush_fails: bool, kind: io::ErrorKind) {
    let long = repeated(alloc, "Rw' ", 255, "Rw'\n").expect(rt, "memory for a line");
    let lines = repeated(alloc, "\n", 700, &long).expect(rt, "memory for lines");
    let devices = Devices {
        most_read: usize::MAX,
        flush_fails,
        stream_error: Some(kind),
        ..FAULTLESS
    };
    let given = Input(&["unniss"], lines.as_bytes());
    let run = if flush_fails {
        Failure(given, lines.as_bytes(), CANNOT_WRITE)
    } else {
        Good(given, lines.as_bytes())
    };
    check_count(rt, "writes", run.check(rt, alloc, devices).writes, 1);
}

/// A read, a write or a flush that fails with a kind of error is reported and not tried again.
#[test]
fn each_call_of_a_stream_fails_once(rt: HostRuntime) {
    for kind in KINDS {
        let failing = Devices {
            stream_error: Some(*kind),
            ..FAULTLESS
        };
        let outputs: &[&[u8]; 3] = &[b"", b"R'\n", b"R'\nU'\n"];
        check_each_read(&rt, rt.alloc(), &["invert"], outputs, failing);
        check_each_write(&rt, rt.alloc(), INVERT, failing);
        check_failed_blocks(&rt, rt.alloc(), *kind);
        check_long_piece(&rt, rt.alloc(), true, *kind);
        check_long_piece(&rt, rt.alloc(), false, *kind);
    }
}

/// One read for this many bytes is one call of the stream, which may fail.
fn check_read(rt: &impl Abort, buf: &mut [u8], fails: bool) {
    let devices = Devices {
        failed_read: if fails { Some(1) } else { None },
        ..STREAMS
    };
    let asked = buf.len();
    let mut input = devices.source(b"R");
    let answer = FromReader::new(&mut input).read(buf);
    assert!(rt; answer.is_err() == fails);
    check_count(rt, "reads", input.reads, 1);
    check_count(rt, "bytes that a read asks for", input.least_asked, asked);
}

/// Pieces of so many bytes, which of their writes fails, whether the flush after them does, and what is taken.
type Pieces = (
    &'static [&'static [u8]],
    usize,
    Option<usize>,
    bool,
    &'static [u8],
);

/// A call that moves no byte is handed on too, and so is one after a write that failed.
const PIECES: &[Pieces] = &[
    (&[b"R'\n"], 3, None, false, b"R'\n"),
    (&[b"R'\n"], 3, Some(1), true, b""),
    (&[b""], 0, None, false, b""),
    (&[b""], 0, Some(1), true, b""),
    (&[b"R'\n", b"U'\n"], 3, Some(1), false, b"U'\n"),
];

/// Writes pieces and flushes: how many of these writes fail, and whether the flush does.
fn failures<T: Target>(target: &mut T, pieces: &[&[u8]]) -> (usize, bool) {
    let mut failed = 0usize;
    for piece in pieces {
        if target.write(piece).is_err() {
            failed = failed.saturating_add(1);
        }
    }
    (failed, target.flush().is_err())
}

/// Each write and the flush is one call of the stream, and fails if that does.
fn check_writes(rt: &impl Abort, alloc: Global, row: &Pieces) {
    let (pieces, length, failed_write, flush_fails, taken) = *row;
    let devices = Devices {
        failed_write,
        flush_fails,
        ..STREAMS
    };
    let mut out = devices.target(alloc);
    let (failed, flush_failed) = failures(&mut ToWriter::new(&mut out), pieces);
    check_count(
        rt,
        "writes that fail",
        failed,
        usize::from(failed_write.is_some()),
    );
    assert!(rt; flush_failed == flush_fails);
    check_bytes(rt, "pieces", out.bytes.as_slice(), taken);
    check_count(rt, "bytes that a write brings", out.least_brought, length);
    check_count(rt, "writes", out.writes, pieces.len());
    check_count(rt, "flushes", out.flushes, 1);
}

#[test]
fn each_call_is_one_of_the_stream(rt: HostRuntime) {
    for fails in &[false, true] {
        check_read(&rt, &mut [0; 4], *fails);
        check_read(&rt, &mut [], *fails);
    }
    for row in PIECES {
        check_writes(&rt, rt.alloc(), row);
    }
}
