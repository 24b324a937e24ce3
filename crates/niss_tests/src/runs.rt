//! Runs of the engine over devices in memory, and the check of what they write and answer.

use crate::devices::{Bytes, Devices, FEW, Held};
use niss_shell::{FromReader, Meter, ToWriter, run, run_in};
use std::alloc::{AllocError, Global};
use std::cell::Cell;
use std::process::Abort;

/// What is written of wrong words.
const USAGE: &[u8] = b"usage: nissy COMMAND [ARGUMENTS]\n";

/// What `steps` writes.
pub const STEPS: &[u8] =
    b"eofb\neorl\neoud\ndrud-eofb\ndrrl-eofb\ndrud-eorl\ndrfb-eorl\ndrrl-eoud\ndrfb-eoud\neo\ndr-eofb\ndr-eorl\ndr-eoud\n";

/// What is written of an input above the limit.
pub const TOO_LONG: &[u8] = b"nissy: input longer than 16777216 bytes\n";

/// The two shortest edge orientations of the cube after F.
pub const SHORTEST: &[u8] = b"F (1)\nF' (1)\n\n";

pub const CANNOT_READ: &[u8] = b"nissy: cannot read\n";

pub const CANNOT_WRITE: &[u8] = b"nissy: cannot write\n";

pub const OUT_OF_MEMORY: &[u8] = b"nissy: out of memory\n";

pub fn words_of(alloc: Global, texts: &[&str]) -> Result<Vec<String>, AllocError> {
    let mut words = Vec::new(alloc);
    for text in texts {
        words.push(String::from_str(alloc, text)?)?;
    }
    Ok(words)
}

/// Some text, again and again, and what stands after it.
pub fn repeated(alloc: Global, text: &str, count: usize, end: &str) -> Result<String, AllocError> {
    let mut all = String::new(alloc);
    for _ in 0..count {
        all.push_str(text)?;
    }
    all.push_str(end)?;
    Ok(all)
}

/// Checks the bytes that a run wrote, which a failure names so.
pub fn check_bytes(rt: &impl Abort, name: &str, written: &[u8], wanted: &[u8]) {
    assert_eq!(rt; written, wanted, "{name}");
}

/// Checks how often something was done.
pub fn check_count(rt: &impl Abort, what: &str, found: usize, wanted: usize) {
    assert_eq!(rt; found, wanted, "{what}");
}

/// What a run has to write and to answer.
#[derive(Clone, Copy)]
pub struct Outcome<'a> {
    /// What a failure names the run by.
    pub name: &'a str,
    pub output: &'a [u8],
    pub error: &'a [u8],
    pub status: u8,
}

impl Outcome<'_> {
    /// Compares it with what a run answered and what its targets hold. However a run ends, it writes no empty piece, and
    /// its last call of the output is its one flush, which comes before a fault is reported: so the output stands before the
    /// fault if both go to one place.
    pub fn compare(&self, rt: &impl Abort, status: u8, out: &Held<'_>, err: &Held<'_>) {
        check_bytes(rt, self.name, out.bytes.as_slice(), self.output);
        check_bytes(rt, self.name, err.bytes.as_slice(), self.error);
        check_count(rt, self.name, usize::from(status), usize::from(self.status));
        check_count(rt, "flushes", out.flushes, 1);
        assert!(rt; out.flush_tried, "a write after the flush");
        let is_before = out.last < err.last || err.last == 0;
        assert!(rt; is_before, "a fault reported before the flush");
        assert!(rt;
            out.least_brought.min(err.least_brought) > 0,
            "an empty write"
        );
        check_count(rt, "flushes of the error writer", err.flushes, 0);
    }
}

/// What a run answered, the devices that it left, and how many positions it looked at.
#[derive(Drop)]
pub struct Ran<'a> {
    pub status: u8,
    pub input: Bytes<'a>,
    pub out: Held<'a>,
    pub err: Held<'a>,
    pub looks: u128,
}

/// Runs words over such devices.
pub fn run_over<'a>(
    alloc: Global,
    words: &[String],
    input: &'a [u8],
    devices: Devices<'a>,
) -> Ran<'a> {
    let mut input = devices.source(input);
    let mut out = devices.target(alloc);
    let mut err = Devices {
        most_written: devices.most_reported,
        failed_write: devices.failed_report,
        ..devices
    }
    .target(alloc);
    let mut looks = Meter::new();
    let status = match (devices.memory, devices.stream_error) {
        (Some(memory), _) => run_in(memory, words, &mut input, &mut out, &mut err, &mut looks),
        (None, None) => run(alloc, words, &mut input, &mut out, &mut err, &mut looks),
        (None, Some(_)) => run(
            alloc,
            words,
            &mut FromReader::new(&mut input),
            &mut ToWriter::new(&mut out),
            &mut ToWriter::new(&mut err),
            &mut looks,
        ),
    };
    Ran {
        status,
        input,
        out,
        err,
        looks: looks.count(),
    }
}

/// How often a run called its devices, for how many bytes a read asked, and how many positions it looked at.
#[derive(Clone, Copy)]
pub struct Calls {
    pub reads: usize,
    pub least_asked: usize,
    pub most_asked: usize,
    pub writes: usize,
    pub error_writes: usize,
    pub looks: u128,
}

/// What a run is given.
#[derive(Clone, Copy)]
pub enum Given<'a> {
    /// Words alone: what the source would give is left unread.
    Words(&'a [&'a str]),
    /// Words and input.
    Input(&'a [&'a str], &'a [u8]),
}

impl<'a> Given<'a> {
    /// The words, and what the source gives if it is read.
    pub fn parts(self) -> (&'a [&'a str], &'a [u8]) {
        match self {
            Given::Words(words) => (words, b"left".as_slice()),
            Given::Input(words, input) => (words, input),
        }
    }
}

/// A run by how it ends: what it is given, what it writes and the text of its fault. A table of runs is a constant, which a
/// test passes on at little cost.
#[derive(Clone, Copy)]
pub enum Run<'a> {
    Good(Given<'a>, &'a [u8]),
    /// It ends at a line's fault.
    Fault(Given<'a>, &'a [u8], &'a [u8]),
    /// Its words are refused.
    Usage(&'a [&'a str]),
    /// It ends at the limit of input, or if memory or a device fails.
    Failure(Given<'a>, &'a [u8], &'a [u8]),
}

impl<'a> Run<'a> {
    /// What it is given, and its outcome, which has the name of the last word.
    pub fn parts(&self) -> (Given<'a>, Outcome<'a>) {
        let (given, output, error, status) = match *self {
            Run::Good(given, output) => (given, output, b"".as_slice(), 0),
            Run::Fault(given, output, error) => (given, output, error, 1),
            Run::Usage(words) => (Given::Words(words), b"".as_slice(), USAGE, 2),
            Run::Failure(given, output, error) => (given, output, error, 3),
        };
        let (words, _) = given.parts();
        let name = words.last().copied().unwrap_or("");
        let outcome = Outcome {
            name,
            output,
            error,
            status,
        };
        (given, outcome)
    }

    /// Makes it over such devices, and checks what it writes and returns, and that words alone have read nothing.
    pub fn check(&self, rt: &impl Abort, alloc: Global, devices: Devices<'_>) -> Calls {
        let (given, outcome) = self.parts();
        let (words, input) = given.parts();
        let words = words_of(alloc, words).expect(rt, "memory for words");
        let clock = Cell::new(0);
        let timed = Devices {
            clock: Some(&clock),
            ..devices
        };
        let ran = run_over(alloc, &words, input, timed);
        outcome.compare(rt, ran.status, &ran.out, &ran.err);
        if let Given::Words(_) = given {
            check_count(rt, "reads", ran.input.reads, 0);
        }
        let calls = Calls {
            reads: ran.input.reads,
            least_asked: ran.input.least_asked,
            most_asked: ran.input.most_asked,
            writes: ran.out.writes,
            error_writes: ran.err.writes,
            looks: ran.looks,
        };
        drop(ran);
        calls
    }
}

/// Has each read of three lines fail in turn, which are read byte by byte: two reads give a line. These are the outputs
/// after no line, after one and after two.
pub fn check_each_read<'a>(
    rt: &impl Abort,
    alloc: Global,
    words: &'a [&'a str],
    outputs: &'a [&'a [u8]; 3],
    devices: Devices<'_>,
) {
    for before in 0..6usize {
        let failing = Devices {
            most_read: 1,
            failed_read: Some(before + 1),
            ..devices
        };
        let given = Given::Input(words, b"R\nU\nF");
        let run = Run::Failure(given, outputs[before / 2], CANNOT_READ);
        let calls = run.check(rt, alloc, failing);
        check_count(rt, "reads", calls.reads, before + 1);
    }
}

/// Has each write of a byte of the output fail in turn, and none at last.
pub fn check_each_write(rt: &impl Abort, alloc: Global, run: Run<'_>, devices: Devices<'_>) {
    let (given, outcome) = run.parts();
    let bytewise = Devices {
        most_written: 1,
        ..devices
    };
    for before in 0..outcome.output.len() {
        let failing = Devices {
            failed_write: Some(before + 1),
            ..bytewise
        };
        let cut = Run::Failure(given, &outcome.output[..before], CANNOT_WRITE);
        let calls = cut.check(rt, alloc, failing);
        check_count(rt, "writes", calls.writes, before + 1);
    }
    let calls = run.check(rt, alloc, bytewise);
    check_count(rt, "writes", calls.writes, outcome.output.len());
}

/// Makes each of these runs, by calls that move few bytes.
pub fn check_runs(rt: &impl Abort, alloc: Global, runs: &[Run<'_>]) {
    for run in runs {
        run.check(rt, alloc, FEW);
    }
}

/// Checks that words write this, by calls that move few bytes.
pub fn check_words<'a>(rt: &impl Abort, alloc: Global, words: &'a [&'a str], output: &'a [u8]) {
    Run::Good(Given::Words(words), output).check(rt, alloc, FEW);
}

/// Makes each of these runs, and checks how many positions each of them looks at.
pub fn check_looks(rt: &impl Abort, alloc: Global, runs: &[(Run<'_>, u128)]) {
    for (run, looks) in runs {
        let calls = run.check(rt, alloc, FEW);
        assert!(rt; calls.looks == *looks);
    }
}
