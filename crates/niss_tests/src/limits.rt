//! Input at its limit and above it, as words and from a reader.
use crate::blocks::BLOCK;
use crate::devices::{Devices, FAULTLESS};
use crate::refused_growths::check_first_refused;
use crate::runs::Given::{Input, Words};
use crate::runs::Run::{Failure, Good};
use crate::runs::{Outcome, TOO_LONG, repeated, words_of};
use niss_shell::{FromReader, Meter, run};
use std::alloc::Global;
use std::io;
use std::process::Abort;

const LIMIT: usize = 16_777_216;

// the line feed that ends the words counts too
#[test]
fn words_at_the_limit_are_taken(rt: HostRuntime) {
    let spaces = repeated(rt.alloc(), " ", LIMIT - 1, "").expect(&rt, "memory for words");
    Good(Words(&["invert", &spaces]), b"\n").check(&rt, rt.alloc(), FAULTLESS);
}

// no growth is asked for if the words are too many
#[test]
fn words_above_the_limit_are_refused(rt: HostRuntime) {
    let spaces = repeated(rt.alloc(), " ", LIMIT, "").expect(&rt, "memory for words");
    let run = Failure(Words(&["invert", &spaces]), b"", TOO_LONG);
    run.check(&rt, rt.alloc(), FAULTLESS);
    check_first_refused(&rt, rt.alloc(), run);
}

/// Makes a run over so many blanks, byte by byte and by blocks.
fn check_blanks(rt: &impl Abort, alloc: Global, count: usize) {
    let spaces = repeated(alloc, " ", count, "").expect(rt, "memory for blanks");
    let given = Input(&["invert"], spaces.as_bytes());
    let run = if count > LIMIT {
        Failure(given, b"", TOO_LONG)
    } else {
        Good(given, b"\n")
    };
    for most_read in &[1, BLOCK] {
        let devices = Devices {
            most_read: *most_read,
            ..FAULTLESS
        };
        run.check(rt, alloc, devices);
    }
}

#[test]
fn blanks_are_read_up_to_the_limit(rt: HostRuntime) {
    check_blanks(&rt, rt.alloc(), LIMIT);
    check_blanks(&rt, rt.alloc(), LIMIT + 1);
}

/// The line has more than 256 moves, but its end was never read.
#[test]
fn moves_without_an_end_are_refused(rt: HostRuntime) {
    let words = words_of(rt.alloc(), &["invert"]).expect(&rt, "memory for words");
    let mut out = FAULTLESS.target(rt.alloc());
    let mut err = FAULTLESS.target(rt.alloc());
    let status = run(
        rt.alloc(),
        &words,
        &mut FromReader::new(io::repeat(b'R')),
        &mut out,
        &mut err,
        &mut Meter::new(),
    );
    let refused = Outcome {
        name: "moves without an end",
        output: b"",
        error: TOO_LONG,
        status: 3,
    };
    refused.compare(&rt, status, &out, &err);
}
