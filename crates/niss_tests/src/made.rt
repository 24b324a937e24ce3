//! Runs whose words a test makes: of all steps and numbers, and long ones.
use crate::devices::FEW;
use crate::runs::Given::Words;
use crate::runs::Run::Fault;
use crate::runs::{check_words, repeated};
use niss_cube::Step;
use std::alloc::Global;
use std::process::Abort;

/// What a search writes if the step is reached at once.
const REACHED: &[u8] = b"(0)\n\n";

/// What it counts then.
const COUNTED: &[u8] = b"length 0 solutions 1 nodes 1\n";

/// The solved cube has reached each step, which needs its tables to say so.
#[test]
fn each_step_has_its_tables(rt: HostRuntime) {
    for step in Step::all() {
        let words = ["solve", step.name(), "0", ""];
        check_words(&rt, rt.alloc(), &words, REACHED);
    }
}

/// The numbers that a search takes, as words.
const NUMBERS: &[&str] = &[
    "0", "1", "2", "3", "4", "5", "6", "7", "8", "9", "10", "11", "12", "13", "14", "15", "16",
    "17", "18", "19", "20",
];

/// With this limit and this slack the tables are there.
fn check_number(rt: &impl Abort, alloc: Global, number: &str) {
    check_words(rt, alloc, &["solve", "eofb", number, ""], REACHED);
    check_words(rt, alloc, &["count", "eofb", number, ""], COUNTED);
    check_words(rt, alloc, &["near", "eofb", "0", number, ""], REACHED);
    check_words(rt, alloc, &["near", "eofb", number, "0", ""], REACHED);
}

#[test]
fn each_number_has_its_tables(rt: HostRuntime) {
    for number in NUMBERS {
        check_number(&rt, rt.alloc(), number);
    }
}

/// A word of blanks is an empty line.
#[test]
fn words_of_each_length_are_joined(rt: HostRuntime) {
    for length in &[0usize, 1, 15, 16, 255, 256, 4095, 4096, 5000, 65_536] {
        let word = repeated(rt.alloc(), " ", *length, "").expect(&rt, "memory for a word");
        check_words(&rt, rt.alloc(), &["invert", &word], b"\n");
    }
}

#[test]
fn most_moves_are_taken(rt: HostRuntime) {
    let most = repeated(rt.alloc(), "U", 256, "").expect(&rt, "memory for moves");
    let inverses = repeated(rt.alloc(), "U' ", 255, "U'\n").expect(&rt, "memory for moves");
    check_words(&rt, rt.alloc(), &["invert", &most], inverses.as_bytes());
    check_words(&rt, rt.alloc(), &["cleanup", &most], b"\n");
}

/// Checks that a command refuses this line, which has a move too many.
fn check_too_many(rt: &impl Abort, alloc: Global, command: &str, line: &str) {
    let fault = b"nissy: line 1, column 257: more than 256 moves\n";
    Fault(Words(&[command, line]), b"", fault).check(rt, alloc, FEW);
}

#[test]
fn a_move_too_many_is_refused(rt: HostRuntime) {
    let more = repeated(rt.alloc(), "U", 257, "").expect(&rt, "memory for moves");
    check_too_many(&rt, rt.alloc(), "invert", &more);
    check_too_many(&rt, rt.alloc(), "cleanup", &more);
}

#[test]
fn most_scrambles_are_written(rt: HostRuntime) {
    let lines = repeated(rt.alloc(), "\n", 10_000, "").expect(&rt, "memory for lines");
    let words = ["scramble", "1", "2", "0", "10000"];
    check_words(&rt, rt.alloc(), &words, lines.as_bytes());
}
