//! Wrong words: each has its fault, in the order in which faults are looked for.
use crate::devices::FEW;
use crate::runs::Run::Usage;
use crate::runs::words_of;
use niss_shell::UsageFault::{self, BadNumber, NoCommand, UnknownCommand, UnknownStep, WrongCount};
use niss_shell::parse_words;

type Row = (&'static [&'static str], UsageFault);

const ROWS: &[Row] = &[
    (&[], NoCommand),
    (&[""], UnknownCommand),
    (&["turn", "R"], UnknownCommand),
    (&["Invert", "R"], UnknownCommand),
    (&["steps", ""], WrongCount),
    (&["steps", "eofb"], WrongCount),
    (&["solve"], WrongCount),
    (&["solve", "htr"], WrongCount),
    (&["solve", "eofb"], WrongCount),
    (&["count", "eofb"], WrongCount),
    // the step is judged before the number
    (&["solve", "htr", "x"], UnknownStep),
    (&["count", "Eofb", "21"], UnknownStep),
    (&["solve", "htr", "3", "F"], UnknownStep),
    (&["solve", "EOFB", "3", "F"], UnknownStep),
    (&["count", "", "3", "F"], UnknownStep),
    (&["solve", "eofb", "21", "F"], BadNumber),
    (&["solve", "eofb", "+3", "F"], BadNumber),
    (&["count", "eofb", "+3", "F"], BadNumber),
    (&["solve", "eofb", "-3", "F"], BadNumber),
    (&["solve", "eofb", "", "F"], BadNumber),
    (&["solve", "eofb", "3 ", "F"], BadNumber),
    (&["count", "eofb", "18446744073709551617", "F"], BadNumber),
    (&["near"], WrongCount),
    (&["near", "eofb"], WrongCount),
    (&["near", "htr", "x"], WrongCount),
    (&["near", "eofb", "5"], WrongCount),
    // the step is judged before the numbers
    (&["near", "nostep", "x", "y"], UnknownStep),
    (&["near", "5", "5", "eofb", "F"], UnknownStep),
    (&["near", "htr", "5", "5", "F"], UnknownStep),
    (&["near", "htr", "21", "5", "F"], UnknownStep),
    // a move in the place of the slack
    (&["near", "eofb", "5", "F"], BadNumber),
    (&["near", "eofb", "5", "21", "F"], BadNumber),
    (&["near", "eofb", "21", "5", "F"], BadNumber),
    (&["near", "eofb", "", "5", "F"], BadNumber),
    (&["near", "eofb", "5", "", "F"], BadNumber),
    (&["near", "eofb", "x", "y"], BadNumber),
    (&["scramble"], WrongCount),
    (&["scramble", "1", "2", "3"], WrongCount),
    (&["scramble", "1 2", "3", "4"], WrongCount),
    (&["scramble", "1", "2", "3", "4", "5"], WrongCount),
    (&["scramble", "1", "2", "3", "x", "5"], WrongCount),
    (
        &["scramble", "18446744073709551616", "2", "3", "4"],
        BadNumber,
    ),
    (
        &["scramble", "1", "18446744073709551616", "3", "4"],
        BadNumber,
    ),
    (&["scramble", "1", "2", "257", "1"], BadNumber),
    (&["scramble", "1", "2", "257", "4"], BadNumber),
    (&["scramble", "1", "2", "3", "10001"], BadNumber),
    (&["scramble", "", "2", "3", "4"], BadNumber),
    (&["scramble", "1", "+2", "3", "4"], BadNumber),
    (&["scramble", "1", "2", "-3", "4"], BadNumber),
    (&["scramble", "1", "2", "3", "4 "], BadNumber),
    (&["scramble", "1", "2", "0x3", "4"], BadNumber),
    (&["scramble", "1", "2", "3", "\u{664}"], BadNumber),
];

/// Words that are refused have this fault, and a run of them says how the program is used.
#[test]
fn wrong_words_have_their_faults(rt: HostRuntime) {
    for (texts, fault) in ROWS {
        let words = words_of(rt.alloc(), texts).expect(&rt, "memory for words");
        let name = texts.last().copied().unwrap_or("no words");
        let Err(found) = parse_words(&words) else {
            panic!(&rt; "{name} has no fault")
        };
        assert!(&rt; found == *fault, "{name}");
        Usage(texts).check(&rt, rt.alloc(), FEW);
    }
}
