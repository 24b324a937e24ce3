//! The stretches of a text, each from a word that is the head of a scramble to the next, and which numbers tell the
//! scrambles of one apart.
ghost use Rattle.std.specs.Prelude.{◌≤◌, ◌<◌, length};

use crate::heads::is_parted;
use crate::line::{
    Head, Line, Numbers, cut_line, cut_text, first_line, head_in_front, whole_length,
};
use crate::parts::number_in;
use crate::sign::trimmed;

/// Whether a text has a line that begins the extras of a sheet: E2 is a move too, but not beside E1, which is none.
fn has_extras(text: &[u8]) -> bool {
    let mut rest = text;
    while !rest.is_empty() {
        if begins_extras(trimmed(rest)) {
            return true;
        }
        rest = &rest[whole_length(rest)..];
    }
    false
}

/// Which numbers may tell the scrambles of a text apart.
pub fn listed_numbers(text: &[u8]) -> Numbers {
    if has_extras(text) {
        Numbers::WithExtras
    } else {
        Numbers::Listed
    }
}

/// Whether a line begins with the first extra.
fn begins_extras(line: &[u8]) -> bool {
    line.len() > 1 && line[0] == b'E' && line[1] == b'1' && is_parted(&line[2..])
}

/// The text up to the next word that is the head of a scramble, after moves.
pub fn stretch_length(text: &[u8]) -> usize
    ensures within { result ≤ length text.now }
    ensures some { 0 < length text.now → 0 < result }
{
    let mut rest = text;
    let mut has_moves = false;
    let mut seen = 0;
    while !rest.is_empty() {
        let at = text.len() - rest.len();
        let (line, length) = cut_text(rest);
        // lines are read only if a head follows them
        if at > 0 && head_in_front(line, Numbers::OfLines) == Head::Word {
            has_moves = has_moves || has_open(&text[seen..at]);
            seen = at;
            if has_moves && first_line(rest, Numbers::OfLines).head_kind == Head::Word {
                return at;
            }
        }
        rest = &rest[length..];
    }
    text.len()
}

/// Whether a text has a line of moves that a scramble may follow only in another attempt.
fn has_open(text: &[u8]) -> bool {
    let mut rest = text;
    while !rest.is_empty() {
        let (line, length) = cut_line(rest, Numbers::OfLines);
        if is_open(&line) {
            return true;
        }
        rest = &rest[length..];
    }
    false
}

/// Whether a line has moves that a scramble may follow only in another attempt: a solution may stand before its
/// scramble.
pub fn is_open(line: &Line) -> bool {
    line.is_moves && !line.is_solution
}

/// Whether a number has a sign that no list has.
fn is_marked(head: &[u8]) -> bool {
    head.iter().any(|byte| *byte == b'#' || *byte == b':')
}

/// Whether a line with a number in front of it says that it is a step.
fn has_numbered_step(text: &[u8], numbers: Numbers) -> bool {
    let mut rest = text;
    while !rest.is_empty() {
        // few lines have a number: the others aren't read
        let (line, length) = cut_text(rest);
        if head_in_front(line, numbers) == Head::Number {
            let seen = first_line(line, numbers);
            if seen.head_kind == Head::Number && seen.is_step {
                return true;
            }
        }
        rest = &rest[length..];
    }
    false
}

/// Whether the next number in front of a line of a text, if there is one, is this one.
fn goes_on(text: &[u8], numbers: Numbers, number: usize) -> bool {
    let mut rest = text;
    while !rest.is_empty() {
        let (line, length) = cut_line(rest, numbers);
        if line.head_kind == Head::Number {
            return number_in(&rest[..line.head]) == Some(number);
        }
        rest = &rest[length..];
    }
    false
}

/// Whether numbers in front of lines are those of steps under a scramble, which has the first of them itself: another one
/// has it too, after which this text goes on.
fn are_of_steps(text: &[u8], numbers: Numbers, first: Option<usize>, next: Option<usize>) -> bool {
    next == first && first.is_some_and(|number| goes_on(text, numbers, number.saturating_add(1)))
}

/// Whether the numbers in front of lines tell scrambles apart: two at least have moves, or one that has a sign that no
/// list has; no moves are before the first, and none but the first says that it is a step, or is one by its number.
fn are_listed(text: &[u8], numbers: Numbers) -> bool {
    let mut rest = text;
    let mut is_headed = false;
    let mut is_open = false;
    let mut is_one = false;
    let mut has_own = false;
    let mut number = None;
    let mut first = None;
    while !rest.is_empty() {
        let (line, length) = cut_line(rest, numbers);
        let is_number = line.head_kind == Head::Number;
        if is_number && has_own && line.is_step {
            return false;
        }
        is_headed = is_headed || is_number;
        is_open = is_open || is_number;
        is_one = is_one || (is_number && is_marked(&rest[..line.head]));
        if line.is_moves && !is_headed {
            return false;
        }
        if is_number {
            number = number_in(&rest[..line.head]);
        }
        rest = &rest[length..];
        if line.is_moves && is_open {
            if has_own {
                return !are_of_steps(rest, numbers, first, number)
                    && !has_numbered_step(rest, numbers);
            }
            first = number;
            has_own = true;
            is_open = false;
        }
    }
    has_own && is_one
}

/// Whether a line of a text may begin with a number that tells a scramble from others.
fn has_number(text: &[u8], numbers: Numbers) -> bool {
    let mut rest = text;
    while !rest.is_empty() {
        let (line, length) = cut_text(rest);
        if head_in_front(line, numbers) == Head::Number {
            return true;
        }
        rest = &rest[length..];
    }
    false
}

/// The numbers that tell the scrambles of a stretch apart: these, if they do.
pub fn numbers_of(text: &[u8], listed: Numbers) -> Numbers {
    if has_number(text, listed) && are_listed(text, listed) {
        listed
    } else {
        Numbers::OfLines
    }
}
