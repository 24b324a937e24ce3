//! Whether what stands in a line is all of a scramble.
ghost use Rattle.std.specs.Prelude.{◌≡◌, ◌≤◌, ◌<◌, ◌+◌, true, length, IfSome};

use crate::sights::is_capital;
use crate::sign::{Class, behind, first_kind, one_sign, trimmed};

/// How many bytes a scramble has at least, on one line: those of fifteen moves.
const SCRAMBLE_BYTES: usize = 40;

/// Whether moves from one place of a line to another have as many bytes as a scramble, or more.
pub fn are_long(begin: usize, end: usize) -> bool
    requires { begin ≤ end }
    ensures { (result ≡ true → begin + 40 ≤ end) × (begin + 40 ≤ end → result ≡ true) }
{
    end - begin >= SCRAMBLE_BYTES
}

/// What is after an apostrophe in front of a text, if it is there, from the next letter on, which may be on another line.
#[inline(never)]
fn behind_prime(text: &[u8]) -> Option<&[u8]>
    ensures { IfSome result (λ rest. length rest.now < length text.now) }
{
    if text.is_empty() {
        return None;
    }
    let sign = one_sign(text);
    if sign.kind.is_prime() {
        Some(behind(&text[sign.length..], Class::NoLetters))
    } else {
        None
    }
}

/// The same after a letter with an apostrophe.
#[inline(never)]
fn behind_primed(text: &[u8], letter: u8) -> Option<&[u8]>
    ensures { IfSome result (λ rest. length rest.now < length text.now) }
{
    if text.is_empty() || text[0] != letter {
        return None;
    }
    behind_prime(&text[1..])
}

/// Whether a text begins with the first move of a whole scramble.
pub fn begins_frame(text: &[u8]) -> bool {
    behind_primed(text, b'R').is_some()
}

/// What is after R' U' F in front of a text, if they are there.
#[inline(never)]
fn behind_frame(text: &[u8]) -> Option<&[u8]>
    ensures { IfSome result (λ rest. length rest.now < length text.now) }
{
    let first = behind_primed(text, b'R')?;
    let second = behind_primed(first, b'U')?;
    if second.is_empty() || second[0] != b'F' {
        return None;
    }
    Some(&second[1..])
}

/// Whether one of the bytes is the letter of a turn.
pub fn has_turn(text: &[u8]) -> bool {
    text.iter().any(|byte| is_capital(*byte))
}

/// What is after the first R' U' F of a text.
#[inline(never)]
fn behind_next_frame(text: &[u8]) -> Option<&[u8]>
    ensures { IfSome result (λ rest. length rest.now < length text.now) }
{
    let mut rest = text;
    while !rest.is_empty() {
        if rest[0] == b'R' {
            let behind = behind_frame(rest);
            if behind.is_some() {
                return behind;
            }
        }
        rest = &rest[1..];
    }
    None
}

/// Whether R' U' F stands somewhere in a text.
pub fn has_frame(text: &[u8]) -> bool {
    behind_next_frame(text).is_some()
}

/// Whether R' U' F stands in a text, and no turn after it.
fn ends_with_frame(text: &[u8]) -> bool {
    let mut rest = text;
    while let Some(behind) = behind_next_frame(rest) {
        if !has_turn(behind) {
            return true;
        }
        rest = behind;
    }
    false
}

/// Whether the letter of a turn before a text is all of its move: no apostrophe, w or 2 follows.
pub fn is_whole_move_before(text: &[u8]) -> bool {
    let is_longer = !text.is_empty() && matches!(text[0], b'w' | b'2');
    !first_kind(text).is_prime() && !is_longer
}

/// What is after the first R' U' F of a text in which F is all of its move.
fn behind_first_frame(text: &[u8]) -> Option<&[u8]> {
    let mut rest = text;
    while let Some(behind) = behind_next_frame(rest) {
        if is_whole_move_before(behind) {
            return Some(behind);
        }
        rest = behind;
    }
    None
}

/// Whether all of a scramble stands in a line, which the WCA has begin and end with R' U' F. What stands beside it is at
/// fault, or no move.
pub fn is_whole_scramble(body: &[u8]) -> bool {
    behind_first_frame(body).is_some_and(|rest| behind_first_frame(rest).is_some())
}

/// Whether a text is all of a scramble, before and after which no turn stands.
pub fn is_framed(text: &[u8]) -> bool {
    behind_frame(text).is_some_and(|rest| is_whole_scramble(text) && ends_with_frame(rest))
}

/// Whether a line begins as all of a scramble does, and more turns follow.
pub fn begins_scramble(body: &[u8]) -> bool {
    behind_frame(trimmed(body)).is_some_and(|rest| has_turn(rest))
}

/// Whether R' U' F stands somewhere in a text twice in a row, as if one scramble ends where another begins: an apostrophe
/// between them may be of the words around.
fn has_two_frames(text: &[u8]) -> bool {
    let mut rest = text;
    while let Some(behind) = behind_next_frame(rest) {
        let next = behind_prime(behind).unwrap_or(trimmed(behind));
        if behind_frame(next).is_some() {
            return true;
        }
        rest = behind;
    }
    false
}

/// The letters of the first three turns of a text, and of the last three.
fn letters_at_ends(text: &[u8]) -> ([u8; 3], [u8; 3]) {
    let mut first = [0; 3];
    let mut last = [0; 3];
    for byte in text {
        if is_capital(*byte) {
            last = [last[1], last[2], *byte];
            // three turns fill it
            if first[0] == 0 {
                first = last;
            }
        }
    }
    (first, last)
}

/// Whether moves begin or end with R' U' F, and have the same letters at the other end, where a sign may have been lost.
pub fn is_half_framed(moves: &[u8]) -> bool {
    let (first, last) = letters_at_ends(moves);
    if begins_scramble(moves) {
        last == *b"RUF" && !ends_with_frame(moves)
    } else {
        first == *b"RUF" && ends_with_frame(moves)
    }
}

/// Whether turns stand in a line before or after all of a scramble.
pub fn has_more_than_scramble(body: &[u8]) -> bool {
    match behind_frame(behind(body, Class::NoLetters)) {
        Some(rest) => (has_frame(rest) && !ends_with_frame(rest)) || has_two_frames(rest),
        None => is_whole_scramble(body),
    }
}
