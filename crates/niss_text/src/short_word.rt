//! Words of a line that are told by a few bytes: a move by itself, a letter or a digit.
ghost use Rattle.std.specs.Prelude.{◌≡◌, ◌≤◌, ◌<◌, ◌==◌, ◌||◌, true, false, length, drop, IfSome, IsSome};
ghost use Rattle.niss_text.specs.Doubts.{is_capital};
ghost use Rattle.niss_text.specs.Kept.{is_over, begins_with_move};
ghost use Rattle.niss_text.specs.declared.word.Word.TheVariants.{Move};

use crate::forms::mark_length;
use crate::spelling::{is_capital_move, is_small_move};
use crate::word::Word;

/// Whether a text ends at a place, or has a blank there.
fn ends_word(text: &[u8], at: usize) -> bool
    ensures within { result ≡ false → at < length text.now }
    ensures is { result ≡ is_over (drop at text.now) }
{
    if at >= text.len() {
        return true;
    }
    text[at] == b' '
}

/// Whether a move may begin with a byte.
fn begins_move(byte: u8) -> bool
    ensures { is_capital byte ≡ true → result ≡ true }
{
    is_capital_move(byte) || is_small_move(byte)
}

/// Whether a byte may stand after the letter of a move and end it.
fn ends_move(byte: u8) -> bool
    ensures { result ≡ ((byte == 50) || (byte == 39)) }
{
    byte == b'2' || byte == b'\''
}

/// How many bytes a move has in front of a text that is a word by itself; else 0.
fn move_length(text: &[u8]) -> usize
    requires { 0 < length text.now }
    ensures fits { result ≤ length text.now }
    ensures some { begins_with_move text.now ≡ true → 0 < result }
{
    if !begins_move(text[0]) {
        return 0;
    }
    if ends_word(text, 1) {
        return 1;
    }
    if ends_move(text[1]) && ends_word(text, 2) {
        2
    } else {
        signed_length(text)
    }
}

/// How many bytes U+2019 or an apostrophe of ASCII has in front of a text; else 0.
fn prime_length(text: &[u8]) -> usize
    ensures { result ≤ length text.now }
{
    if text.len() > 2 && text[0] == 0xe2 && text[1] == 0x80 && text[2] == 0x99 {
        3
    } else {
        mark_length(text, b'\'')
    }
}

/// The same of a move with several signs, or with an apostrophe beyond ASCII, such as `Rw2` or `R2’`.
fn signed_length(text: &[u8]) -> usize
    requires { 0 < length text.now }
    ensures { result ≤ length text.now }
{
    let wide = if is_capital_move(text[0]) {
        1 + mark_length(&text[1..], b'w')
    } else {
        1
    };
    let half = wide + mark_length(&text[wide..], b'2');
    let end = half + prime_length(&text[half..]);
    if ends_word(text, end) { end } else { 0 }
}

/// A word in front of a text that is one letter or digit, or one move, and how many bytes it has: most words are.
pub fn short_word(text: &[u8]) -> Option<(Word, usize)>
    requires { 0 < length text.now }
    ensures fits { IfSome result (λ word. (0 < word.1) × (word.1 ≤ length text.now)) }
    ensures some { begins_with_move text.now ≡ true → IsSome result }
    ensures single { IfSome result (λ word. begins_with_move text.now ≡ true → word.0 ≡ Move) }
{
    let length = move_length(text);
    if length > 0 {
        return Some((Word::Move, length));
    }
    if !ends_word(text, 1) {
        return None;
    }
    match text[0] {
        b'A'..=b'Z' | b'a'..=b'z' => Some((Word::Other, 1)),
        b'2' | b'3' => Some((Word::Number, 1)),
        b'0'..=b'9' => Some((Word::Total, 1)),
        _ => None,
    }
}
