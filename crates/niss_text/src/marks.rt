//! Signs by which solvers have moves made several times, or put into others: of a number of times, and marks; and letters
//! that may be of the words after moves.
ghost use Rattle.std.specs.Prelude.{◌≡◌, ◌≤◌, ◌<◌, length, IfSome};
ghost use Rattle.niss_text.specs.Titles.{is_bullet};

use crate::body::has_turn;
use crate::sights::{byte_at, is_letter};
use crate::sign::{Class, is_digit_byte, length_of, trimmed};
use crate::word::has_three_moves;
use crate::words::{has_axis, is_end_name, is_step_name, names_place};

/// Whether a text begins with a number of times, such as `x2` or `2x`, and not with a block, such as `2x2x3`.
fn begins_times(text: &[u8]) -> bool {
    if text.len() < 2 {
        return false;
    }
    let (first, second) = (text[0], text[1]);
    let is_before = matches!(first, b'x' | b'X' | b'*') && is_digit_byte(second);
    let is_behind = is_digit_byte(first) && matches!(second, b'x' | b'X');
    let is_block = text.len() > 2 && is_digit_byte(text[2]);
    is_before || (is_behind && !is_block)
}

/// Where a comment, which begins with two slashes if there is one, says that moves are made several times.
pub fn times_said(comment: &[u8]) -> Option<usize>
    ensures { IfSome result (λ at. at ≤ length comment.now) }
{
    if comment.len() < 3 {
        return None;
    }
    let words = trimmed(&comment[2..]);
    if !begins_times(words) {
        return None;
    }
    Some(comment.len() - words.len())
}

/// Whether a comment, which begins with two slashes if there is one, is nothing but turns of the cube: it may be held so.
fn is_hold(comment: &[u8]) -> bool {
    let words = trimmed(&comment[comment.len().min(2)..]);
    words.len() < 16
        && begins_hold(words)
        && words.iter().all(|byte| {
            matches!(
                *byte,
                b'x' | b'y' | b'z' | b'2' | b'3' | b'\'' | b' ' | b'(' | b')'
            )
        })
}

/// Whether a text begins with a turn of the cube, or with a bracket.
fn begins_hold(text: &[u8]) -> bool {
    !text.is_empty() && matches!(text[0], b'x' | b'y' | b'z' | b'(')
}

/// Whether a comment has moves that may belong to those before it: three or more, or turns of the cube by themselves.
pub fn has_moves_aside(comment: &[u8]) -> bool {
    has_three_moves(comment) || is_hold(comment)
}

/// Where the last word of some moves begins, as blanks part them.
#[inline(never)]
pub fn last_word(moves: &[u8]) -> usize
    ensures { result ≤ length moves.now }
{
    let mut begin = 0;
    let mut is_parted = true;
    for (at, byte) in moves.iter().enumerate() {
        let is_blank = matches!(*byte, b' ' | b'\t');
        if !is_blank && is_parted {
            begin = at;
        }
        is_parted = is_blank;
    }
    begin
}

/// Whether a text, up to a blank, is a number that counts no moves, but may be one that was read wrongly: `02`, `0` or `82`.
pub fn is_no_count(text: &[u8]) -> bool {
    if text.is_empty() || !is_digit_byte(text[0]) {
        return false;
    }
    let has_two = text.len() > 1 && is_digit_byte(text[1]);
    let after = if has_two { &text[2..] } else { &text[1..] };
    is_parted(after) && (text[0] == b'0' || (has_two && text[0] > b'6'))
}

/// Whether a text is empty, or begins with a blank.
fn is_parted(text: &[u8]) -> bool {
    text.is_empty() || matches!(text[0], b' ' | b'\t')
}

/// How many letters of ASCII a text begins with.
fn letters_length(text: &[u8]) -> usize
    ensures { result ≤ length text.now }
{
    let end = text.iter().position(|byte| !is_letter(*byte));
    end.unwrap_or(text.len())
}

/// Whether a word may have a letter beside it that is of what it says: two letters at least, and no name by which solvers
/// say which step moves are.
fn may_have_letter(word: &[u8]) -> bool {
    word.len() > 1 && !(is_step_name(word) || is_end_name(word))
}

/// Whether a text begins with a word that may go on what stands before it, as `layer` does, or `in`.
fn begins_words(text: &[u8]) -> bool {
    names_place(text) || may_have_letter(&text[..letters_length(text)])
}

/// Whether a word is a letter by itself.
fn is_letter_alone(word: &[u8]) -> bool {
    !word.is_empty() && is_letter(word[0]) && trimmed(&word[1..]).is_empty()
}

/// Where moves end with a letter by itself that may be of the words after them, such as `U layer`.
pub fn letter_of_words(moves: &[u8], words: &[u8]) -> Option<usize>
    ensures { IfSome result (λ at. at ≤ length moves.now) }
{
    // few lines have such words
    if !begins_words(words) {
        return None;
    }
    let begin = last_word(moves);
    is_letter_alone(&moves[begin..]).then_some(begin)
}

/// The last word of a text, as blanks part them, without those after it.
pub fn word_at_end(text: &[u8]) -> &[u8] {
    let word = &text[last_word(text)..];
    &word[..length_of(word, Class::NoBlanks)]
}

/// Whether a text ends with a blank.
fn ends_with_blank(text: &[u8]) -> bool {
    !text.is_empty() && text[text.len() - 1] == b' '
}

/// Whether moves begin with a letter by itself that may be of the words before them, such as `square F`, or `EO F`.
pub fn begin_with_letter_of_words(moves: &[u8], words: &[u8]) -> bool {
    let first = length_of(moves, Class::NoBlanks);
    if !is_letter_alone(&moves[..first]) {
        return false;
    }
    let word = word_at_end(words);
    if letters_length(word) != word.len() {
        return false;
    }
    // axes have two letters
    (has_axis(word) && ends_with_blank(words)) || (word.len() > 2 && may_have_letter(word))
}

/// Where moves end with a turn of the cube that may say how many times they are made, such as `x2`.
pub fn times_at_end(moves: &[u8]) -> Option<usize>
    ensures { IfSome result (λ at. at ≤ length moves.now) }
{
    let begin = last_word(moves);
    let word = &moves[begin..];
    let is_bracketed = word.len() > 2 && word[0] == b'(';
    let is_times = begins_times(word) || (is_bracketed && begins_times(&word[1..]));
    (begin > 0 && is_times).then_some(begin)
}

/// Whether a byte may be the first of a sign that is written among moves as a mark: of no word, and of none that parts
/// words from moves.
fn begins_mark(byte: u8) -> bool {
    match byte {
        b'=' | b'-' | b':' | b'>' => false,
        0x80.. => byte == 0xc2 || byte == 0xe2,
        _ => !is_letter(byte),
    }
}

/// Whether a sign that ends with this byte says after a mark that what belongs there follows. A colon after a number
/// doesn't: lines are numbered so.
fn ends_definition(first: u8, last: u8) -> bool {
    match last {
        b'=' | b'>' | 0x92 => true,
        b':' => first != b'#' && !is_digit_byte(first),
        _ => false,
    }
}

/// Where what stands before moves tells a mark at which they belong into others, such as `[1] =` or `*:`. It may have
/// letters only before `=`.
pub fn defined_mark(lead: &[u8]) -> Option<usize>
    ensures { IfSome result (λ at. at ≤ length lead.now) }
{
    let words = trimmed(lead);
    if words.is_empty() || !begins_mark(words[0]) {
        return None;
    }
    let mut last = b' ';
    let mut has_letters = false;
    for byte in words {
        has_letters = has_letters || is_letter(*byte);
        if *byte != b' ' {
            last = *byte;
        }
    }
    if !ends_definition(words[0], last) || (last != b'=' && has_letters) {
        return None;
    }
    Some(lead.len() - words.len())
}

/// Whether moves have a slice: in a long line a printed F or B may have been read as its letter.
pub fn has_slice(moves: &[u8]) -> bool {
    moves.iter().any(|byte| matches!(*byte, b'E' | b'M' | b'S'))
}

/// Where the first byte stands that parts moves so.
fn gap_at(moves: &[u8], gap: u8) -> Option<usize>
    ensures { IfSome result (λ at. at ≤ length moves.now) }
{
    let at = moves.iter().position(|byte| *byte == gap)?;
    has_turn(&moves[at..]).then_some(at)
}

/// Where a tab stands between moves of which others have a blank between them: they may be of two columns.
pub fn column_at(moves: &[u8]) -> Option<usize>
    ensures { IfSome result (λ at. at ≤ length moves.now) }
{
    let tab = gap_at(moves, b'\t')?;
    gap_at(moves, b' ')?;
    Some(tab)
}

/// Whether all that stands after moves is a mark at which others belong, such as `*` or `[^]`. More than two such signs part
/// lines.
pub fn is_mark(tail: &[u8]) -> bool {
    let mut marks = 0u8;
    for byte in tail {
        match *byte {
            b'*' | b'^' | b'@' | b'&' | b'~' | b'$' | b'%' => marks = marks.saturating_add(1),
            b' ' | b'(' | b')' | b'[' | b']' | b'{' | b'}' => {}
            _ => return false,
        }
    }
    marks == 1 || marks == 2
}

/// Whether a label is the sign of a list: `-`, `*` or U+2022.
#[tactic(auto, unfolding(crate::specs::Titles::is_bullet))]
pub fn is_bullet(label: &[u8]) -> bool
    ensures { result ≡ is_bullet label.now }
{
    let first = byte_at(label, 0);
    let is_dot = first == 0xe2 && (byte_at(label, 1) == 0x80 && byte_at(label, 2) == 0xa2);
    (label.len() == 1 && (first == b'-' || first == b'*')) || (label.len() == 3 && is_dot)
}
