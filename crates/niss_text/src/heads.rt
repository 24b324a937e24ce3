//! What stands in front of a line before its label: its number, and what tells a scramble from others.
ghost use Rattle.std.specs.Prelude.{◌≡◌, ◌≤◌, ◌<◌, ◌-◌, nat_lt, ℕ, true, false, length, take, drop, map, slice_index};
ghost use Rattle.std.specs.List.{Contains};
ghost use Rattle.niss_text.specs.Kept.{BeginNoMoves, BeginsWithTitle, HasOnlyWords, small, words_before_scramble, words_of_any_head, words_of_head, words_of_name, words_of_title};
ghost use Rattle.niss_text.specs.Doubts.{is_capital};
ghost use Rattle.niss_text.specs.Said.{is_a_head};
ghost use Rattle.niss_text.specs.declared.line.Head.TheVariants.{None as NoHead};

use crate::forms::{blanks, mark_length, sign_length};
use crate::line::{Head, Numbers};
use crate::sign::{
    Kind, digits_length, first_kind, from_place, is_digit_byte, is_skipped, trimmed,
};
use crate::words::word_length;

/// How many bytes the word has that stands before each of several scrambles, if a text begins with one; else 0.
fn head_word_length(text: &[u8]) -> usize
    ensures fits { result ≤ length text.now }
    ensures word { 0 < result → Contains words_before_scramble (map small (take result text.now)) }
    ensures all { (count : ℕ) → count ≤ length text.now → Contains words_before_scramble (map small (take count text.now)) → result ≡ count }
{
    if text.is_empty() {
        return 0;
    }
    match text[0] {
        b's' | b'S' => word_length(text, b"scramble"),
        b'a' | b'A' => word_length(text, b"attempt"),
        b'e' | b'E' => word_length(text, b"extra"),
        _ => 0,
    }
}

/// How many bytes the name has that solvers give a scramble which is known, if a text begins with one; else 0.
fn name_length(text: &[u8]) -> usize
    ensures fits { result ≤ length text.now }
    ensures word { 0 < result → Contains words_of_name (map small (take result text.now)) }
{
    let cube = word_length(text, b"cube");
    if cube > 0 {
        cube
    } else {
        word_length(text, b"solve")
    }
}

/// How many bytes a sign has that may end a number in front of a text; else 0.
fn point_length(text: &[u8]) -> usize
    ensures fits { result ≤ length text.now }
    ensures begin { BeginNoMoves (take result text.now) }
{
    let point = mark_length(text, b'.');
    if point > 0 {
        return point;
    }
    let bracket = mark_length(text, b')');
    if bracket > 0 {
        return bracket;
    }
    sign_length(text, Kind::Colon)
}

/// How many bytes a sign has that ends a number in front of a text, if no digit follows it; else 0.
#[inline(never)]
fn number_end_length(text: &[u8]) -> usize
    ensures fits { result ≤ length text.now }
    ensures begin { BeginNoMoves (take result text.now) }
{
    let end = point_length(text);
    if end > 0 && first_kind(&text[end..]) != Kind::Digit {
        end
    } else {
        0
    }
}

/// How many bytes the number of a line has in front of it, such as `2.` or `#2`; 0 if there is none.
#[inline(never)]
pub fn number_length(line: &[u8]) -> usize
    ensures fits { result ≤ length line.now }
    ensures begin { BeginNoMoves (take result line.now) }
{
    let mark = mark_length(line, b'#');
    let number = from_place(line, mark);
    let digits = digits_length(number);
    if digits == 0 {
        return 0;
    }
    let rest = from_place(number, digits);
    let end = number_end_length(rest);
    if end > 0 || (mark > 0 && is_parted(rest)) {
        mark + digits + end
    } else {
        0
    }
}

/// Whether a line goes on with a blank, or ends.
pub fn is_parted(line: &[u8]) -> bool {
    let kind = first_kind(line);
    is_skipped(kind) || kind == Kind::LineEnd
}

/// How many bytes an opened bracket has in front of a line, or the letter of an extra in a list that has some; else 0.
fn list_mark_length(line: &[u8], numbers: Numbers) -> usize
    ensures fits { result ≤ length line.now }
    ensures words { HasOnlyWords words_of_head (take result line.now) }
{
    let bracket = mark_length(line, b'(');
    if bracket == 0 && numbers == Numbers::WithExtras {
        mark_length(line, b'E')
    } else {
        bracket
    }
}

/// How many bytes a number has that stands before one of several scrambles and isn't the number of a line, such as `2`,
/// `(2)` or, in a list with such extras, `E2`; 0 if there is none.
fn listed_length(line: &[u8], numbers: Numbers) -> usize
    ensures fits { result ≤ length line.now }
    ensures words { HasOnlyWords words_of_head (take result line.now) }
{
    let mark = list_mark_length(line, numbers);
    let number = from_place(line, mark);
    let digits = digits_length(number);
    if digits == 0 {
        return 0;
    }
    let rest = from_place(number, digits);
    let end = number_end_length(rest);
    if end > 0 || is_parted(rest) {
        mark + digits + end
    } else {
        0
    }
}

/// How many bytes a slash or "of" has in front of a text; else 0.
fn of_length(text: &[u8]) -> usize
    ensures fits { result ≤ length text.now }
    ensures words { HasOnlyWords words_of_title (take result text.now) }
{
    let slash = mark_length(text, b'/');
    if slash > 0 {
        slash
    } else {
        word_length(text, b"of")
    }
}

/// What is after "of 3" or "/3" in front of a line, or the line itself.
fn behind_total(line: &[u8]) -> &[u8]
    ensures fits { length result.now ≤ length line.now }
    ensures rest { result.now ≡ drop (length line.now - length result.now) line.now }
    ensures words { HasOnlyWords words_of_title (take (length line.now - length result.now) line.now) }
{
    let word = trimmed(line);
    let of = of_length(word);
    let number = trimmed(from_place(word, of));
    let digits = digits_length(number);
    if of == 0 || digits == 0 {
        line
    } else {
        from_place(number, digits)
    }
}

/// How many bytes the sign has in front of a text that ends a head; else 0.
fn end_length(text: &[u8]) -> usize
    ensures fits { result ≤ length text.now }
    ensures begin { BeginNoMoves (take result text.now) }
{
    let dash = sign_length(text, Kind::Dash);
    if dash > 0 {
        dash
    } else {
        number_end_length(text)
    }
}

/// What is after the sign that ends a head, or the line itself.
fn behind_end(line: &[u8]) -> &[u8]
    ensures fits { length result.now ≤ length line.now }
    ensures rest { result.now ≡ drop (length line.now - length result.now) line.now }
    ensures begin { BeginNoMoves (take (length line.now - length result.now) line.now) }
{
    let sign = trimmed(line);
    let end = end_length(sign);
    if end == 0 {
        line
    } else {
        from_place(sign, end)
    }
}

/// How many bytes the number of a head has in front of what follows its word, with blanks, such as ` 1 of 3:`; 0 if none is
/// there.
fn head_number_length(text: &[u8]) -> usize
    ensures fits { result ≤ length text.now }
    ensures words { HasOnlyWords words_of_title (take result text.now) }
{
    let number = trimmed(text);
    let marked = from_place(number, mark_length(number, b'#'));
    let digits = digits_length(marked);
    if digits == 0 {
        return 0;
    }
    let rest = from_place(marked, digits);
    let total = behind_total(rest);
    let end = behind_end(total);
    if end.len() < total.len() || is_parted(end) {
        text.len() - end.len()
    } else {
        0
    }
}

/// How many bytes the word before a scramble has in front of a line, with its number, such as `Attempt 1 of 3`, or with
/// a colon; 0 if there is none.
pub fn head_length(line: &[u8]) -> usize
    ensures fits { result ≤ length line.now }
    ensures words { HasOnlyWords words_of_title (take result line.now) }
    ensures title { BeginsWithTitle line.now → 0 < result }
{
    let word = head_word_length(line);
    if word == 0 {
        return 0;
    }
    let rest = from_place(line, word);
    let after = trimmed(rest);
    let colon = sign_length(after, Kind::Colon);
    if colon > 0 {
        return line.len() - after.len() + colon;
    }
    let number = head_number_length(rest);
    if number > 0 { word + number } else { 0 }
}

/// How many bytes `Cube 2` or `Solve 2` has in front of a line, as solvers call a scramble that is known; 0 if neither
/// stands there.
pub fn named_length(line: &[u8]) -> usize
    ensures fits { result ≤ length line.now }
    ensures words { HasOnlyWords words_of_any_head (take result line.now) }
{
    let word = name_length(line);
    let number = head_number_length(from_place(line, word));
    if word > 0 && number > 0 {
        word + number
    } else {
        0
    }
}

/// Whether what tells a scramble from others may begin with a byte.
fn begins_head(byte: u8) -> bool
    ensures { is_capital byte ≡ true → result ≡ false }
{
    matches!(byte, b'#' | b'(' | b's' | b'S' | b'a' | b'A' | b'e' | b'E') || is_digit_byte(byte)
}

/// What tells a scramble from others in front of a line, and how many bytes it has.
#[inline(never)]
pub fn head_of(line: &[u8], numbers: Numbers) -> (Head, usize)
    ensures fits { result.1 ≤ length line.now }
    ensures words { HasOnlyWords words_of_head (take result.1 line.now) }
    ensures none { is_capital (slice_index line.now 0) ≡ true → result.0 ≡ NoHead }
    ensures some { is_a_head result.0 ≡ nat_lt 0 result.1 }
{
    if line.is_empty() || !begins_head(line[0]) {
        return (Head::None, 0);
    }
    let number = number_length(line);
    let numbered = from_place(line, number);
    let blank = blanks(numbered);
    let word = head_length(from_place(numbered, blank));
    if word > 0 {
        return (Head::Word, number + blank + word);
    }
    if numbers == Numbers::OfLines {
        return (Head::None, 0);
    }
    if number > 0 {
        return (Head::Number, number);
    }
    match listed_length(line, numbers) {
        0 => (Head::None, 0),
        listed => (Head::Number, listed),
    }
}
