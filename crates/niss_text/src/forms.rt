//! What stands in a text beside moves: numbers of moves, labels and comments.
ghost use Rattle.std.specs.Prelude.{◌≡◌, ◌≤◌, ◌<◌, ◌+◌, ℕ, true, false, [], ◌∷◌, length, take, drop, slice_index, slice_range, IfSome};
ghost use Rattle.niss_text.specs.Signs.{IsSign, HasNoMoves, AreSigns, is_digit, is_spacing, ends_line, opens};
ghost use Rattle.niss_text.specs.Pieces.{EndsWithColon};
ghost use Rattle.niss_text.specs.declared.sign.Kind.TheVariants.{Colon};
ghost use Rattle.niss_text.specs.Doubts.{is_letter as is_plain_letter};
ghost use Rattle.niss_text.specs.Said.{HasNoBracket, HasNoSlashes};
ghost use Rattle.niss_text.specs.Kept.{AreTurns, IsTurnUpTo, HasNoLetters, HasOnlyWords, IsCount, IsTitleEnd, words_of_count};
ghost use Rattle.niss_text.specs.Titles.{HasNoPair, HasTurn, IsTitle, begins_with_pair, begins_with_step, is_joined, turn_follows};

use crate::label_words::{begins_label, label_words_length};
use crate::sights::{byte_at, is_capital, is_letter as is_plain_letter};
use crate::sign::{
    Class, Kind, digits_length, first_kind, from_place, is_letter, length_of, one_sign, trimmed,
};
use crate::words::{is_other_side, word_length};

/// How many bytes the first sign of a text has if it is of this kind; else 0.
#[inline(never)]
pub fn sign_length(text: &[u8], kind: Kind) -> usize
    ensures fits { result ≤ length text.now }
    ensures is { 0 < result → IsSign kind (take result text.now) }
    ensures colon { kind ≡ Colon → slice_index text.now 0 ≡ 58 → 0 < result }
{
    if text.is_empty() {
        return 0;
    }
    let sign = one_sign(text);
    if sign.kind == kind { sign.length } else { 0 }
}

/// How many bytes this one has in front of a text: 1 if it stands there; else 0.
pub fn mark_length(text: &[u8], mark: u8) -> usize
    ensures fits { result ≤ length text.now }
    ensures is { 0 < result → take result text.now ≡ mark ∷ [] }
{
    if text.is_empty() || text[0] != mark {
        0
    } else {
        1
    }
}

/// How many bytes " move" or " moves" has in front of a text; else 0.
fn moves_length(text: &[u8]) -> usize
    ensures fits { result ≤ length text.now }
    ensures word { HasOnlyWords words_of_count (take result text.now) }
{
    let many = word_length(text, b" moves");
    if many > 0 {
        many
    } else {
        word_length(text, b" move")
    }
}

/// How many bytes a slash and digits have in front of a text; else 0.
fn total_length(text: &[u8]) -> usize
    ensures fits { result ≤ length text.now }
    ensures letters { HasNoLetters (take result text.now) }
{
    let slash = mark_length(text, b'/');
    let digits = digits_length(from_place(text, slash));
    if slash == 0 || digits == 0 {
        0
    } else {
        slash + digits
    }
}

/// Whether a byte opens a bracket.
fn opens(byte: u8) -> bool
    ensures { result ≡ opens byte }
{
    byte == b'(' || byte == b'['
}

/// How many bytes a closed bracket has in front of a text; else 0.
fn close_length(text: &[u8]) -> usize
    ensures fits { result ≤ length text.now }
    ensures letters { HasNoLetters (take result text.now) }
{
    let round = mark_length(text, b')');
    if round > 0 {
        round
    } else {
        mark_length(text, b']')
    }
}

/// How many bytes a number of moves has in front of a text, such as `(2)`, `[1/5]` or `(12 moves)`; 0 if there is none.
#[inline(never)]
pub fn count_length(text: &[u8]) -> usize
    ensures fits { result ≤ length text.now }
    ensures long { 0 < result → 2 < result }
    ensures is { 0 < result → IsCount (take result text.now) }
{
    if text.is_empty() || !opens(text[0]) {
        return 0;
    }
    let number = from_place(text, 1);
    let digits = digits_length(number);
    if digits == 0 {
        return 0;
    }
    let total = from_place(number, digits);
    let words = from_place(total, total_length(total));
    let close = from_place(words, moves_length(words));
    let end = close_length(close);
    if end == 0 {
        return 0;
    }
    text.len() - close.len() + end
}

/// How many bytes of a text stand before the end of its first line.
#[inline(never)]
pub fn line_length(text: &[u8]) -> usize
    ensures fits { result ≤ length text.now }
    ensures whole { (k : ℕ) → k < result → ends_line (slice_index text.now k) ≡ false }
    ensures ends { result < length text.now → ends_line (slice_index text.now result) ≡ true }
{
    for (at, byte) in text.iter().enumerate() {
        if ends_line(*byte) {
            return at;
        }
    }
    text.len()
}

/// Whether a byte ends a line.
fn ends_line(byte: u8) -> bool
    ensures { result ≡ ends_line byte }
{
    byte == b'\n' || byte == b'\r'
}

/// Whether a text begins with a comment.
pub fn begins_comment(text: &[u8]) -> bool
    ensures first { result ≡ true → slice_index text.now 0 ≡ 47 }
    ensures second { result ≡ true → slice_index text.now 1 ≡ 47 }
    ensures both { slice_index text.now 0 ≡ 47 → slice_index text.now 1 ≡ 47 → result ≡ true }
{
    text.len() > 1 && text[0] == b'/' && text[1] == b'/'
}

/// How many bytes stand before the comment of a line.
pub fn comment_at(line: &[u8]) -> usize
    ensures fits { result ≤ length line.now }
    ensures slash { result < length line.now → slice_index line.now result ≡ 47 }
    ensures next_slash { result < length line.now → slice_index line.now (result + 1) ≡ 47 }
    ensures first { (k : ℕ) → slice_index line.now k ≡ 47 → slice_index line.now (k + 1) ≡ 47 → result ≤ k }
{
    let mut rest = line;
    while !rest.is_empty() {
        if begins_comment(rest) {
            return line.len() - rest.len();
        }
        rest = &rest[1..];
    }
    line.len()
}

/// How many bytes of blanks a line begins with.
pub fn blanks(line: &[u8]) -> usize
    ensures fits { result ≤ length line.now }
    ensures empty { HasNoMoves (take result line.now) }
    ensures spacing { AreSigns is_spacing (take result line.now) }
{
    line.len() - trimmed(line).len()
}

/// How many bytes of blanks and of signs that quote it, such as `> `, a line begins with.
#[inline(never)]
pub fn margin(line: &[u8]) -> usize
    ensures fits { result ≤ length line.now }
    ensures empty { HasNoMoves (take result line.now) }
{
    let mut rest = trimmed(line);
    while !rest.is_empty() && rest[0] == b'>' {
        rest = trimmed(from_place(rest, 1));
    }
    line.len() - rest.len()
}

/// Whether a word may be a move, so that a colon after it is at fault.
fn is_like_move(word: &[u8]) -> bool
    ensures { AreTurns word.now → IsTurnUpTo word.now (length word.now) → result ≡ true }
{
    if word.is_empty() || !is_letter(first_kind(word)) {
        return false;
    }
    let letter = from_place(word, 1);
    let wide = from_place(letter, word_length(letter, b"w"));
    wide.is_empty() || (wide.len() == 1 && wide[0] == b'2')
}

/// Whether each of some words may be a move.
fn are_like_moves(words: &[u8]) -> bool
    ensures { AreTurns words.now → result ≡ true }
{
    let mut rest = trimmed(words);
    while !rest.is_empty() {
        let word = length_of(rest, Class::NoBlanks);
        if word == 0 || !is_like_move(&rest[..word]) {
            return false;
        }
        rest = trimmed(from_place(rest, word));
    }
    true
}

/// Whether one of some words says that moves without brackets belong to the inverse.
fn has_other_side(words: &[u8]) -> bool {
    let mut rest = trimmed(words);
    while !rest.is_empty() {
        let word = length_of(rest, Class::NoBlanks);
        if word == 0 || is_other_side(&rest[..word]) {
            return word > 0;
        }
        rest = trimmed(&rest[word..]);
    }
    false
}

/// Whether a text begins with an opened bracket that isn't of a number of moves.
fn opens_moves(text: &[u8]) -> bool
    requires { 0 < length text.now }
    ensures none { result ≡ false → slice_index text.now 0 ≡ 40 → is_digit (slice_index text.now 1) ≡ true }
    ensures some { result ≡ true → slice_index text.now 0 ≡ 40 }
{
    text[0] == b'(' && count_length(text) == 0
}

/// Whether moves of a line stand in brackets, before its comment.
pub fn has_bracket(line: &[u8]) -> bool
    ensures none { result ≡ false → HasNoSlashes line.now → HasNoBracket line.now }
    ensures some { ((k : ℕ) → slice_index line.now k ≡ 40 → ⊥) → result ≡ false }
{
    let mut rest = line;
    while !rest.is_empty() {
        if begins_comment(rest) {
            return false;
        }
        if opens_moves(rest) {
            return true;
        }
        rest = from_place(rest, 1);
    }
    false
}

/// A label in front of a line: how many bytes its words have, and how many it has with what ends it.
#[derive(Clone, Copy)]
pub struct Label {
    pub words: usize,
    pub length: usize,
    ghost in_order: { words ≤ length },
}

/// The words in front of a line that may be a label's, and how many bytes these have with a number of moves and a
/// colon; 0 if there is none.
fn words_before_colon(line: &[u8]) -> (usize, usize)
    ensures order { result.0 ≤ result.1 }
    ensures fits { result.1 ≤ length line.now }
    ensures some { 0 < result.1 → 0 < result.0 }
    ensures words { 0 < result.1 → is_plain_letter (slice_index line.now result.0) ≡ false }
    ensures end { IsTitleEnd (slice_range line.now result.0 result.1) }
    ensures colon { 0 < result.1 → (AreTurns (take result.0 line.now) → ⊥) → EndsWithColon (take result.1 line.now) }
{
    if !begins_label(line) {
        return (0, 0);
    }
    let words = label_words_length(line);
    if words < 2 {
        return (0, 0);
    }
    let count = from_place(line, words);
    let rest = trimmed(from_place(count, count_length(count)));
    let colon = sign_length(rest, Kind::Colon);
    if colon == 0 {
        return (0, 0);
    }
    (words, line.len() - rest.len() + colon)
}

/// Whether a text begins with two turns of faces, or with a half one, each by itself.
#[tactic(auto, unfolding(crate::specs::Titles::begins_with_step))]
fn begins_with_step(text: &[u8]) -> bool
    ensures { result ≡ begins_with_step text.now }
{
    is_capital(byte_at(text, 0))
        && ((byte_at(text, 1) == b'2' && !is_plain_letter(byte_at(text, 2)))
            || (byte_at(text, 1) == b' '
                && (is_capital(byte_at(text, 2)) && !is_plain_letter(byte_at(text, 3)))))
}

/// Whether such turns follow a blank in a text.
fn has_step(text: &[u8]) -> bool
    ensures { (k : ℕ) → slice_index text.now k ≡ 32 → begins_with_step (drop (k + 1) text.now) ≡ true → result ≡ true }
{
    let mut rest = text;
    while !rest.is_empty() {
        let next = from_place(rest, 1);
        if rest[0] == b' ' && begins_with_step(next) {
            return true;
        }
        rest = next;
    }
    false
}

/// Whether a text begins with a blank or an opened bracket, and a turn of a face after it.
#[tactic(auto, unfolding(crate::specs::Titles::turn_follows))]
fn turn_follows(text: &[u8]) -> bool
    ensures { result ≡ turn_follows text.now }
{
    matches!(byte_at(text, 0), b' ' | b'(')
        && (is_capital(byte_at(text, 1)) && !is_plain_letter(byte_at(text, 2)))
}

/// Whether a turn of a face follows a blank or an opened bracket in a text.
fn has_turn(text: &[u8]) -> bool
    ensures { result ≡ true → HasTurn text.now }
{
    let mut rest = text;
    while !rest.is_empty() {
        if turn_follows(rest) {
            return true;
        }
        rest = from_place(rest, 1);
    }
    false
}

/// Whether a text begins with a half turn of a face and another turn, with a blank between.
#[tactic(auto, unfolding(crate::specs::Titles::begins_with_pair))]
fn begins_with_pair(text: &[u8]) -> bool
    ensures { result ≡ begins_with_pair text.now }
{
    (is_capital(byte_at(text, 0)) && (byte_at(text, 1) == b'2' && byte_at(text, 2) == b' '))
        && (is_capital(byte_at(text, 3)) && !is_plain_letter(byte_at(text, 4)))
}

/// Whether such turns stand in words.
fn has_pair(words: &[u8]) -> bool
    ensures { result ≡ false → HasNoPair words.now }
{
    let mut rest = words;
    while !rest.is_empty() {
        if begins_with_pair(rest) {
            return true;
        }
        rest = from_place(rest, 1);
    }
    false
}

/// Whether a byte after a colon says that this is of a time or a face, as in `0:45` and `:)`.
fn is_joined(byte: u8) -> bool
    ensures { result ≡ is_joined byte }
{
    byte >= b'!' && byte <= b'~'
}

/// Whether words before a colon are moves, and what is said of them, rather than the label of what follows the colon.
fn is_step(words: &[u8], after: &[u8]) -> bool
    ensures { result ≡ false → IsTitle words.now after.now }
{
    if has_turn(after) {
        return has_pair(words);
    }
    begins_with_step(words) || (is_joined(byte_at(after, 0)) && has_step(words))
}

/// The label in front of a line, unless its words may be moves, or begin with some and none follow them, or the moves
/// after it belong to the inverse and don't say so themselves.
pub fn label_of(line: &[u8]) -> Option<Label>
    ensures fits { IfSome result (λ label. label.length ≤ length line.now) }
    ensures some { IfSome result (λ label. 0 < label.words) }
    ensures end { IfSome result (λ label. IsTitleEnd (slice_range line.now label.words label.length)) }
    ensures colon { IfSome result (λ label. EndsWithColon (take label.length line.now)) }
    ensures words { IfSome result (λ label. is_plain_letter (slice_index line.now label.words) ≡ false) }
    ensures title { IfSome result (λ label. IsTitle (take label.words line.now) (drop label.length line.now)) }
{
    let (words, length) = words_before_colon(line);
    if length == 0 || are_like_moves(&line[..words]) {
        return None;
    }
    if is_step(&line[..words], from_place(line, length)) {
        return None;
    }
    if has_other_side(&line[..words]) && !has_bracket(&line[length..]) {
        return None;
    }
    Some(Label { words, length })
}
