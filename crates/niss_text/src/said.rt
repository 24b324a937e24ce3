//! What is said of moves that makes one doubt them, in their label, after them, or in a line of its own.
ghost use Rattle.std.specs.Prelude.{◌≡◌, ◌≤◌, ◌<◌, ◌-◌, ◌⊎◌, ℕ, true, false, length, map, slice_index, slice_range};
ghost use Rattle.std.specs.List.{Contains};
ghost use Rattle.niss_text.specs.Signs.{is_letter};
ghost use Rattle.niss_text.specs.Doubts.{is_letter as is_plain_letter};
ghost use Rattle.niss_text.specs.Kept.{small};
ghost use Rattle.niss_text.specs.Said.{DeniesNothing, HasWord, IsDenied, Names, are_spelled, words_of, words_of_links, words_of_none};
ghost use Rattle.niss_text.specs.Doubts.{number_of};
ghost use Rattle.niss_text.specs.Lines.{IsLine};
ghost use Rattle.niss_text.specs.declared.doubts.Doubt.TheVariants.{Nothing, Insertion};
ghost use Rattle.niss_text.specs.declared.said.Said.TheVariants.{Beside, OfBrackets, OfMoves};

use crate::doubts::Doubt;
use crate::forms::{comment_at, has_bracket};
use crate::marks::{has_moves_aside, is_mark};
use crate::sights::is_letter;
use crate::sign::from_place;
use crate::text_line::{LineKind, TextLine};
use crate::topics::{
    Topic, denies, denies_by_sign, first_topic, is_denied_behind, is_normal_side, names_algorithm,
    names_skeleton, word_of,
};
use crate::words::{Wanted, letters_in_front, says, sign_size, word_length};

/// Of what something is said.
#[derive(Clone, Copy, PartialEq, Eq)]
pub enum Said {
    /// Of moves with a bracket: a side counts only without.
    OfBrackets,
    /// Of other moves.
    OfMoves,
    /// Of some of the solution, in a line without any.
    OfOthers,
    /// Beside the solution, of which only a correction counts there, and what is put into others.
    Beside,
}

/// What makes one doubt the solution by the letters that a text beside it begins with: that others are put into it, but
/// not into a skeleton, which has its own.
fn doubt_beside(text: &[u8], topic: Option<Topic>, is_denied: bool) -> Doubt
    ensures either { (result ≡ Nothing) ⊎ (result ≡ Insertion) }
    ensures denied { is_denied ≡ true → result ≡ Nothing }
{
    if topic != Some(Topic::Insertion) || is_denied {
        return Doubt::Nothing;
    }
    if is_denied_behind(text) || names_skeleton(text) {
        Doubt::Nothing
    } else {
        Doubt::Insertion
    }
}

/// What makes one doubt moves of which something is said by the letters that a text begins with, after others that deny
/// it or not.
fn doubt_of_words(text: &[u8], before: &[u8], of: Said, is_denied: bool) -> Doubt
    ensures others { (number_of result ≡ 4 → ⊥) × (number_of result ≡ 5 → ⊥) }
    ensures said { (number_of result ≡ 1 → ⊥) × ((number_of result ≡ 2 → ⊥) × ((number_of result ≡ 6 → ⊥) × (number_of result ≡ 11 → ⊥))) }
    ensures denied { is_denied ≡ true → (number_of result ≡ 7 → ⊥) × ((of ≡ OfMoves → ⊥) → number_of result ≡ 3 → ⊥) }
    ensures beside { of ≡ Beside → (number_of result ≡ 7 → ⊥) × (number_of result ≡ 3 → ⊥) }
    ensures bracketed { of ≡ OfBrackets → number_of result ≡ 3 → ⊥ }
{
    match first_topic(text, before) {
        Some(Topic::Correction) => Doubt::Insertion,
        topic if of == Said::Beside => doubt_beside(text, topic, is_denied),
        Some(Topic::Unread) => Doubt::Signs,
        None if of != Said::OfOthers || !names_algorithm(word_of(text)) => Doubt::Nothing,
        // also a side that is denied: words may say so in another way than that by which it is told
        Some(Topic::Side) if of == Said::OfMoves => Doubt::Side,
        _ if is_denied || is_denied_behind(text) => Doubt::Nothing,
        Some(Topic::Side) if of == Said::OfOthers => Doubt::Side,
        Some(Topic::Repetition) => Doubt::Repetition,
        Some(Topic::Insertion) | None => Doubt::Insertion,
        _ => Doubt::Nothing,
    }
}

/// Whether a word that is denied or not leaves what follows denied, after a sign of that many bytes, which others begin with.
fn stays_denied(word: &[u8], is_denied: bool, others: &[u8], sign: usize) -> bool
    requires { sign ≤ length others.now }
    ensures none { 0 < length word.now → Contains words_of_none (map small word.now) → slice_index others.now 0 ≡ 32 → sign ≤ 1 → result ≡ true }
    ensures goes_on { 0 < length word.now → is_denied ≡ true → Contains words_of_links (map small word.now) →
        slice_index others.now 0 ≡ 32 → sign ≤ 1 → result ≡ true }
{
    let is_denied = if word.is_empty() {
        is_denied
    } else {
        denies(word, is_denied)
    };
    denies_by_sign(from_place(others, sign.saturating_sub(1)), is_denied)
}

/// Whether a text has a word of such that isn't denied.
fn names_undenied(text: &[u8], wanted: Wanted) -> bool
    ensures { result ≡ true → Names is_plain_letter (words_of wanted) text.now }
{
    let mut is_denied = false;
    let mut rest = text;
    while !rest.is_empty() {
        let letters = letters_in_front(rest);
        let word = &rest[..letters];
        if letters > 1 && wanted.has(word) && !is_denied && !is_denied_behind(rest) {
            return true;
        }
        let others = from_place(rest, letters);
        let sign = sign_size(others);
        is_denied = stays_denied(word, is_denied, others, sign);
        rest = from_place(others, sign);
    }
    false
}

/// Whether a text has a word of such, but not as what there is nothing of, as in `nothing on inverse`.
pub fn names(text: &[u8], wanted: Wanted) -> bool
    ensures said { result ≡ true → Names is_plain_letter (words_of wanted) text.now }
    ensures all { are_spelled (words_of wanted) ≡ true → DeniesNothing text.now → HasWord is_letter (words_of wanted) text.now → result ≡ true }
{
    says(text, wanted) && (!says(text, Wanted::Denial) || names_undenied(text, wanted))
}

/// Whether no word begins with a byte, nor within a sign that it begins.
fn is_sign(byte: u8) -> bool
    ensures letter { result ≡ true → is_plain_letter byte ≡ false }
    ensures blank { byte ≡ 32 → result ≡ true }
{
    !is_letter(byte) && byte < 0xc0
}

/// Whether no letter of ASCII stands before a place of a part of a text.
fn begins_word(text: &[u8], from: usize, at: usize) -> bool
    requires { at ≤ length text.now }
    ensures begun { result ≡ true → from < at → is_plain_letter (slice_index text.now (at - 1)) ≡ false }
    ensures within { result ≡ false → from ≤ at → (from < at) × (is_plain_letter (slice_index text.now (at - 1)) ≡ true) }
{
    at <= from || !is_letter(text[at - 1])
}

/// What makes one doubt moves by the letters that a text begins with, after others: by a word that begins there, or by
/// the inverse within one.
fn doubt_there(text: &[u8], before: &[u8], is_begun: bool, of: Said, is_denied: bool) -> Doubt
    ensures others { (number_of result ≡ 4 → ⊥) × (number_of result ≡ 5 → ⊥) }
    ensures said { (number_of result ≡ 1 → ⊥) × ((number_of result ≡ 2 → ⊥) × ((number_of result ≡ 6 → ⊥) × (number_of result ≡ 11 → ⊥))) }
    ensures denied { is_denied ≡ true → (number_of result ≡ 7 → ⊥) × ((of ≡ OfMoves → ⊥) → number_of result ≡ 3 → ⊥) }
    ensures beside { of ≡ Beside → (number_of result ≡ 7 → ⊥) × (number_of result ≡ 3 → ⊥) }
    ensures bracketed { of ≡ OfBrackets → number_of result ≡ 3 → ⊥ }
{
    if is_normal_side(text, before) || !(is_begun || word_length(text, b"inv") > 0) {
        Doubt::Nothing
    } else {
        doubt_of_words(text, before, of, is_denied)
    }
}

/// Whether what follows a word is denied, if the word begins here.
fn denied_after(word: &[u8], is_begun: bool, is_denied: bool) -> bool
    ensures within { is_begun ≡ false → result ≡ is_denied }
    ensures none { is_begun ≡ true → 0 < length word.now → Contains words_of_none (map small word.now) → result ≡ true }
    ensures goes_on { is_begun ≡ true → 0 < length word.now → is_denied ≡ true → Contains words_of_links (map small word.now) → result ≡ true }
{
    if is_begun {
        denies(word, is_denied)
    } else {
        is_denied
    }
}

/// What is said first in a part of a text that makes one doubt its moves, and where: by a word of its own, or by the
/// inverse in another. At the part's end if nothing is.
pub fn first_said(text: &[u8], from: usize, to: usize, of: Said) -> (Doubt, usize)
    requires { to ≤ length text.now }
    ensures fits { result.1 ≤ to }
    ensures there { from ≤ to → from ≤ result.1 }
    ensures nowhere { result.0 ≡ Nothing → result.1 ≡ to }
    ensures free { (number_of result.0 ≡ 7) ⊎ ((of ≡ OfMoves → ⊥) × (number_of result.0 ≡ 3)) → (between : ℕ) →
        IsDenied between (slice_range text.now from to) (result.1 - from) → ⊥ }
    ensures beside { of ≡ Beside → (number_of result.0 ≡ 7 → ⊥) × (number_of result.0 ≡ 3 → ⊥) }
    ensures bracketed { of ≡ OfBrackets → number_of result.0 ≡ 3 → ⊥ }
    ensures others { (number_of result.0 ≡ 4 → ⊥) × (number_of result.0 ≡ 5 → ⊥) }
    ensures said { (number_of result.0 ≡ 1 → ⊥) × ((number_of result.0 ≡ 2 → ⊥) × ((number_of result.0 ≡ 6 → ⊥) × (number_of result.0 ≡ 11 → ⊥))) }
{
    let mut is_denied = false;
    for at in from..to {
        let rest = &text[at..to];
        if is_sign(text[at]) {
            is_denied = denies_by_sign(rest, is_denied);
            continue;
        }
        let is_begun = begins_word(text, from, at);
        let doubt = doubt_there(rest, &text[from..at], is_begun, of, is_denied);
        if doubt != Doubt::Nothing {
            return (doubt, at);
        }
        is_denied = denied_after(word_of(rest), is_begun, is_denied);
    }
    (Doubt::Nothing, to)
}

/// What makes one doubt a line without moves, and where: a mark, or what is said in it, or moves after its slashes.
fn doubt_of_note(text: &[u8], told: &TextLine) -> (Doubt, usize)
    requires line { IsLine told.now.begin told.now }
    requires fits { told.now.end ≤ length text.now }
    ensures place { (told.now.begin ≤ result.1) × (result.1 ≤ told.now.end) }
    ensures free { (number_of result.0 ≡ 3) ⊎ (number_of result.0 ≡ 7) → (between : ℕ) →
        IsDenied between (slice_range text.now told.now.head_end told.now.end) (result.1 - told.now.head_end) → ⊥ }
    ensures nowhere { result.0 ≡ Nothing → result.1 ≡ told.now.end }
    ensures others { (number_of result.0 ≡ 4 → ⊥) × (number_of result.0 ≡ 5 → ⊥) }
    ensures said { (number_of result.0 ≡ 1 → ⊥) × ((number_of result.0 ≡ 2 → ⊥) × (number_of result.0 ≡ 11 → ⊥)) }
{
    if is_mark(&text[told.begin..told.end]) {
        return (Doubt::Insertion, told.begin);
    }
    let said = first_said(text, told.head_end, told.end, Said::OfOthers);
    if said.0 != Doubt::Nothing {
        return said;
    }
    let slashes = told.head_end + comment_at(&text[told.head_end..told.end]);
    if has_moves_aside(&text[slashes..told.end]) {
        return (Doubt::Comment, slashes);
    }
    (Doubt::Nothing, told.end)
}

/// What is said of a line that makes one doubt it, and where: in its label or after its moves; of a line without moves
/// anywhere.
pub fn doubt_said(text: &[u8], told: &TextLine) -> (Doubt, usize)
    requires line { IsLine told.now.begin told.now }
    requires fits { told.now.end ≤ length text.now }
    ensures place { (told.now.begin ≤ result.1) × (result.1 ≤ told.now.end) }
    ensures free { told.now.kind ≡ 4 → (number_of result.0 ≡ 3) ⊎ (number_of result.0 ≡ 7) → (between : ℕ) →
        IsDenied between (slice_range text.now told.now.head_end told.now.end) (result.1 - told.now.head_end) → ⊥ }
    ensures others { (number_of result.0 ≡ 4 → ⊥) × (number_of result.0 ≡ 5 → ⊥) }
    ensures said { (number_of result.0 ≡ 1 → ⊥) × ((number_of result.0 ≡ 2 → ⊥) × (number_of result.0 ≡ 11 → ⊥)) }
    ensures comment { number_of result.0 ≡ 6 → told.now.kind ≡ 4 }
{
    if told.is_a(LineKind::Note) {
        return doubt_of_note(text, told);
    }
    let of = if has_bracket(&text[told.moves..told.comment]) {
        Said::OfBrackets
    } else {
        Said::OfMoves
    };
    let label = first_said(text, told.label_begin, told.label_end, of);
    if label.0 != Doubt::Nothing {
        return label;
    }
    first_said(text, told.comment, told.end, of)
}

/// What is said in a line beside the solution that makes one doubt that, and where: in its label or after its moves; of a
/// line without moves anywhere.
pub fn doubt_said_beside(text: &[u8], told: &TextLine) -> (Doubt, usize)
    requires line { IsLine told.now.begin told.now }
    requires fits { told.now.end ≤ length text.now }
    ensures place { (told.now.begin ≤ result.1) × (result.1 ≤ told.now.end) }
    ensures nowhere { result.0 ≡ Nothing → result.1 ≡ told.now.end }
    ensures beside { (number_of result.0 ≡ 7 → ⊥) × (number_of result.0 ≡ 3 → ⊥) }
    ensures others { (number_of result.0 ≡ 4 → ⊥) × (number_of result.0 ≡ 5 → ⊥) }
    ensures said { (number_of result.0 ≡ 1 → ⊥) × ((number_of result.0 ≡ 2 → ⊥) × ((number_of result.0 ≡ 6 → ⊥) × (number_of result.0 ≡ 11 → ⊥))) }
{
    if told.is_a(LineKind::Note) {
        return first_said(text, told.begin, told.end, Said::Beside);
    }
    let label = first_said(text, told.label_begin, told.label_end, Said::Beside);
    if label.0 != Doubt::Nothing {
        return label;
    }
    first_said(text, told.comment, told.end, Said::Beside)
}
