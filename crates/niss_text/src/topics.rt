//! What solvers say of moves that their reading hangs on, in words of some languages.
ghost use Rattle.std.specs.Prelude.{◌≡◌, ◌<◌, ◌⊎◌, ℕ, true, false, length, map, take, slice_index};
ghost use Rattle.niss_text.specs.Signs.{is_letter};
ghost use Rattle.niss_text.specs.Doubts.{is_letter as is_plain_letter};
ghost use Rattle.std.specs.List.{Contains};
ghost use Rattle.niss_text.specs.Kept.{small};
ghost use Rattle.niss_text.specs.Said.{words_of_links, words_of_none};

use crate::sights::is_capital;
use crate::sign::{Class, Kind, behind, first_kind, length_of, trimmed};
use crate::words::{fits_one_of, is_link, is_word, is_word_of_none, small, word_length};

/// What solvers say of moves beside what step they are, and what their reading hangs on.
#[derive(Clone, Copy, PartialEq, Eq)]
pub enum Topic {
    /// Another side of the cube than the normal one, or a change of it.
    Side,
    /// Moves that are made several times.
    Repetition,
    /// Moves that belong into others.
    Insertion,
    /// Moves that are others than those written.
    Correction,
    /// Moves that are written by signs that aren't read.
    Unread,
}

/// How many bytes the longest word that says something by itself has with the sign after it, or more.
const MOST_BYTES: usize = 12;

/// The letters that a text begins with, or the first ones of a row that is longer than such a word.
pub fn word_of(text: &[u8]) -> &[u8]
    ensures is { result.now ≡ take (length result.now) text.now }
    ensures letters { (k : ℕ) → k < length result.now → is_letter (slice_index text.now k) ≡ true }
    ensures ended { length result.now < 12 → is_plain_letter (slice_index text.now (length result.now)) ≡ false }
{
    let begin = &text[..text.len().min(MOST_BYTES)];
    &begin[..length_of(begin, Class::Letters)]
}

/// What is said by the letters that a text begins with, after others.
pub fn first_topic(text: &[u8], before: &[u8]) -> Option<Topic> {
    if text.is_empty() {
        return None;
    }
    let word = word_of(text);
    if names_side(text, before, word) {
        Some(Topic::Side)
    } else if says_repetition(text) {
        Some(Topic::Repetition)
    } else if begins_correction(text, word) {
        Some(Topic::Correction)
    } else if is_word(word, b"ins") || begins_insertion(text) {
        Some(Topic::Insertion)
    } else if fits_one_of(text, LINKS, false) || is_unread(text, word, before.is_empty()) {
        Some(Topic::Unread)
    } else {
        None
    }
}

/// Whether a text begins with letters that name another side, or with such a word, after others.
fn names_side(text: &[u8], before: &[u8], word: &[u8]) -> bool
    requires { 0 < length text.now }
{
    let sides = if text[0] >= 0x80 {
        SIDES_BEYOND
    } else {
        sides_by(small(text[0]))
    };
    fits_one_of(text, sides, false)
        || is_letter_of_inverse(text, before)
        || is_short_side(text, word)
}

/// Whether a text begins with letters that say how many times moves are made, and compare nothing.
fn says_repetition(text: &[u8]) -> bool
    requires { 0 < length text.now }
{
    fits_one_of(text, repetitions_by(small(text[0])), false)
        && !fits_one_of(text, COMPARISONS, false)
}

/// Letters by which solvers name another side of the cube than the normal one, on which moves are read anyway, or a change
/// of it, or moves before the others: those that begin with this letter.
fn sides_by(letter: u8) -> &'static [u8] {
    match letter {
        b'a' => b"andere seite,andersom",
        b'b' => b"backward,back to normal,bakl",
        b'd' => b"do at the end",
        b'e' => b"end with,envers",
        b'i' => b"inv",
        b'n' => b"niss",
        b'o' => b"odwr,omge,omv",
        b'p' => b"premo,pre-mo,pre mo,pr\xc3\xa9,previos,przedr",
        b'r' => b"revers,r\xc3\xbcck,rev\xc3\xa9s",
        b's' => b"setup mo,start with,switch,side",
        b't' => b"ters",
        b'u' => b"undo",
        b'v' => b"vorz",
        _ => b"",
    }
}

/// The same in Russian, without the first letter, which may be a capital, in Chinese and Japanese, and in Korean.
const SIDES_BEYOND: &[u8] =
    b"\xd0\xbd\xd0\xb2\xd0\xb5\xd1\x80\xd1\x81,\xd0\xb1\xd1\x80\xd0\xb0\xd1\x82\xd0\xbd,\xd1\x80\xd0\xb5\xd0\xbc\xd1\x83\xd0\xb2,\xe9\x80\x86,\xe5\x8f\x8d,\xe5\x89\x8d\xe7\xbd\xae,\xe9\xa2\x84\xe5\x8a\xa8,\xe4\xba\x8b\xe5\x89\x8d,\xec\x97\xad,\xeb\xb0\x98\xeb\x8c\x80,\xec\x9d\xb8\xeb\xb2\x84\xec\x8a\xa4,\xed\x94\x84\xeb\xa6\xac\xeb\xac\xb4";

/// Letters by which solvers say that moves are made several times.
fn repetitions_by(letter: u8) -> &'static [u8] {
    match letter {
        b'a' => b"again",
        b'o' => b"once more",
        b'r' => b"repeat",
        b't' => b"twice,thrice,times",
        _ => b"",
    }
}

/// How such a word begins what compares something, as in `EO twice as fast`.
const COMPARISONS: &[u8] = b"twice as,thrice as,times as";

/// Letters by which solvers say that moves belong into others, or that others belong into these.
fn insertions_by(letter: u8) -> &'static [u8] {
    match letter {
        b'a' => b"at move",
        b'b' => b"between",
        b'c' => b"corner cycle,commut",
        b'e' => b"einf,esquel,edge cycle",
        b'i' => b"inser",
        b'k' => b"kommut",
        b'l' => b"l3c,l3e,l4c,l4e,l5c,l5e",
        b'r' => b"replac",
        b's' => b"skele,squel,schele",
        b'w' => b"wstaw",
        _ => b"",
    }
}

/// Letters by which solvers say that moves are others than those written.
fn corrections_by(letter: u8) -> &'static [u8] {
    match letter {
        b'c' => b"correct",
        b'i' => b"instead",
        b'm' => b"must be,mistake",
        b'o' => b"oops",
        b's' => b"should be",
        b't' => b"typo",
        _ => b"",
    }
}

/// Words by which they do.
const CORRECTION_WORDS: &[u8] = b"edit,update";

/// Names of algorithms that solvers make by heart.
const ALGORITHMS: &[u8] = b"perm,sune,antisune,sexy,sledge,niklas";

/// Whether a word names such moves, without saying which they are.
pub fn names_algorithm(word: &[u8]) -> bool {
    fits_one_of(word, ALGORITHMS, true)
}

/// How a link begins, or the moves in one.
const LINKS: &[u8] = b"http,www.,alg=";

/// Whether a text begins with what may be a move that isn't read as one; whose letters are this word.
fn is_unread(text: &[u8], word: &[u8], is_first: bool) -> bool {
    is_wide_letter(text) || looks_like_turn(text, is_first) || (is_first && is_half_read(word))
}

/// Whether a word is a capital letter of a turn with one that a printed 2 or apostrophe is taken for.
fn is_half_read(word: &[u8]) -> bool {
    word.len() == 2
        && is_capital(word[0])
        && matches!(word[1], b'I' | b'T' | b'Z' | b'l' | b'i' | b'z')
}

/// Whether a text begins with a letter of another alphabet that looks like a turn's, with nothing after it but what a turn may
/// have. One without that is mostly a word; not so if it comes first.
fn looks_like_turn(text: &[u8], is_first: bool) -> bool {
    if text.len() < 2 || !is_alike(text[0], text[1]) {
        return false;
    }
    match first_kind(&text[2..]) {
        Kind::Digit | Kind::Prime | Kind::Apostrophe => true,
        Kind::Blank | Kind::LineEnd => is_first,
        _ => false,
    }
}

/// Whether two bytes are a capital letter of Cyrillic or Greek that looks like B, E or M.
fn is_alike(first: u8, second: u8) -> bool {
    match first {
        0xd0 => matches!(second, 0x92 | 0x95 | 0x9c),
        0xce => matches!(second, 0x92 | 0x95 | 0x9c),
        _ => false,
    }
}

/// Whether a text begins with a capital letter as wide as a Chinese sign.
fn is_wide_letter(text: &[u8]) -> bool {
    text.len() > 2 && text[0] == 0xef && text[1] == 0xbc && matches!(text[2], 0xa1..=0xba)
}

/// The same in Russian, without the first letter, in Chinese, Japanese and Korean.
const INSERTIONS_BEYOND: &[u8] =
    b"\xd1\x81\xd1\x82\xd0\xb0\xd0\xb2\xd0\xba,\xe6\x8f\x92\xe5\x85\xa5,\xe6\x8c\xbf\xe5\x85\xa5,\xec\x82\xbd\xec\x9e\x85,\xe9\xaa\xa8\xe6\x9e\xb6";

/// Whether a text begins with an I that stands by itself, as solvers name the inverse. Before a word in small letters it
/// is who writes. A small one counts only at the end of what it stands in, and after a sign or a blank.
fn is_letter_of_inverse(text: &[u8], before: &[u8]) -> bool {
    if text.is_empty() || small(text[0]) != b'i' {
        return false;
    }
    let after = &text[1..];
    if text[0] == b'I' && first_kind(after) == Kind::Blank {
        return first_kind(trimmed(after)) != Kind::Small;
    }
    let is_last = matches!(first_kind(after), Kind::Colon | Kind::Close | Kind::LineEnd);
    is_last && (text[0] == b'I' || before.is_empty() || before[before.len() - 1] < 0x80)
}

/// Whether a word is a short one for moves before others, or for another side; so is what stands last, as in a label.
fn is_short_side(text: &[u8], word: &[u8]) -> bool {
    fits_one_of(word, b"pre,pm,rev,sw", true) || is_word(text, b"setup")
}

/// Whether a text begins with the word for a side, after what ends with "normal" and a sign: that is the side on which
/// moves are read anyway.
pub fn is_normal_side(text: &[u8], before: &[u8]) -> bool {
    let normal = &before[before.len().saturating_sub(7)..];
    word_length(text, b"side") > 0 && word_length(normal, b"normal") > 0
}

/// Whether a text begins with letters that say so, or with such a word.
fn begins_correction(text: &[u8], word: &[u8]) -> bool
    requires { 0 < length text.now }
{
    fits_one_of(text, corrections_by(small(text[0])), false)
        || fits_one_of(word, CORRECTION_WORDS, true)
}

/// Whether a text begins with letters that say so.
fn begins_insertion(text: &[u8]) -> bool
    requires { 0 < length text.now }
{
    let words = if text[0] >= 0x80 {
        INSERTIONS_BEYOND
    } else {
        insertions_by(small(text[0]))
    };
    fits_one_of(text, words, false)
}

/// Whether a text begins with a word for moves into which others are to be put.
pub fn names_skeleton(text: &[u8]) -> bool {
    fits_one_of(
        text,
        b"skele,squel,schele,esquel,\xe9\xaa\xa8\xe6\x9e\xb6",
        false,
    )
}

/// Whether a word denies what follows it, as in `no insertion`: if the words before it do so, a link does too.
pub fn denies(word: &[u8], is_denied: bool) -> bool
    ensures none { result ≡ true → is_denied ≡ false → Contains words_of_none (map small word.now) }
    ensures only { result ≡ true → Contains words_of_none (map small word.now) ⊎ Contains words_of_links (map small word.now) }
    ensures all { 0 < length word.now → Contains words_of_none (map small word.now) → result ≡ true }
    ensures goes_on { 0 < length word.now → is_denied ≡ true → Contains words_of_links (map small word.now) → result ≡ true }
{
    is_word_of_none(word) || (is_denied && is_link(word))
}

/// Whether the sign that a text begins with, which is no letter, leaves what follows denied: a blank does if it was, and the
/// apostrophe of `didn't` does.
pub fn denies_by_sign(text: &[u8], is_denied: bool) -> bool
    ensures { slice_index text.now 0 ≡ 32 → result ≡ is_denied }
{
    if text.is_empty() {
        return false;
    }
    match text[0] {
        b' ' => is_denied,
        b'\'' | 0x99 => is_word(word_of(&text[1..]), b"t"),
        _ => false,
    }
}

/// How many bytes a word has at most behind which it is denied, with what denies it.
const MOST_DENIED: usize = 40;

/// What denies the word before it.
const DENIALS: &[u8] =
    b"not found,not needed,not used,was not found,had none,had nothing,has nothing,gave nothing";

/// Whether the word that a text begins with is denied by those after it, as in `insertion not found`.
pub fn is_denied_behind(text: &[u8]) -> bool {
    let begin = &text[..text.len().min(MOST_DENIED)];
    fits_one_of(trimmed(behind(begin, Class::Letters)), DENIALS, false)
}
