//! Words in a text, in capitals or small letters.
ghost use Rattle.std.specs.Prelude.{◌≡◌, ◌≤◌, ◌<◌, ◌+◌, ℕ, true, false, length, take, drop, map, slice_index};
ghost use Rattle.niss_text.specs.Signs.{is_letter};
ghost use Rattle.niss_text.specs.Doubts.{is_letter as is_plain_letter};
ghost use Rattle.std.specs.List.{Contains};
ghost use Rattle.niss_text.specs.Kept.{small};
ghost use Rattle.niss_text.specs.Said.{HasWord, SaysSolution, listed, words_of, words_of_links, words_of_none, words_of_step, are_spelled};
ghost use Rattle.niss_text.specs.Steps.{words_before_step};

use crate::sign::{Class, from_place, is_letter_byte, length_of, one_sign};

/// A letter of ASCII as a small one.
pub fn small(byte: u8) -> u8
    ensures { result ≡ small byte }
{
    if byte >= b'A' && byte <= b'Z' {
        byte + 32
    } else {
        byte
    }
}

/// How many bytes this word has, which is written in small letters, if a text begins with it; else 0.
#[inline(never)]
pub fn word_length(text: &[u8], word: &[u8]) -> usize
    ensures fits { result ≤ length text.now }
    ensures word { 0 < result → map small (take result text.now) ≡ word.now }
    ensures all { result ≡ 0 → 0 < length word.now → map small (take (length word.now) text.now) ≡ word.now → ⊥ }
{
    if text.len() < word.len() {
        return 0;
    }
    for (at, byte) in word.iter().enumerate() {
        if small(text[at]) != *byte {
            return 0;
        }
    }
    word.len()
}

/// Whether a text is this word, which is written in small letters and has any.
pub fn is_word(text: &[u8], word: &[u8]) -> bool
    ensures some { result ≡ true → 0 < length text.now }
    ensures is { result ≡ true → map small text.now ≡ word.now }
    ensures all { 0 < length text.now → map small text.now ≡ word.now → result ≡ true }
{
    text.len() == word.len() && word_length(text, word) > 0
}

/// How many bytes of some words stand before the first comma.
fn first_length(words: &[u8]) -> usize
    ensures fits { result ≤ length words.now }
    ensures before { (k : ℕ) → k < result → slice_index words.now k ≡ 44 → ⊥ }
    ensures comma { result < length words.now → slice_index words.now result ≡ 44 }
{
    for (at, byte) in words.iter().enumerate() {
        if *byte == b',' {
            return at;
        }
    }
    words.len()
}

/// What is behind the first of some words, which has that many bytes, and its comma.
fn behind_word(words: &[u8], count: usize) -> &[u8]
    requires { count ≤ length words.now }
    ensures more { count < length words.now → result.now ≡ drop (count + 1) words.now }
    ensures last { length words.now ≤ count → length result.now ≡ 0 }
{
    let comma = from_place(words, count);
    from_place(comma, comma.len().min(1))
}

/// Whether a text begins with a word, or is it.
fn fits(text: &[u8], word: &[u8], is_whole: bool) -> bool
    ensures some { is_whole ≡ true → result ≡ true → 0 < length text.now }
    ensures whole { is_whole ≡ true → result ≡ true → map small text.now ≡ word.now }
    ensures all { is_whole ≡ true → 0 < length text.now → map small text.now ≡ word.now → result ≡ true }
{
    if is_whole {
        is_word(text, word)
    } else {
        word_length(text, word) > 0
    }
}

/// Whether a text begins with one of these words, or is one. They have small letters, and commas between them.
#[inline(never)]
pub fn fits_one_of(text: &[u8], words: &[u8], is_whole: bool) -> bool
    ensures whole { is_whole ≡ true → result ≡ true → Contains (listed words.now) (map small text.now) }
    ensures all { is_whole ≡ true → 0 < length text.now → Contains (listed words.now) (map small text.now) → result ≡ true }
{
    let mut rest = words;
    while !rest.is_empty() {
        let length = first_length(rest);
        if fits(text, &rest[..length], is_whole) {
            return true;
        }
        rest = behind_word(rest, length);
    }
    false
}

/// Whether a word of a label says that moves without brackets belong to the inverse: no line says so without them.
pub fn is_other_side(word: &[u8]) -> bool {
    fits_one_of(word, b"inverse,inv,niss,premove,premoves,switch", true)
}

/// A kind of words that a label or a comment may have.
#[derive(Clone, Copy)]
pub enum Wanted {
    /// What solvers call a step.
    Step,
    /// What solvers call a solution.
    Solution,
    /// Several of them.
    Solutions,
    /// The one that counts.
    Final,
    /// What solvers call a scramble.
    Scramble,
    /// The inverse, for the side of the moves.
    Inverse,
    /// What makes the inverse something else than the side of these moves.
    Switch,
    /// What says that there is nothing of what follows, also by an apostrophe after it.
    Denial,
}

impl Wanted {
    /// Whether a word is of them.
    pub fn has(self, word: &[u8]) -> bool
        ensures said { result ≡ true → Contains (words_of self) (map small word.now) }
        ensures all { 0 < length word.now → Contains (words_of self) (map small word.now) → result ≡ true }
    {
        match self {
            Wanted::Step => is_step_name(word),
            Wanted::Solution => fits_one_of(word, SOLUTIONS, true),
            Wanted::Solutions => is_word(word, b"solutions"),
            Wanted::Final => is_word(word, b"final"),
            Wanted::Scramble => fits_one_of(word, SCRAMBLES, true),
            Wanted::Inverse => fits_one_of(word, b"inverse,inv", true),
            Wanted::Switch => fits_one_of(word, b"normal,niss,switch,premove,premoves", true),
            Wanted::Denial => fits_one_of(word, DENIALS, true),
        }
    }
}

/// What solvers call a solution, or what they wrote down for the judge. Only letters of ASCII may be capital ones.
const SOLUTIONS: &[u8] =
    b"solution,sol,submitted,l\xc3\xb6sung,l\xc3\xb6sning,soluci\xc3\xb3n,solucion,soluzione,solu\xc3\xa7\xc3\xa3o,rozwi\xc4\x85zanie,oplossing,\xc3\xa7\xc3\xb6z\xc3\xbcm,\xc3\x87\xc3\xb6z\xc3\xbcm,\xd1\x80\xd0\xb5\xd1\x88\xd0\xb5\xd0\xbd\xd0\xb8\xd0\xb5,\xd0\xa0\xd0\xb5\xd1\x88\xd0\xb5\xd0\xbd\xd0\xb8\xd0\xb5,\xe8\xa7\xa3\xe6\xb3\x95,\xe8\xa7\xa3\xe7\xad\x94,\xed\x92\x80\xec\x9d\xb4";

/// The words of none, and those that have `'t` after them.
const DENIALS: &[u8] =
    b"no,not,nothing,none,never,without,didn,don,doesn,can,couldn,hadn,hasn,haven,isn,aren,ain,wasn,weren,won,wouldn,shouldn";

/// What solvers call a scramble.
const SCRAMBLES: &[u8] =
    b"scramble,scr,mischung,verdrehung,m\xc3\xa9lange,melange,mezcla,mescolata,embaralhamento,\xd1\x81\xd0\xba\xd1\x80\xd0\xb0\xd0\xbc\xd0\xb1\xd0\xbb,\xd0\xa1\xd0\xba\xd1\x80\xd0\xb0\xd0\xbc\xd0\xb1\xd0\xbb,\xe6\x89\x93\xe4\xb9\xb1,\xe6\x89\x93\xe4\xba\x82,\xe3\x82\xb9\xe3\x82\xaf\xe3\x83\xa9\xe3\x83\xb3\xe3\x83\x96\xe3\x83\xab,\xec\x8a\xa4\xed\x81\xac\xeb\x9e\xa8\xeb\xb8\x94";

/// Whether solvers call a step so.
pub fn is_step_name(word: &[u8]) -> bool
    ensures said { result ≡ true → Contains words_of_step (map small word.now) }
    ensures all { 0 < length word.now → Contains words_of_step (map small word.now) → result ≡ true }
{
    fits_one_of(word, b"eo,dr,htr,fr,finish,skeleton,slice", true)
}

/// Whether solvers write a word by itself before the moves of a step.
pub fn names_step(word: &[u8]) -> bool
    ensures said { result ≡ true → Contains words_before_step (map small word.now) }
    ensures all { 0 < length word.now → Contains words_before_step (map small word.now) → result ≡ true }
{
    fits_one_of(word, b"eo,dr,htr,fr,fin,finish,auf", true)
}

/// Whether a word says that there is nothing of what the next one names.
pub fn is_word_of_none(word: &[u8]) -> bool
    ensures said { result ≡ true → Contains words_of_none (map small word.now) }
    ensures all { 0 < length word.now → Contains words_of_none (map small word.now) → result ≡ true }
{
    fits_one_of(word, b"no,not,nothing,none,never,without", true)
}

/// Whether a word may stand between such a word and what there is nothing of, as in `nothing on the inverse`.
pub fn is_link(word: &[u8]) -> bool
    ensures said { result ≡ true → Contains words_of_links (map small word.now) }
    ensures all { 0 < length word.now → Contains words_of_links (map small word.now) → result ≡ true }
{
    fits_one_of(
        word,
        b"on,in,from,with,the,a,an,any,anything,good,better,eo,dr,htr,find,found,using,t",
        true,
    )
}

/// Whether solvers call the last step so, or its end.
pub fn is_end_name(word: &[u8]) -> bool {
    fits_one_of(word, b"fin,end,done,rest,solved", true)
}

/// Whether solvers call a step so, and then say of which axis it is.
pub fn has_axis(word: &[u8]) -> bool {
    fits_one_of(word, b"eo,dr", true)
}

/// Whether a text begins with a word before which solvers name a place of the cube, or a case, by a letter.
pub fn names_place(text: &[u8]) -> bool {
    fits_one_of(
        text,
        b"slice,layer,face,side,axis,edge,corner,bar,perm,case,auf",
        false,
    )
}

/// Whether two letters of a text stand together.
fn has_word(text: &[u8]) -> bool
    ensures { (k : ℕ) → is_letter (slice_index text.now k) ≡ true → is_letter (slice_index text.now (k + 1)) ≡ true → result ≡ true }
{
    let mut is_after_letter = false;
    for byte in text {
        let is_letter = is_letter_byte(*byte);
        if is_letter && is_after_letter {
            return true;
        }
        is_after_letter = is_letter;
    }
    false
}

/// How many bytes the first sign of a text has: none of none.
pub fn sign_size(text: &[u8]) -> usize
    ensures some { 0 < length text.now → 0 < result }
    ensures fits { result ≤ length text.now }
    ensures inner { (k : ℕ) → 0 < k → k < result → is_plain_letter (slice_index text.now k) ≡ false }
{
    if text.is_empty() {
        0
    } else if is_letter_byte(text[0]) {
        one_sign(text).length
    } else {
        1
    }
}

/// How many bytes of letters a text begins with.
pub fn letters_in_front(text: &[u8]) -> usize
    requires { 0 < length text.now }
    ensures fits { result ≤ length text.now }
    ensures letters { (k : ℕ) → k < result → is_letter (slice_index text.now k) ≡ true }
    ensures all_letters { is_plain_letter (slice_index text.now result) ≡ false }
{
    // most signs are of moves
    if is_letter_byte(text[0]) {
        length_of(text, Class::Letters)
    } else {
        0
    }
}

/// What is after the letters that a text begins with, that many, and the sign behind them.
pub fn behind_letters(text: &[u8], letters: usize) -> &[u8]
    requires { letters ≤ length text.now }
    ensures { 0 < length text.now → length result.now < length text.now }
{
    let others = from_place(text, letters);
    from_place(others, sign_size(others))
}

/// Where the first word of such begins that a text has: at its end if it has none.
#[inline(never)]
pub fn place_said(text: &[u8], wanted: Wanted) -> usize
    ensures fits { result ≤ length text.now }
    ensures said { result < length text.now → (has : HasWord is_plain_letter (words_of wanted) text.now) × (has.at ≡ result) }
    ensures all { are_spelled (words_of wanted) ≡ true → HasWord is_letter (words_of wanted) text.now → result < length text.now }
{
    if !has_word(text) {
        return text.len();
    }
    let mut rest = text;
    while !rest.is_empty() {
        let letters = letters_in_front(rest);
        // none of these words is a letter by itself, as most moves are
        if letters > 1 && wanted.has(&rest[..letters]) {
            return text.len() - rest.len();
        }
        let others = from_place(rest, letters);
        rest = from_place(others, sign_size(others));
    }
    text.len()
}

/// Whether a text has a word of such.
pub fn says(text: &[u8], wanted: Wanted) -> bool
    ensures said { result ≡ true → HasWord is_plain_letter (words_of wanted) text.now }
    ensures all { are_spelled (words_of wanted) ≡ true → HasWord is_letter (words_of wanted) text.now → result ≡ true }
{
    place_said(text, wanted) < text.len()
}

/// Whether a label says that the solution follows, and before that no step of which it is.
pub fn says_solution(title: &[u8]) -> bool
    ensures { result ≡ true → SaysSolution title.now }
{
    let at = place_said(title, Wanted::Solution);
    at < title.len() && !says(&title[..at], Wanted::Step)
}
