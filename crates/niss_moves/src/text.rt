//! Moves written out.
ghost use Rattle.std.specs.Prelude.{◌≡◌, ℕ, ◌+◌, ◌*◌, ◌≤◌, ◌<◌, List, [], ◌∷◌, ◌++◌, length, map, take, drop, if◌then◌else◌};
ghost use Rattle.arrayvec.specs.ArrayVec.{array_vec_len};
ghost use Rattle.niss_moves.specs.Effects.{inverse};
ghost use Rattle.niss_moves.specs.Line.{joined_moves};
ghost use Rattle.niss_moves.specs.Text.{word, with_words, gap, turn_words, rotation_words, cleaned_words, with_bracket};
ghost use Rattle.niss_moves.specs.Cleaning.{with_clean_line};
ghost use Rattle.niss_moves.specs.Rotations.{rotation_if};
ghost use Rattle.niss_moves.specs.Helpers.{with_buffered, is_empty};
ghost use Rattle.niss_moves.specs.declared.token.Token.TheVariants as token;

use crate::cleaning::clean_sequence;
use crate::niss::Niss;
use crate::rotation::{Faces, Rotation};
use crate::token::Token;
use crate::turn::{Axis, Power, Turn};
use arrayvec::ArrayVec;

/// A line of output.
pub type LineText = ArrayVec<u8, 2048>;

/// A space and a word: the first `len` bytes.
#[derive(Clone, Copy)]
pub struct Word {
    pub bytes: [u8; 4],
    pub len: usize,
}

impl Word {
    /// The word of a face turn.
    pub fn of_turn(turn: Turn) -> Word
        ensures bytes { take result.len result.bytes ≡ 32 ∷ word (token.Face turn) }
        ensures len { result.len ≤ 3 }
    {
        Word::of_token(Token::Face(turn))
    }

    /// The word of a rotation about an axis.
    pub fn of_rotation(axis: Axis, power: Power) -> Word
        ensures bytes { take result.len result.bytes ≡ 32 ∷ word (token.Rotation axis power) }
        ensures len { result.len ≤ 3 }
    {
        Word::of_token(Token::Rotation(axis, power))
    }

    /// The word of a move.
    #[tactic(auto, using(crate::proofs::Words::word_at))]
    pub fn of_token(token: Token) -> Word
        ensures bytes { take result.len result.bytes ≡ 32 ∷ word token }
        ensures len { result.len ≤ 4 }
    {
        WORDS[token.index()]
    }
}

/// The words of face turns and wide turns by these letters, and of other moves by those, each with the three powers.
macro_rules! words_of {
    ($($face:literal)*; $($letter:literal)*) => {
        [
            $(
                Word { bytes: [b' ', $face, 0, 0], len: 2 },
                Word { bytes: [b' ', $face, b'2', 0], len: 3 },
                Word { bytes: [b' ', $face, b'\'', 0], len: 3 },
            )*
            $(
                Word { bytes: [b' ', $face, b'w', 0], len: 3 },
                Word { bytes: [b' ', $face, b'w', b'2'], len: 4 },
                Word { bytes: [b' ', $face, b'w', b'\''], len: 4 },
            )*
            $(
                Word { bytes: [b' ', $letter, 0, 0], len: 2 },
                Word { bytes: [b' ', $letter, b'2', 0], len: 3 },
                Word { bytes: [b' ', $letter, b'\'', 0], len: 3 },
            )*
        ]
    };
}

/// By the numbers of the moves.
static WORDS: [Word; 54] = words_of!(b'U' b'D' b'R' b'L' b'F' b'B'; b'M' b'E' b'S' b'y' b'x' b'z');

/// Words that are to be appended to a text. They wait here since a piece of fixed length is copied fastest.
#[derive(Drop)]
pub struct WordBuffer {
    bytes: [u8; 64],
    len: usize,
    /// Whether no space stands before the first word.
    no_gap: bool,
    ghost fits: { len ≤ 64 },
}

impl WordBuffer {
    /// No words yet, to be appended to this text.
    pub fn after(text: &LineText) -> WordBuffer
        ensures none { result.len ≡ 0 }
        ensures gap { gap text.now.items ≡ (if result.no_gap then [] else 32 ∷ []) }
    {
        WordBuffer {
            bytes: [0; 64],
            len: 0,
            no_gap: has_no_gap(text),
        }
    }

    /// Appends the words to the text.
    #[tactic(auto, using(crate::proofs::Words::written))]
    pub fn write(&mut self, text: &mut LineText)
        requires { array_vec_len text.old + self.old.len ≤ 2048 }
        ensures items { (rest : List ℕ) → with_buffered text.new.items self.new.no_gap rest
            ≡ with_buffered text.old.items self.old.no_gap (take self.old.len self.old.bytes ++ rest) }
        ensures len { array_vec_len text.new ≤ array_vec_len text.old + self.old.len }
        ensures none { self.new.len ≡ 0 }
    {
        if self.len == 0 {
            return;
        }
        text.try_extend_from_slice(&self.bytes[self.no_gap as usize..self.len])
            .unwrap();
        self.len = 0;
        self.no_gap = false;
    }

    #[tactic(auto, using(crate::proofs::Words::copied))]
    fn append(&mut self, word: Word)
        requires room { self.old.len ≤ 60 }
        requires word { word.len ≤ 4 }
        ensures items { take self.new.len self.new.bytes
            ≡ take self.old.len self.old.bytes ++ take word.len word.bytes }
        ensures len { self.new.len ≡ self.old.len + word.len }
        ensures gap { self.new.no_gap ≡ self.old.no_gap }
    {
        self.bytes[self.len..self.len + 4].copy_from_slice(&word.bytes);
        self.len += word.len;
    }

    /// Takes one more word. If there is no room, the others go to the text first.
    pub fn push(&mut self, word: Word, text: &mut LineText)
        requires room { array_vec_len text.old + self.old.len + word.len ≤ 2048 }
        requires word { word.len ≤ 4 }
        ensures items { (rest : List ℕ) →
            with_buffered text.new.items self.new.no_gap (take self.new.len self.new.bytes ++ rest)
            ≡ with_buffered text.old.items self.old.no_gap
            (take self.old.len self.old.bytes ++ take word.len word.bytes ++ rest) }
        ensures len { array_vec_len text.new + self.new.len
            ≤ array_vec_len text.old + self.old.len + word.len }
    {
        if self.len > 60 {
            self.write(text);
        }
        self.append(word);
    }
}

/// Whether no space stands before a word that comes next.
pub(crate) fn has_no_gap(text: &LineText) -> bool
    ensures { gap text.now.items ≡ (if result then [] else 32 ∷ []) }
{
    match text.last() {
        Some(last) => *last == b'(',
        None => true,
    }
}

/// Appends the space that stands before a word, if one does.
pub(crate) fn put_gap(text: &mut LineText)
    requires { length text.old.items < 2048 }
    ensures items { text.new.items ≡ text.old.items ++ gap text.old.items }
    ensures len { length text.new.items ≤ length text.old.items + 1 }
{
    if !has_no_gap(text) {
        text.push(b' ');
    }
}

/// Appends the words of the moves, with one space before each word, but not at the beginning of the text or after
/// `(`. A wide turn is written with `w`, a half turn with `2`, a quarter turn counterclockwise with `'`. The text needs
/// four free bytes for each move.
#[tactic(auto, using(crate::proofs::Words::writes_none))]
pub fn put_tokens(tokens: &[Token], text: &mut LineText)
    requires { length text.old.items + 4 * length tokens.now ≤ 2048 }
    ensures items { text.new.items ≡ with_words text.old.items (map word tokens.now) }
    ensures len { length text.new.items ≤ length text.old.items + 4 * length tokens.now }
{
    let mut words = WordBuffer::after(text);
    for token in tokens {
        words.push(Word::of_token(*token), text);
    }
    words.write(text);
}

/// Appends the words of the inverse of the moves, in the same way.
#[tactic(auto, using(crate::proofs::Words::writes_none))]
fn put_inverse(tokens: &[Token], text: &mut LineText)
    requires { length text.old.items + 4 * length tokens.now ≤ 2048 }
    ensures items { text.new.items ≡ with_words text.old.items (map word (inverse tokens.now)) }
    ensures len { length text.new.items ≤ length text.old.items + 4 * length tokens.now }
{
    let mut words = WordBuffer::after(text);
    let mut rest = tokens;
    while let Some((last, front)) = rest.split_last() {
        words.push(Word::of_token(last.inverse()), text);
        rest = front;
    }
    words.write(text);
}

/// Appends the words of the moves that `unniss` gives, in the same way, and makes no list of them. The text needs 1,024
/// free bytes.
#[tactic(auto, using(crate::proofs::Words::words_more))]
pub fn put_unniss(niss: &Niss, text: &mut LineText)
    requires { length text.old.items + 1024 ≤ 2048 }
    ensures items { text.new.items ≡ with_words text.old.items (map word (joined_moves niss.now)) }
    ensures len { length text.new.items ≤ length text.old.items + 1024 }
{
    put_tokens(niss.normal(), text);
    put_inverse(niss.inverse(), text);
}

/// Appends the words of the moves that `invert` gives, in the same way, and makes no list of them. The text needs 1,024
/// free bytes.
#[tactic(auto, using(crate::proofs::Words::words_more, crate::proofs::Effects::inverse_whole))]
pub fn put_inverted(niss: &Niss, text: &mut LineText)
    requires { length text.old.items + 1024 ≤ 2048 }
    ensures items { text.new.items
        ≡ with_words text.old.items (map word (inverse (joined_moves niss.now))) }
    ensures len { length text.new.items ≤ length text.old.items + 1024 }
{
    put_tokens(niss.inverse(), text);
    put_inverse(niss.normal(), text);
}

/// Appends the words of the face turns, with one space before each word, but not at the beginning of the text or after
/// `(`. A turn takes at most three bytes.
#[tactic(auto, using(crate::proofs::Words::writes_none))]
pub fn put_faces(turns: &[Turn], text: &mut LineText)
    requires { length text.old.items + 3 * length turns.now ≤ 2048 }
    ensures items { text.new.items ≡ with_words text.old.items (turn_words turns.now) }
    ensures len { length text.new.items ≤ length text.old.items + 3 * length turns.now }
{
    let mut words = WordBuffer::after(text);
    for turn in turns {
        words.push(Word::of_turn(*turn), text);
    }
    words.write(text);
}

/// Appends the word of a rotation about an axis, if there is one, in the same way.
fn put_about_axis(rotation: Option<(Axis, Power)>, text: &mut LineText)
    requires { length text.old.items + 3 ≤ 2048 }
    ensures items { text.new.items
        ≡ with_words text.old.items (map word (rotation_if rotation)) }
    ensures len { length text.new.items ≤ length text.old.items + 3 }
{
    let Some((axis, power)) = rotation else {
        return;
    };
    let word = Word::of_rotation(axis, power);
    let spaced = &word.bytes[has_no_gap(text) as usize..word.len];
    text.try_extend_from_slice(spaced).unwrap();
}

/// Appends the one spelling of the rotation, as `x2 y2`, with one space before each word, but not at the beginning of the
/// text or after `(`. The identity has no word. The text needs six free bytes.
#[tactic(auto, using(crate::proofs::Words::words_more))]
pub fn put_rotation(rotation: Rotation, text: &mut LineText)
    requires { length text.old.items + 6 ≤ 2048 }
    ensures items { text.new.items ≡ with_words text.old.items (rotation_words rotation) }
    ensures len { length text.new.items ≤ length text.old.items + 6 }
{
    put_about_axis(rotation.top.to_top(), text);
    put_about_axis(rotation.about_vertical(), text);
}

/// Whether there is no word to write.
#[tactic(auto, using(crate::proofs::Words::not_empty))]
fn have_no_word(turns: &[Turn], rotation: Rotation) -> bool
    ensures { result ≡ is_empty (cleaned_words turns.now rotation) }
{
    turns.is_empty() && rotation == Rotation::IDENTITY
}

/// Appends the words of cleaned face turns and of the rotation after them.
#[tactic(auto, using(crate::proofs::Words::words_after))]
fn put_cleaned(turns: &[Turn], rotation: Rotation, text: &mut LineText)
    requires { length text.old.items + 3 * length turns.now + 6 ≤ 2048 }
    ensures items { text.new.items
        ≡ with_words text.old.items (cleaned_words turns.now rotation) }
    ensures len { length text.new.items ≤ length text.old.items + 3 * length turns.now + 6 }
{
    put_faces(turns, text);
    put_rotation(rotation, text);
}

/// Appends them in a bracket, if there is any word.
#[tactic(auto, using(crate::proofs::Words::bracket_empty, crate::proofs::Words::bracket_filled))]
fn put_bracketed(turns: &[Turn], rotation: Rotation, text: &mut LineText)
    requires { length text.old.items + 3 * length turns.now + 9 ≤ 2048 }
    ensures items { text.new.items
        ≡ with_bracket text.old.items (cleaned_words turns.now rotation) }
    ensures len { length text.new.items ≤ length text.old.items + 3 * length turns.now + 9 }
{
    if have_no_word(turns, rotation) {
        return;
    }
    put_gap(text);
    text.push(b'(');
    put_cleaned(turns, rotation, text);
    text.push(b')');
}

/// Appends the cleaned line, as `R (U2 x)`: the normal face turns and rotation, and then the bracketed ones in a bracket,
/// if any word of these is left. The normal and the bracketed moves are cleaned each by itself. That takes at most
/// three bytes for each of 512 face turns, six for each rotation and three for the bracket: the text needs 1,600 free bytes.
pub fn put_niss_clean(niss: &Niss, text: &mut LineText)
    requires { length text.old.items + 1600 ≤ 2048 }
    ensures items { text.new.items ≡ with_clean_line text.old.items niss.now }
    ensures len { length text.new.items ≤ length text.old.items + 1600 }
{
    let mut turns = Faces::new();
    let rotation = clean_sequence(niss.normal(), &mut turns);
    put_cleaned(&turns, rotation, text);
    turns.clear();
    let rotation = clean_sequence(niss.inverse(), &mut turns);
    put_bracketed(&turns, rotation, text);
}
