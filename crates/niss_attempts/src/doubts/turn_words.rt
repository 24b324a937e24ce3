//! Turns as bytes, and the letters of their faces that stand in a text outside words.
ghost use Rattle.std.specs.Prelude.{◌≡◌, ◌<◌, ◌≤◌, false, length, slice_index};
ghost use Rattle.niss_moves.specs.Facelets.{face_letter};
ghost use Rattle.niss_moves.specs.declared.turn.Face.{Face};
ghost use Rattle.niss_text.specs.Signs.{is_within};
ghost use Rattle.niss_attempts.specs.ShownTurn.{suffix_byte, turn_bytes, goes_on, is_apart, is_face_letter, is_letter_of, is_of_word, stands_at};

use niss_moves::{Face, Power, Turn};

/// The letter of a face.
pub(crate) fn letter(face: Face) -> u8
    ensures is { result ≡ face_letter face }
    ensures capital { result ≤ 90 }
{
    match face {
        Face::U => b'U',
        Face::D => b'D',
        Face::R => b'R',
        Face::L => b'L',
        Face::F => b'F',
        Face::B => b'B',
    }
}

/// What stands after the letter of a turn, or a blank.
pub(crate) fn suffix(power: Power) -> u8
    ensures { result ≡ suffix_byte power }
{
    match power {
        Power::Quarter => b' ',
        Power::Half => b'2',
        Power::Counter => b'\'',
    }
}

/// A turn between blanks.
pub fn turn_bytes(turn: Turn) -> [u8; 4]
    ensures { result ≡ turn_bytes turn }
{
    [b' ', letter(turn.face), suffix(turn.power), b' ']
}

/// The byte of a text at a place, 0 after its end.
pub fn byte_at(text: &[u8], at: usize) -> u8
    ensures { result ≡ slice_index text.now at }
{
    if at < text.len() { text[at] } else { 0 }
}

/// Whether a byte is one of some that follow one another.
pub fn is_within(first: u8, last: u8, byte: u8) -> bool
    ensures { result ≡ is_within first last byte }
{
    byte >= first && byte <= last
}

/// Whether a byte is of a word: a letter or a digit of ASCII, or one that makes a face with a letter, as `:` does.
fn is_of_word(byte: u8) -> bool
    ensures { result ≡ is_of_word byte }
{
    is_within(b'0', b'=', byte) || (is_within(b'A', b'Z', byte) || is_within(b'a', b'z', byte))
}

/// Whether a letter before a byte is of a word: before a 2 or a 3 it may be of a turn.
fn goes_on(byte: u8) -> bool
    ensures { result ≡ goes_on byte }
{
    is_of_word(byte) && !(byte == b'2' || byte == b'3')
}

/// Whether a letter at a place of a text isn't within a word.
fn is_apart(text: &[u8], at: usize) -> bool
    requires { at < length text.now }
    ensures { result ≡ is_apart text.now at }
{
    !(is_of_word(byte_at(text, at.saturating_sub(1))) || goes_on(byte_at(text, at + 1)))
}

/// Whether a byte is the letter of a face, capital or small.
fn is_letter_of(face: Face, byte: u8) -> bool
    ensures { result ≡ is_letter_of face byte }
{
    let capital = letter(face);
    byte == capital || byte == capital + 32
}

/// Whether the letter of a face stands at a place of a text, and isn't within a word.
#[tactic(auto, unfolding(crate::specs::ShownTurn::stands_at))]
pub fn stands_at(text: &[u8], face: Face, at: usize) -> bool
    requires { at < length text.now }
    ensures { result ≡ stands_at text.now face at }
{
    is_letter_of(face, byte_at(text, at)) && is_apart(text, at)
}

/// Whether a byte is the letter of some face.
fn is_face_letter(byte: u8) -> bool
    ensures { result ≡ is_face_letter byte }
{
    is_letter_of(Face::U, byte)
        || (is_letter_of(Face::D, byte)
            || (is_letter_of(Face::R, byte)
                || (is_letter_of(Face::L, byte)
                    || (is_letter_of(Face::F, byte) || is_letter_of(Face::B, byte)))))
}

/// Whether the letter of some face stands so at a place of a text. It is soon told.
#[inline(never)]
pub fn may_begin(text: &[u8], at: usize) -> bool
    requires { at < length text.now }
    ensures { result ≡ false → (face : Face) → stands_at text.now face at ≡ false }
{
    is_face_letter(byte_at(text, at)) && is_apart(text, at)
}
