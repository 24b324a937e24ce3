//! The pieces of a text, one after another: single bytes of moves, and what is read otherwise or left out.
ghost use Rattle.std.specs.Prelude.{◌≡◌, ◌<◌, ◌≤◌, Bool, true, false, None, length, take, slice_index, IfSome, MatchOption};
ghost use Rattle.niss_text.specs.Kept.{BeginsWithTitle};
ghost use Rattle.niss_text.specs.Pieces.{IsFirst, IsLabel, is_before_moves, is_begun, is_title, stays_before};
ghost use Rattle.niss_text.specs.declared.piece.Place.TheVariants.{Among, Begin};
ghost use Rattle.niss_text.specs.declared.piece.Piece.TheVariants.{Comment, Kept, Label, LineNumber};
ghost use Rattle.niss_text.specs.Signs.{begins_number, begins_count, is_of_letters};

use crate::forms::{count_length, label_of, line_length};
use crate::heads::{head_length, number_length};
use crate::sign::{Kind, first_sign, is_digit_byte, is_letter_byte};

/// What a piece is.
#[derive(Clone, Copy, PartialEq, Eq)]
pub enum Piece {
    /// A byte that stays.
    Kept,
    /// What parts moves.
    Blank,
    LineEnd,
    Comma,
    /// What the grammar has another sign for.
    Apostrophe,
    Unseen,
    /// What stands before the moves of a line and says what they are.
    Label,
    LineNumber,
    MoveCount,
    Comment,
}

/// Where one is in a line.
#[derive(Clone, Copy, PartialEq, Eq)]
pub enum Place {
    /// Before its number.
    Begin,
    /// After its number, before a label.
    Numbered,
    /// After what may be a label.
    Moves,
    /// Among the moves of a line, of which nothing else follows.
    Among,
}

impl Place {
    /// Whether what stands before the moves of a line may follow.
    fn has_titles(self) -> bool
        ensures { result ≡ is_before_moves self }
    {
        matches!(self, Place::Begin | Place::Numbered)
    }

    /// Where one is after a piece.
    pub fn after(self, piece: Piece) -> Place
        ensures among { self ≡ Among → result ≡ Among }
        ensures apart { result ≡ Among → self ≡ Among }
        ensures before { (self ≡ Among → ⊥) → is_before_moves result ≡ stays_before (is_before_moves self) piece }
        ensures begin { result ≡ Begin → (begun : Bool) → (self ≡ Begin → begun ≡ true) → is_begun begun piece ≡ true }
    {
        match piece {
            _ if self == Place::Among => self,
            Piece::LineEnd => Place::Begin,
            Piece::Blank | Piece::Unseen => self,
            Piece::LineNumber => Place::Numbered,
            _ => Place::Moves,
        }
    }
}

/// How many bytes the head or the label has in front of a text; 0 if there is none.
fn title_length(line: &[u8]) -> usize
    ensures fits { result ≤ length line.now }
    ensures is { 0 < result → IsLabel (take result line.now) }
    ensures title { BeginsWithTitle line.now → 0 < result }
{
    if let Some(label) = label_of(line) {
        return label.length;
    }
    head_length(line)
}

/// Whether a number may begin with a byte.
fn begins_number(byte: u8) -> bool
    ensures { result ≡ begins_number byte }
{
    byte == b'#' || is_digit_byte(byte)
}

/// Whether a number of moves may begin with two bytes.
fn begins_count(first: u8, second: u8) -> bool
    ensures { result ≡ begins_count first second }
{
    (first == b'(' || first == b'[') && is_digit_byte(second)
}

/// What has a form of its own in front of a text among its moves, and how many bytes it has: a comment or a number of
/// moves.
fn form_of_moves(text: &[u8]) -> Option<(Piece, usize)>
    ensures first { IfSome result (λ first. IsFirst text.now first.0 first.1) }
    ensures untitled { IfSome result (λ first. is_title first.0 ≡ false) }
    ensures kept { IfSome result (λ first. first.0 ≡ Kept → ⊥) }
    ensures none { result ≡ None → slice_index text.now 0 ≡ 47 → slice_index text.now 1 ≡ 47 → ⊥ }
{
    if text.len() < 2 {
        return None;
    }
    if text[0] == b'/' && text[1] == b'/' {
        let length = line_length(text);
        if length > 1 {
            return Some((Piece::Comment, length));
        }
    }
    if begins_count(text[0], text[1]) {
        let count = count_length(text);
        if count > 0 {
            return Some((Piece::MoveCount, count));
        }
    }
    None
}

/// The piece before the moves of a line in front of a text, if there is one, and how many bytes it has.
fn first_of_line(text: &[u8], place: Place) -> Option<(Piece, usize)>
    requires { 0 < length text.now }
    ensures first { IfSome result (λ first. IsFirst text.now first.0 first.1) }
    ensures number { IfSome result (λ first. first.0 ≡ LineNumber → place ≡ Begin) }
    ensures title { BeginsWithTitle text.now → MatchOption result ⊥ (λ first. first.0 ≡ Label) }
{
    let line = &text[..line_length(text)];
    if place == Place::Begin && begins_number(text[0]) {
        let number = number_length(line);
        if number > 0 {
            return Some((Piece::LineNumber, number));
        }
    }
    if is_letter_byte(text[0]) {
        let title = title_length(line);
        if title > 0 {
            return Some((Piece::Label, title));
        }
    }
    None
}

/// The piece in front of a text among its moves, and how many bytes it has.
fn first_of_moves(text: &[u8]) -> (Piece, usize)
    requires { 0 < length text.now }
    ensures first { IsFirst text.now result.0 result.1 }
    ensures untitled { is_title result.0 ≡ false }
{
    if let Some(form) = form_of_moves(text) {
        return form;
    }
    let sign = first_sign(text);
    match sign.kind {
        Kind::LineEnd => (Piece::LineEnd, sign.length),
        Kind::Blank => (Piece::Blank, sign.length),
        Kind::Unseen => (Piece::Unseen, sign.length),
        Kind::Comma => (Piece::Comma, sign.length),
        Kind::Apostrophe => (Piece::Apostrophe, sign.length),
        _ => (Piece::Kept, 1),
    }
}

/// Whether a piece before the moves may begin at a sign.
fn may_begin(kind: Kind) -> bool
    ensures { is_of_letters kind ≡ true → result ≡ true }
{
    !matches!(kind, Kind::Blank | Kind::Unseen | Kind::LineEnd)
}

/// The piece in front of a text, and how many bytes it has.
pub fn first_piece(text: &[u8], place: Place) -> (Piece, usize)
    requires { 0 < length text.now }
    ensures first { IsFirst text.now result.0 result.1 }
    ensures untitled { is_before_moves place ≡ false → is_title result.0 ≡ false }
    ensures number { result.0 ≡ LineNumber → place ≡ Begin }
    ensures title { is_before_moves place ≡ true → BeginsWithTitle text.now → result.0 ≡ Label }
{
    if place.has_titles() && may_begin(first_sign(text).kind) {
        if let Some(first) = first_of_line(text, place) {
            return first;
        }
    }
    first_of_moves(text)
}
