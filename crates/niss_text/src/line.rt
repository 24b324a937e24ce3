//! A line of a text: where its parts are, and what is seen of it.
ghost use Rattle.std.specs.Prelude.{◌≡◌, ◌≤◌, ◌<◌, ◌+◌, ◌⊎◌, nat_lt, ℕ, true, false, length, take, drop, slice_index, slice_range};
ghost use Rattle.niss_text.specs.Signs.{ends_line, HasNoMoves};
ghost use Rattle.niss_text.specs.Kept.{BeginNoMoves, IsTitleEnd, LosesNone, AreInNotation, ArePlainBefore, begins_with_turn, words_of_head};
ghost use Rattle.niss_text.specs.Said.{HasNoSlashes, IsLabelled, SaysSolution, is_a_head};
ghost use Rattle.niss_text.specs.Lines.{IsUnbroken, IsEnd, end_of, end_size};

use crate::body::{are_long, has_frame, is_whole_scramble};
use crate::forms::{blanks, line_length, margin};
use crate::full_stop::says_more;
use crate::heads::head_of;
use crate::line_parts::parts_of;
use crate::marks::is_bullet;
use crate::sign::{Class, behind, from_place, is_digit_byte};
use crate::word::are_plain_moves;
use crate::words::{Wanted, says, says_solution};

/// Which numbers may stand before a scramble.
#[derive(Clone, Copy, PartialEq, Eq)]
pub enum Numbers {
    /// None: what begins a line so is its number.
    OfLines,
    /// Those of a list, such as `2`.
    Listed,
    /// Those of a list with extras, such as `E2`.
    WithExtras,
}

/// What tells a scramble from others in front of a line.
#[derive(Clone, Copy, PartialEq, Eq)]
pub enum Head {
    None,
    Number,
    Word,
}

/// What stands in a line beside its moves.
#[derive(Clone, Copy, PartialEq, Eq)]
pub enum Beside {
    Nothing,
    /// Signs without letters before them, such as `- `.
    Signs,
    /// Words before or after them.
    Words,
}

/// What is seen of a line: how many bytes its head has, where the words of its label begin and end, where its moves and
/// what is said after them begin, where slashes begin a comment, and what these say.
#[derive(Clone, Copy)]
pub struct Line {
    pub head_kind: Head,
    pub head: usize,
    pub label_begin: usize,
    pub label_end: usize,
    pub moves: usize,
    pub comment: usize,
    /// Where the first name stands that is no move, but spelled by them; at the slashes if there is none.
    pub name: usize,
    pub slashes: usize,
    pub length: usize,
    pub is_blank: bool,
    pub is_head_alone: bool,
    pub is_moves: bool,
    pub beside: Beside,
    /// Its label has a digit.
    is_numbered: bool,
    /// It has the sign of a list before its moves, and no words.
    is_listed: bool,
    /// Something is said after its moves: more than a full stop.
    is_said: bool,
    pub is_solution: bool,
    pub is_final: bool,
    pub is_step: bool,
    pub is_whole: bool,
    ghost head_in: { head ≤ label_begin },
    ghost label_in: { label_begin ≤ label_end },
    ghost words_in: { label_end ≤ moves },
    ghost moves_in: { moves ≤ comment },
    ghost comment_in: { comment ≤ slashes },
    ghost name_in: { name ≤ slashes },
    ghost slashes_in: { slashes ≤ length },
}

impl Line {
    /// A line of that many bytes, which after its head, if it has one, has nothing but moves from there on, or none at its
    /// end.
    fn bare(head: (Head, usize), moves: usize, length: usize, is_whole: bool) -> Line
        requires head { head.1 ≤ moves }
        requires moves { moves ≤ length }
        ensures length { result.length ≡ length }
        ensures head { result.head ≡ head.1 }
        ensures label { (result.label_begin ≡ moves) × ((result.label_end ≡ moves) × (result.moves ≡ moves)) }
        ensures comment { result.comment ≡ length }
        ensures kind { result.head_kind ≡ head.0 }
        ensures unsaid { result.is_solution ≡ false }
        ensures bare { (result.is_blank ≡ true) ⊎ (result.is_head_alone ≡ true) → moves ≡ length }
        ensures moves { moves < length → result.is_moves ≡ true }
    {
        Line {
            head_kind: head.0,
            head: head.1,
            label_begin: moves,
            label_end: moves,
            moves,
            comment: length,
            name: length,
            slashes: length,
            length,
            is_blank: moves == length && head.0 == Head::None,
            is_head_alone: moves == length && head.0 != Head::None,
            is_moves: moves < length,
            beside: seen_beside(&[], head.0 == Head::Word),
            is_numbered: false,
            is_listed: false,
            is_said: false,
            is_solution: false,
            is_final: false,
            is_step: false,
            is_whole,
        }
    }

    /// Whether words say what it is.
    pub fn is_told(&self) -> bool {
        self.beside == Beside::Words
    }

    /// Whether nothing stands in it beside moves.
    pub fn has_only_moves(&self) -> bool {
        self.beside == Beside::Nothing && self.head_kind == Head::None
    }

    /// Whether its moves are as many as those of a scramble, or more.
    pub fn is_long(&self) -> bool
        ensures { self.now.moves + 40 ≤ self.now.comment → result ≡ true }
    {
        are_long(self.moves, self.comment)
    }

    /// Whether its moves may be a scramble: they are long, and nothing is said of them, but perhaps by words with a number
    /// in front that name no step and no solution. The sign of a list says nothing.
    pub fn may_be_scramble(&self) -> bool
        ensures { self.now.is_listed ≡ true → self.now.moves + 40 ≤ self.now.comment → result ≡ true }
    {
        let is_named = self.is_numbered
            && !(self.is_step || self.is_solution || self.has_comment());
        self.is_long() && (self.has_only_moves() || self.is_listed || is_named)
    }

    /// Whether something is said after its moves.
    pub fn has_comment(&self) -> bool {
        self.is_said
    }
}

/// Whether a line has nothing but blanks and signs that quote it.
pub fn is_blank(line: &[u8]) -> bool {
    margin(line) == line.len()
}

/// What stands beside the moves of a line that has this label, and other words or not.
fn seen_beside(label: &[u8], has_words: bool) -> Beside {
    if has_words || !behind(label, Class::NoLetters).is_empty() {
        Beside::Words
    } else if label.is_empty() {
        Beside::Nothing
    } else {
        Beside::Signs
    }
}

/// Whether a line has nothing but blanks from a place on.
pub fn is_empty_from(line: &[u8], from: usize) -> bool
    requires { from ≤ length line.now }
    ensures { result ≡ true → HasNoMoves (drop from line.now) }
{
    let rest = from_place(line, from);
    blanks(rest) == rest.len()
}

/// A line that isn't blank without what stands in front of it, which has that many bytes.
fn line_behind(line: &[u8], head_kind: Head, head: usize) -> Line
    requires { head ≤ length line.now }
    ensures head { result.head ≡ head }
    ensures kind { result.head_kind ≡ head_kind }
    ensures length { result.length ≡ length line.now }
    ensures margin { BeginNoMoves (slice_range line.now head result.label_begin) }
    ensures title { IsTitleEnd (slice_range line.now result.label_end result.moves) }
    ensures filled { result.is_blank ≡ false }
    ensures comment { begins_with_turn (drop result.comment line.now) ≡ false }
    ensures uncommented { HasNoSlashes (slice_range line.now result.moves result.comment) }
    ensures labelled { IsLabelled line.now (drop result.label_begin line.now) result.label_begin result.moves }
    ensures said { result.is_solution ≡ true →
        SaysSolution (slice_range line.now result.label_begin result.label_end) }
    ensures alone { result.is_head_alone ≡ true → HasNoMoves (drop head line.now) }
    ensures commented { (count : ℕ) → head ≡ 0 → ArePlainBefore line.now count →
        (result.is_moves ≡ true) × ((result.moves ≡ 0) × (result.comment ≡ count)) }
{
    let parts = parts_of(line, head);
    let label = &line[parts.label_begin..parts.label_end];
    let title = &line[parts.label_begin..parts.title_end];
    let body = &line[parts.moves..parts.comment];
    let is_solution = says_solution(title);
    let is_said = says_more(&line[parts.comment..]);
    let has_words = head_kind == Head::Word || is_said;
    Line {
        head_kind,
        head,
        label_begin: parts.label_begin,
        label_end: parts.label_end,
        moves: parts.moves,
        comment: parts.comment,
        name: parts.name,
        slashes: parts.slashes,
        length: line.len(),
        is_blank: false,
        is_head_alone: head_kind != Head::None && is_empty_from(line, head),
        is_moves: parts.is_moves,
        beside: seen_beside(label, has_words),
        is_listed: !has_words && is_bullet(label),
        is_said,
        is_numbered: label.iter().any(|byte| is_digit_byte(*byte)),
        is_solution,
        is_final: is_solution && says(title, Wanted::Final),
        is_step: says(label, Wanted::Step) || says(&line[parts.comment..], Wanted::Step),
        is_whole: is_whole_scramble(body),
    }
}

/// A line with a head, which ends there.
fn headed_line(line: &[u8], kind: Head, head: usize) -> Line
    requires { head ≤ length line.now }
    ensures length { result.length ≡ length line.now }
    ensures head { result.head ≡ head }
    ensures kind { result.head_kind ≡ kind }
    ensures margin { BeginNoMoves (slice_range line.now head result.label_begin) }
    ensures title { IsTitleEnd (slice_range line.now result.label_end result.moves) }
    ensures blank { result.is_blank ≡ true → HasNoMoves (drop head line.now) }
    ensures comment { begins_with_turn (drop result.comment line.now) ≡ false }
    ensures uncommented { HasNoSlashes (slice_range line.now result.moves result.comment) }
    ensures labelled { IsLabelled line.now (drop result.label_begin line.now) result.label_begin result.moves }
    ensures said { result.is_solution ≡ true →
        SaysSolution (slice_range line.now result.label_begin result.label_end) }
    ensures alone { result.is_head_alone ≡ true → HasNoMoves (drop head line.now) }
{
    let rest = from_place(line, head);
    let blank = blanks(rest);
    let moves = head + blank;
    let body = from_place(rest, blank);
    if body.is_empty() || are_plain_moves(body) {
        return Line::bare((kind, head), moves, line.len(), is_whole_scramble(body));
    }
    line_behind(line, kind, head)
}

/// Whether a line is plain moves, but of an E at its beginning: E2 may be an extra.
fn is_bare(line: &[u8]) -> bool
    ensures some { result ≡ true → 0 < length line.now }
    ensures plain { AreInNotation line.now → result ≡ true }
    ensures slash { result ≡ true → (k : ℕ) → slice_index line.now k ≡ 47 → ⊥ }
{
    are_plain_moves(line) && line[0] != b'E'
}

/// What is seen of a line. One that goes on with prose after its head has none.
#[inline(never)]
pub fn line_of(line: &[u8], numbers: Numbers) -> Line
    ensures length { result.length ≡ length line.now }
    ensures headed { is_a_head result.head_kind ≡ nat_lt 0 result.head }
    ensures kept { LosesNone words_of_head line.now 0 result.head result.label_begin result.label_end result.moves }
    ensures blank { result.is_blank ≡ true → HasNoMoves (drop result.head line.now) }
    ensures alone { result.is_head_alone ≡ true → HasNoMoves (drop result.head line.now) }
    ensures comment { begins_with_turn (drop result.comment line.now) ≡ false }
    ensures uncommented { HasNoSlashes (slice_range line.now result.moves result.comment) }
    ensures labelled { IsLabelled line.now (drop result.label_begin line.now) result.label_begin result.moves }
    ensures said { result.is_solution ≡ true →
        SaysSolution (slice_range line.now result.label_begin result.label_end) }
    ensures plain { AreInNotation line.now → (result.is_moves ≡ true) × ((result.moves ≡ 0) × (result.comment ≡ result.length)) }
    ensures commented { (count : ℕ) → ArePlainBefore line.now count →
        (result.is_moves ≡ true) × ((result.moves ≡ 0) × (result.comment ≡ count)) }
{
    if is_bare(line) {
        return Line::bare((Head::None, 0), 0, line.len(), is_whole_scramble(line));
    }
    let begin = margin(line);
    if begin == line.len() {
        return Line::bare((Head::None, 0), begin, begin, false);
    }
    let (kind, length) = head_of(from_place(line, begin), numbers);
    if kind != Head::None {
        let seen = headed_line(line, kind, begin + length);
        if seen.is_moves || seen.is_head_alone {
            return seen;
        }
    }
    line_behind(line, Head::None, 0)
}

/// How many bytes what ends a line has in front of a text.
fn line_end_length(text: &[u8]) -> usize
    requires some { 0 < length text.now }
    requires ends { ends_line (slice_index text.now 0) ≡ true }
    ensures some { 0 < result }
    ensures fits { result ≤ length text.now }
    ensures ends { result ≡ end_of (slice_index text.now 0) (slice_index text.now 1) }
{
    if text.len() > 1 && text[0] == b'\r' && text[1] == b'\n' {
        2
    } else {
        1
    }
}

/// The first line of a text, and how many bytes it has with what ends it.
pub fn cut_line(text: &[u8], numbers: Numbers) -> (Line, usize)
    requires { 0 < length text.now }
    ensures line { result.0.length ≤ length text.now }
    ensures some { 0 < result.1 }
    ensures fits { result.1 ≤ length text.now }
    ensures whole { IsUnbroken text.now 0 result.0.length }
    ensures ends { result.1 ≡ result.0.length + end_size text.now result.0.length }
    ensures ended { IsEnd text.now result.0.length }
    ensures headed { is_a_head result.0.head_kind ≡ nat_lt 0 result.0.head }
    ensures kept { LosesNone words_of_head (take result.0.length text.now) 0 result.0.head result.0.label_begin result.0.label_end result.0.moves }
    ensures blank { result.0.is_blank ≡ true → HasNoMoves (drop result.0.head (take result.0.length text.now)) }
    ensures alone { result.0.is_head_alone ≡ true → HasNoMoves (drop result.0.head (take result.0.length text.now)) }
    ensures comment { begins_with_turn (drop result.0.comment (take result.0.length text.now)) ≡ false }
    ensures uncommented { HasNoSlashes (slice_range (take result.0.length text.now) result.0.moves result.0.comment) }
    ensures labelled { IsLabelled (take result.0.length text.now) (drop result.0.label_begin (take result.0.length text.now))
        result.0.label_begin result.0.moves }
    ensures said { result.0.is_solution ≡ true →
        SaysSolution (slice_range (take result.0.length text.now) result.0.label_begin result.0.label_end) }
    ensures plain { AreInNotation (take result.0.length text.now) →
        (result.0.is_moves ≡ true) × ((result.0.moves ≡ 0) × (result.0.comment ≡ result.0.length)) }
    ensures commented { (count : ℕ) → ArePlainBefore (take result.0.length text.now) count →
        (result.0.is_moves ≡ true) × ((result.0.moves ≡ 0) × (result.0.comment ≡ count)) }
{
    let length = line_length(text);
    let line = line_of(&text[..length], numbers);
    if length == text.len() {
        return (line, length);
    }
    (line, length + line_end_length(&text[length..]))
}

/// The bytes of the first line of a text, and how many these are with what ends it.
#[inline(never)]
pub fn cut_text(text: &[u8]) -> (&[u8], usize)
    requires { 0 < length text.now }
    ensures line { result.0.now ≡ take (length result.0.now) text.now }
    ensures within { length result.0.now ≤ length text.now }
    ensures unbroken { IsUnbroken text.now 0 (length result.0.now) }
    ensures ends { result.1 ≡ length result.0.now + end_size text.now (length result.0.now) }
    ensures ended { IsEnd text.now (length result.0.now) }
    ensures whole { (0 < result.1) × (result.1 ≤ length text.now) }
{
    let length = line_length(text);
    if length == text.len() {
        return (text, length);
    }
    (&text[..length], length + line_end_length(&text[length..]))
}

/// How many bytes the first line of a text has with what ends it.
pub fn whole_length(text: &[u8]) -> usize
    requires { 0 < length text.now }
    ensures { (0 < result) × (result ≤ length text.now) }
{
    cut_text(text).1
}

/// What tells a line from other scrambles.
pub fn head_in_front(line: &[u8], numbers: Numbers) -> Head {
    head_of(&line[margin(line)..], numbers).0
}

/// Whether a line may begin an attempt: by a head, or as a whole scramble.
pub fn may_begin(line: &[u8], numbers: Numbers) -> bool {
    head_in_front(line, numbers) != Head::None || has_frame(line)
}

/// The first line of a text.
pub fn first_line(text: &[u8], numbers: Numbers) -> Line
    ensures { result.length ≤ length text.now }
{
    line_of(&text[..line_length(text)], numbers)
}
