//! Where the parts of a line are after its head: its label, its moves, and what is said after them.
ghost use Rattle.std.specs.Prelude.{◌≡◌, ◌≤◌, ◌<◌, ◌+◌, ℕ, true, false, length, drop, take, slice_index, slice_range};
ghost use Rattle.niss_text.specs.Kept.{ArePlain, ArePlainBefore, BeginNoMoves, IsTitleEnd, begins_with_turn};
ghost use Rattle.niss_text.specs.Doubts.{is_letter as is_plain_letter};
ghost use Rattle.niss_text.specs.Said.{HasNoSlashes, IsLabelled};
ghost use Rattle.niss_text.specs.Pieces.{EndsWithColon};

use crate::forms::{blanks, comment_at, label_of, margin};
use crate::heads::number_length;
use crate::sign::from_place;
use crate::span::span_of;

/// Where the parts of a line are: its label, its moves, and what is said after them.
#[derive(Clone, Copy)]
pub struct Parts {
    pub label_begin: usize,
    /// Where the words of the label end that stand before its colon, if it has one.
    pub title_end: usize,
    pub label_end: usize,
    pub moves: usize,
    pub comment: usize,
    pub name: usize,
    pub slashes: usize,
    pub is_moves: bool,
    ghost title_in: { label_begin ≤ title_end },
    ghost label_in: { title_end ≤ label_end },
    ghost words_in: { label_end ≤ moves },
    ghost moves_in: { moves ≤ comment },
    ghost comment_in: { comment ≤ slashes },
    ghost name_in: { name ≤ slashes },
}

/// How many bytes a line has in front of its label: its margin, its number, and blanks.
fn numbering(line: &[u8]) -> usize
    ensures fits { result ≤ length line.now }
    ensures begin { BeginNoMoves (take result line.now) }
{
    let begin = margin(line);
    let numbered = from_place(line, begin);
    let number = number_length(numbered);
    begin + number + blanks(from_place(numbered, number))
}

/// How many bytes the words of a label have in front of a line, and how many it has with what ends it.
fn title_of(line: &[u8]) -> (usize, usize)
    ensures order { result.0 ≤ result.1 }
    ensures fits { result.1 ≤ length line.now }
    ensures none { result.0 ≡ 0 → result.1 ≡ 0 }
    ensures end { IsTitleEnd (slice_range line.now result.0 result.1) }
    ensures plain { ArePlain line.now → result.1 ≡ 0 }
    ensures words { 0 < result.0 → is_plain_letter (slice_index line.now result.0) ≡ false }
    ensures colon { 0 < result.0 → EndsWithColon (take result.1 line.now) }
{
    match label_of(line) {
        Some(label) => (label.words, label.length),
        None => (0, 0),
    }
}

/// Where the parts of a line are after its head, which has that many bytes.
pub fn parts_of(line: &[u8], head: usize) -> Parts
    requires { head ≤ length line.now }
    ensures head { head ≤ result.label_begin }
    ensures fits { result.slashes ≤ length line.now }
    ensures margin { BeginNoMoves (slice_range line.now head result.label_begin) }
    ensures title { IsTitleEnd (slice_range line.now result.label_end result.moves) }
    ensures comment { begins_with_turn (drop result.comment line.now) ≡ false }
    ensures uncommented { HasNoSlashes (slice_range line.now result.moves result.comment) }
    ensures slashes { result.slashes < length line.now →
        (slice_index line.now result.slashes ≡ 47) × (slice_index line.now (result.slashes + 1) ≡ 47) }
    ensures entitled { result.title_end < result.label_end → is_plain_letter (slice_index line.now result.title_end) ≡ false }
    ensures labelled { IsLabelled line.now (drop result.label_begin line.now) result.label_begin result.moves }
    ensures plain { (count : ℕ) → head ≡ 0 → ArePlainBefore line.now count →
        (result.is_moves ≡ true) × ((result.moves ≡ 0) × (result.comment ≡ count)) }
{
    let slashes = head + comment_at(from_place(line, head));
    let begin = head + numbering(&line[head..slashes]);
    let (words, title) = title_of(&line[begin..slashes]);
    let body = begin + title;
    let span = span_of(&line[body..slashes]);
    let comment = body + span.end;
    let lead = body + span.begin;
    let title_end = if words == 0 { lead } else { begin + words };
    Parts {
        label_begin: begin,
        title_end,
        label_end: if span.begin == 0 { title_end } else { lead },
        moves: lead + blanks(&line[lead..comment]),
        comment,
        name: body + span.name,
        slashes,
        is_moves: span.is_moves,
    }
}
