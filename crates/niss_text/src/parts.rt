//! The parts of a text that has only solutions, of scrambles that are known: what stands under each head, or in each block
//! if the text has no heads.
ghost use Rattle.std.specs.Prelude.{◌≡◌, ◌≤◌, ◌<◌, ◌==◌, ◌||◌, ◌&&◌, ◌⊎◌, ℕ, List, true, false, not, None, is_some, length, take, drop};
ghost use Rattle.niss_text.specs.Kept.{words_of_any_head};
ghost use Rattle.niss_text.specs.Known.{with_digit, is_extra, head_number, number_of_line, HaveHeads, IsName, IsNamed, IsNumbered, IsRead};
ghost use Rattle.niss_text.specs.Lines.{CoversBy, has_moves};
ghost use Rattle.niss_text.specs.Doubts.{is_letter};

use crate::moves::part_of;
use crate::sights::is_letter;
use crate::sign::is_digit_byte;
use crate::text_line::{LineKind, TextLine};

/// A number, or none, with one more digit.
fn with_digit(number: Option<usize>, digit: u8) -> usize
    ensures { result ≡ with_digit number digit }
{
    number
        .unwrap_or(0)
        .saturating_mul(10)
        .saturating_add(usize::from(digit.saturating_sub(b'0')))
}

/// Whether a byte that is no digit says that a head has this number, or none: it ends that, or is the letter of extras.
fn ends_number(number: Option<usize>, has_letters: bool, byte: u8) -> bool
    ensures { result ≡ (is_some number || (not has_letters && is_extra byte)) }
{
    number.is_some() || (!has_letters && (byte == b'e' || byte == b'E'))
}

/// Whether there are letters, with one more byte.
fn or_letter(has_letters: bool, byte: u8) -> bool
    ensures { result ≡ (has_letters || is_letter byte) }
{
    has_letters || is_letter(byte)
}

/// The number of a head, if it has one: extras, such as `E1`, have others.
#[inline(never)]
pub fn number_in(head: &[u8]) -> Option<usize>
    ensures { result ≡ head_number head.now }
{
    let mut number = None;
    let mut has_letters = false;
    for byte in head {
        if is_digit_byte(*byte) {
            number = Some(with_digit(number, *byte));
        } else if ends_number(number, has_letters, *byte) {
            return number;
        }
        has_letters = or_letter(has_letters, *byte);
    }
    number
}

/// The number of the head of a line, if it has one with a number.
pub fn number_of(text: &[u8], line: &TextLine) -> Option<usize>
    ensures { result ≡ number_of_line text.now line.now }
{
    if line.is_headed == 0 {
        return None;
    }
    number_in(part_of(text, line.begin, line.head_end))
}

/// Whether a line has moves.
pub fn has_moves(line: &TextLine) -> bool
    ensures { result ≡ has_moves line.now }
{
    line.is_a(LineKind::Scramble) || line.is_a(LineKind::Step)
}

/// Whether one of some lines has a head.
pub fn has_head(lines: &[TextLine]) -> bool {
    lines.iter().any(|line| line.is_headed != 0)
}

/// What is seen of the lines of a part.
#[derive(Clone, Copy)]
pub struct Part {
    /// Where its first line begins that isn't blank.
    pub begin: usize,
    /// Where what is under its last head begins: at the next line that isn't blank.
    pub body: usize,
    /// Where the next part begins, or the text ends.
    pub end: usize,
    /// Its first head, and the number of that.
    pub name_begin: usize,
    pub name_end: usize,
    pub number: Option<usize>,
    /// The first number of a head.
    first_number: Option<usize>,
    has_head: bool,
    has_moves: bool,
    is_begun: bool,
    has_body: bool,
}

impl Part {
    /// Before its first line.
    fn nothing() -> Part
        ensures name { (result.name_begin ≡ 0) × (result.name_end ≡ 0) }
        ensures number { result.number ≡ None }
        ensures none { (result.has_head ≡ false) × ((result.has_moves ≡ false) × (result.has_body ≡ false)) }
        ensures unbegun { result.is_begun ≡ false }
    {
        Part {
            begin: 0,
            body: 0,
            end: 0,
            name_begin: 0,
            name_end: 0,
            number: None,
            first_number: None,
            has_head: false,
            has_moves: false,
            is_begun: false,
            has_body: false,
        }
    }

    /// Whether there is something in it.
    pub fn is_something(&self) -> bool
        ensures { result ≡ (self.now.has_head || self.now.has_moves) }
    {
        self.has_head || self.has_moves
    }

    /// Whether a line begins another part: if it has a head after moves, or one with another number; without heads in
    /// the text if it is blank.
    fn is_ended_by(&self, line: &TextLine, number: Option<usize>, is_by_blocks: bool) -> bool
        ensures { result ≡ false → (line.now.is_headed ≡ 0) ⊎ (self.now.has_moves ≡ false) }
    {
        if line.is_headed != 0 {
            let is_other = self.first_number.is_some()
                && number.is_some()
                && number != self.first_number;
            return self.has_moves || is_other;
        }
        is_by_blocks && self.is_begun && line.is_a(LineKind::Blank)
    }

    /// With one more line, of whose head this is the number.
    fn with(self, line: &TextLine, number: Option<usize>) -> Part
        ensures named { (line.now.is_headed ≡ 0 → ⊥) → self.has_head ≡ false →
            (result.name_begin ≡ line.now.begin) × (result.name_end ≡ line.now.head_end) × (result.number ≡ number) }
        ensures kept { (line.now.is_headed ≡ 0) ⊎ (self.has_head ≡ true) →
            (result.name_begin ≡ self.name_begin) × (result.name_end ≡ self.name_end) × (result.number ≡ self.number) }
        ensures has { result.has_head ≡ (self.has_head || not (line.now.is_headed == 0)) }
        ensures moves { result.has_moves ≡ (self.has_moves || has_moves line.now) }
        ensures bare { result.has_body ≡ false → (line.now.kind ≡ 0) × ((line.now.is_headed ≡ 0 → ⊥) ⊎ (self.has_body ≡ false)) }
        ensures filled { result.has_body ≡ (not (line.now.kind == 0) || ((line.now.is_headed == 0) && self.has_body)) }
        ensures under_head { (line.now.is_headed ≡ 0 → ⊥) → result.body ≡ line.now.head_end }
        ensures first { line.now.is_headed ≡ 0 → self.has_body ≡ false → result.has_body ≡ true → result.body ≡ line.now.begin }
        ensures later { line.now.is_headed ≡ 0 → (self.has_body ≡ true) ⊎ (result.has_body ≡ false) → result.body ≡ self.body }
        ensures unbegun { (result.is_begun ≡ true) ⊎ ((result ≡ self) × ((line.now.kind ≡ 0) × (line.now.is_headed ≡ 0))) }
        ensures begins { self.is_begun ≡ false → result.is_begun ≡ true → result.begin ≡ line.now.begin }
        ensures goes_on { self.is_begun ≡ true → (result.is_begun ≡ true) × (result.begin ≡ self.begin) }
    {
        let is_blank = line.is_a(LineKind::Blank);
        if line.is_headed != 0 {
            return self.with_head(line, number, !is_blank);
        }
        if is_blank {
            return self;
        }
        let mut part = self.begun(line);
        part.has_moves = self.has_moves || has_moves(line);
        if !self.has_body {
            part.body = line.begin;
            part.has_body = true;
        }
        part
    }

    /// After a line that isn't blank.
    fn begun(self, line: &TextLine) -> Part
        ensures kept { (result.name_begin ≡ self.name_begin) × (result.name_end ≡ self.name_end) × (result.number ≡ self.number) }
        ensures has { result.has_head ≡ self.has_head }
        ensures same { (result.has_moves ≡ self.has_moves) × ((result.has_body ≡ self.has_body) × (result.body ≡ self.body)) }
        ensures begun { result.is_begun ≡ true }
        ensures begins { self.is_begun ≡ false → result.begin ≡ line.now.begin }
        ensures goes_on { self.is_begun ≡ true → result.begin ≡ self.begin }
    {
        Part {
            begin: if self.is_begun {
                self.begin
            } else {
                line.begin
            },
            is_begun: true,
            ..self
        }
    }

    /// With a line that has a head.
    fn with_head(self, line: &TextLine, number: Option<usize>, has_body: bool) -> Part
        ensures named { self.has_head ≡ false →
            (result.name_begin ≡ line.now.begin) × (result.name_end ≡ line.now.head_end) × (result.number ≡ number) }
        ensures kept { self.has_head ≡ true →
            (result.name_begin ≡ self.name_begin) × (result.name_end ≡ self.name_end) × (result.number ≡ self.number) }
        ensures has { result.has_head ≡ true }
        ensures moves { result.has_moves ≡ (self.has_moves || has_moves line.now) }
        ensures body { (result.body ≡ line.now.head_end) × (result.has_body ≡ has_body) }
        ensures begun { result.is_begun ≡ true }
        ensures begins { self.is_begun ≡ false → result.begin ≡ line.now.begin }
        ensures goes_on { self.is_begun ≡ true → result.begin ≡ self.begin }
    {
        let mut part = self.begun(line);
        if !self.has_head {
            part.name_begin = line.begin;
            part.name_end = line.head_end;
            part.number = number;
        }
        part.first_number = self.first_number.or(number);
        part.has_head = true;
        part.has_moves = self.has_moves || has_moves(line);
        part.body = line.head_end;
        part.has_body = has_body;
        part
    }
}

/// Where the first of some lines stands, or the place where they end if there is none.
fn place_of(lines: &[TextLine], end: usize) -> usize
    ensures { (text : List ℕ) (at : ℕ) → CoversBy words_of_any_head text at lines.now end → result ≡ at }
{
    match lines.split_first() {
        Some((line, _)) => line.begin,
        None => end,
    }
}

/// The first part of some lines, and how many of them it has.
pub fn first_part(text: &[u8], lines: &[TextLine], is_by_blocks: bool) -> (Part, usize)
    ensures fits { result.1 ≤ length lines.now }
    ensures some { 0 < length lines.now → 0 < result.1 }
    ensures numbered { IsNumbered text.now result.0 }
    ensures named { IsNamed (take result.1 lines.now) result.0 }
    ensures name { HaveHeads text.now lines.now → IsName text.now result.0.name_begin result.0.name_end }
    ensures read { (from : ℕ) → CoversBy words_of_any_head text.now from lines.now (length text.now) → IsRead text.now from result.1 result.0 }
    ensures rest { (from : ℕ) → CoversBy words_of_any_head text.now from lines.now (length text.now) →
        CoversBy words_of_any_head text.now result.0.end (drop result.1 lines.now) (length text.now) }
{
    let mut part = Part::nothing();
    let mut rest = lines;
    while let Some((line, others)) = rest.split_first() {
        let number = number_of(text, line);
        if rest.len() < lines.len() && part.is_ended_by(line, number, is_by_blocks) {
            break;
        }
        part = part.with(line, number);
        rest = others;
    }
    part.end = place_of(rest, text.len());
    (part, lines.len() - rest.len())
}
