//! A line of a text in the attempt that it is of.
ghost use Rattle.std.specs.Prelude.{◌≡◌, ◌==◌, ◌≤◌, ◌+◌, nat_le, if◌then◌else◌, length};
ghost use Rattle.niss_text.specs.Lines.{IsLine};
ghost use Rattle.niss_text.specs.Numbers.{number_of_kind};

use crate::line::Line;

/// What a line is in its attempt.
#[derive(Clone, Copy, PartialEq, Eq)]
pub enum LineKind {
    /// Blanks, or a head alone.
    Blank,
    /// Prose before the scramble.
    Before,
    Scramble,
    /// Moves after it.
    Step,
    /// Prose after it.
    Note,
}

impl LineKind {
    /// Its number.
    pub fn number(self) -> u8
        ensures { result ≡ number_of_kind self }
    {
        match self {
            LineKind::Blank => 0,
            LineKind::Before => 1,
            LineKind::Scramble => 2,
            LineKind::Step => 3,
            LineKind::Note => 4,
        }
    }

    /// Whether it stands after the scramble.
    pub fn is_after_scramble(self) -> bool
        ensures { result ≡ nat_le 3 (number_of_kind self) }
    {
        matches!(self, LineKind::Step | LineKind::Note)
    }
}

/// A line of a text, and what it is there. Places are in bytes of the text.
#[repr(C)]
#[derive(Clone, Copy, Debug, PartialEq, Eq)]
pub struct TextLine {
    /// The number of a `LineKind`.
    pub kind: u8,
    /// 1: it is in the group that is the solution. 0 says no here and below, and what isn't 0 is read as yes.
    pub is_solution: u8,
    /// 1: a head stands before `head_end`. The first one of an attempt is its name.
    pub is_headed: u8,
    /// 1: its label says, up to a colon if it has one, that the solution follows.
    pub says_solution: u8,
    /// 1: what is said of it has its moves on the inverse, and they have no brackets.
    pub is_inverse: u8,
    /// What makes one doubt that it is read as it was meant, if its attempt isn't solved: the number of a `Doubt`, 0
    /// for nothing.
    pub doubt: u8,
    /// Which attempt, from 0.
    pub attempt: usize,
    /// Which group after the scramble: 0 of the lines directly under it.
    pub group: usize,
    pub begin: usize,
    pub head_end: usize,
    /// Its label is all that is said before its moves. No letter stands between the parts, but in a number of moves
    /// after the label.
    pub label_begin: usize,
    pub label_end: usize,
    pub moves: usize,
    pub comment: usize,
    pub end: usize,
    /// Where that stands which makes one doubt it; at its end if nothing does.
    pub doubt_at: usize,
}

impl TextLine {
    /// Whether it is of a kind.
    pub fn is_a(&self, kind: LineKind) -> bool
        ensures { result ≡ (self.now.kind == number_of_kind kind) }
    {
        self.kind == kind.number()
    }
}

/// What is told of a line by a number: 1 if it holds, and else 0.
pub fn flag(holds: bool) -> u8
    ensures { result ≡ (if holds then 1 else 0) }
{
    if holds { 1 } else { 0 }
}

/// What a line is told to be.
#[derive(Clone, Copy)]
pub struct Role {
    pub kind: LineKind,
    /// It is in the group that is the solution.
    pub is_solution: bool,
    pub is_headed: bool,
    pub attempt: usize,
    pub group: usize,
}

/// A line as it stands in the text, which begins there.
pub fn told_line(role: &Role, line: &Line, begin: usize) -> TextLine
    requires { begin + line.now.length ≤ usize.MAX }
    ensures is { IsLine begin result }
    ensures ends { result.end ≡ begin + line.now.length }
    ensures head { result.head_end ≡ begin + line.now.head }
    ensures label { (result.label_begin ≡ begin + line.now.label_begin) × (result.label_end ≡ begin + line.now.label_end) }
    ensures moves { result.moves ≡ begin + line.now.moves }
    ensures comment { result.comment ≡ begin + line.now.comment }
    ensures undoubted { result.doubt_at ≡ result.end }
    ensures kind { result.kind ≡ number_of_kind role.now.kind }
    ensures attempt { result.attempt ≡ role.now.attempt }
    ensures group { result.group ≡ role.now.group }
    ensures solution { result.is_solution ≡ (if role.now.is_solution then 1 else 0) }
    ensures headed { result.is_headed ≡ (if role.now.is_headed then 1 else 0) }
    ensures says { result.says_solution ≡ (if line.now.is_solution then 1 else 0) }
{
    TextLine {
        kind: role.kind.number(),
        is_solution: flag(role.is_solution),
        is_headed: flag(role.is_headed),
        says_solution: flag(line.is_solution),
        is_inverse: 0,
        doubt: 0,
        attempt: role.attempt,
        group: role.group,
        begin,
        head_end: begin + line.head,
        label_begin: begin + line.label_begin,
        label_end: begin + line.label_end,
        moves: begin + line.moves,
        comment: begin + line.comment,
        end: begin + line.length,
        doubt_at: begin + line.length,
    }
}
