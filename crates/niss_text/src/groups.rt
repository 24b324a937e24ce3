//! The groups of lines after a scramble: those directly under it, and the blocks after blank lines.
ghost use Rattle.std.specs.Prelude.{◌≡◌, ◌<◌, true, false};
ghost use Rattle.niss_text.specs.Groups.{IsFresh, IsEndedBy, Goes, is_that};

use crate::body::{are_long, is_whole_move_before};
use crate::line::{Line, Numbers, cut_line};
use crate::sign::trimmed;
use crate::step_order::{Order, is_next};
use crate::words::{Wanted, says};

/// The group of the last line, and what is seen of it.
#[derive(Clone, Copy)]
pub struct Group {
    /// Its number: 0 of the lines directly under the scramble.
    pub number: usize,
    has_moves: bool,
    has_label: bool,
    is_ended: bool,
    /// It is a solution on one line, of which nothing more is said.
    is_line: bool,
}

impl Group {
    /// Before the first line after a scramble.
    pub fn first() -> Group
        ensures { IsFresh result }
    {
        Group {
            number: 0,
            has_moves: false,
            has_label: false,
            is_ended: false,
            is_line: false,
        }
    }

    /// Whether a line begins a group: after one that is ended, with the label of a solution after moves, or with moves
    /// that are told after a solution that isn't.
    fn is_ended_by(&self, line: &Line) -> bool
        ensures ended { result ≡ true → IsEndedBy self.now line.now }
        ensures open { result ≡ false → self.now.is_ended ≡ false }
    {
        self.is_ended
            || (self.has_moves && line.is_solution)
            || (self.is_line && line.is_told() && line.is_moves)
    }

    /// After one more line. A blank line ends a group, but one of a label alone, which belongs to what follows it.
    pub fn after(self, line: &Line) -> Group
        ensures { self.number < usize.MAX → Goes self result line.now }
    {
        let mut group = self;
        if line.is_blank {
            group.is_ended = self.is_ended || self.has_moves || !self.has_label;
            return group;
        }
        if self.is_ended_by(line) {
            group = Group::first();
            group.number = self.number.saturating_add(1);
        }
        group.is_line = group.is_line || (line.is_solution && line.is_moves && !line.has_comment());
        group.has_moves = group.has_moves || line.is_moves;
        group.has_label = group.has_label || line.is_solution;
        group
    }
}

/// Whether a group is the solution, if one is.
pub fn is_that(solution: Option<usize>, group: usize) -> bool
    ensures { result ≡ is_that solution group }
{
    solution == Some(group)
}

/// How many bytes a solution has at least that is written out: those of twelve moves with blanks between.
const FEWEST_BYTES: usize = 24;

/// Whether moves begin with others, however blanks part them, and then go on.
fn begin_with(moves: &[u8], others: &[u8]) -> bool {
    let mut rest = moves;
    for byte in others {
        if matches!(*byte, b' ' | b'\t') {
            continue;
        }
        rest = trimmed(rest);
        if rest.is_empty() || rest[0] != *byte {
            return false;
        }
        rest = &rest[1..];
    }
    is_whole_move_before(rest)
}

/// The moves of the first line of a text that has any.
fn first_moves(text: &[u8], numbers: Numbers) -> &[u8] {
    let mut rest = text;
    while !rest.is_empty() {
        let (line, length) = cut_line(rest, numbers);
        if line.is_moves {
            return &rest[line.moves..line.comment];
        }
        rest = &rest[length..];
    }
    &[]
}

/// Whether moves are as long as a scramble, and stand once more in front of all others of a text.
pub fn is_same(moves: &[u8], text: &[u8], numbers: Numbers) -> bool {
    are_long(0, moves.len()) && begin_with(first_moves(text, numbers), moves)
}

/// The moves of the last line of a text that has any.
fn last_moves(text: &[u8], numbers: Numbers) -> &[u8] {
    let mut last: &[u8] = &[];
    let mut rest = text;
    while !rest.is_empty() {
        let (line, length) = cut_line(rest, numbers);
        if line.is_moves {
            last = &rest[line.moves..line.comment];
        }
        rest = &rest[length..];
    }
    last
}

/// Whether the last moves of some lines after a scramble are the whole solution: they begin with those of the first line,
/// and are long.
fn ends_written_out(text: &[u8], numbers: Numbers) -> bool {
    let last = last_moves(text, numbers);
    last.len() >= FEWEST_BYTES && begin_with(last, first_moves(text, numbers))
}

/// What tells which group is the solution.
#[derive(Clone, Copy)]
pub struct Solutions {
    group: Group,
    /// There is a line that isn't blank.
    pub has_lines: bool,
    is_under: bool,
    /// How many groups after the first have moves, two at most, and the last of them.
    listed: u8,
    last_listed: usize,
    /// That one has one line with moves, of which nothing is said.
    is_line: bool,
    /// That line is the solution written out.
    is_written_out: bool,
    /// How many lines say that the solution follows, two at most, and of the last which group it is in, and whether it
    /// is the final one.
    told: u8,
    last_told: usize,
    is_final: bool,
    stray: Stray,
    order: Order,
}

/// A line after a scramble that may be another one: moves under it are fewer, or something is said of them, or the words
/// above it say so.
#[derive(Clone, Copy)]
struct Stray {
    /// The last words by themselves name a scramble, and no moves stand below them yet.
    is_called: bool,
    /// Where the first moves of the last group stand, if they may be a scramble.
    begun: Option<usize>,
    /// Where such a line stands, and its group.
    found: Option<usize>,
    group: usize,
}

impl Stray {
    fn nothing() -> Stray {
        Stray {
            is_called: false,
            begun: None,
            found: None,
            group: 0,
        }
    }

    /// After one more line with moves, which begins there, the first of its group that has any or not.
    fn after(self, line: &Line, at: usize, group: usize, is_first: bool) -> Stray {
        let mut stray = self;
        stray.is_called = false;
        if self.is_called && line.may_be_scramble() {
            stray.found = Some(at);
            stray.group = group;
        } else if is_first {
            stray.begun = line.may_be_scramble().then_some(at);
        } else if self.begun.is_some() && (line.is_told() || !line.is_long()) {
            stray.found = self.begun;
            stray.group = group;
        }
        stray
    }
}

impl Solutions {
    /// After the lines of a text that follow a scramble, above which a title stands or none.
    pub fn seen_in(text: &[u8], title: &[u8], numbers: Numbers) -> Solutions {
        let mut rest = text;
        let mut seen = Solutions::none();
        while !rest.is_empty() {
            let (line, length) = cut_line(rest, numbers);
            let at = text.len() - rest.len();
            seen = seen.after(&line, at);
            if line.is_moves {
                seen.order = seen.order.after(rest, &line, at, seen.group.number);
            } else if !line.is_blank {
                let words = &rest[..length];
                seen.stray.is_called = says(words, Wanted::Scramble) || is_next(words, title);
            }
            rest = &rest[length..];
        }
        let may_be_written_out = seen.is_under && seen.listed == 1 && seen.is_line;
        seen.is_written_out = may_be_written_out && ends_written_out(text, numbers);
        seen
    }

    /// Before the first line after a scramble.
    fn none() -> Solutions {
        Solutions {
            group: Group::first(),
            has_lines: false,
            is_under: false,
            listed: 0,
            last_listed: 0,
            is_line: false,
            is_written_out: false,
            told: 0,
            last_told: 0,
            is_final: false,
            stray: Stray::nothing(),
            order: Order::nothing(),
        }
    }

    /// After one more line, which begins there.
    fn after(self, line: &Line, at: usize) -> Solutions {
        let mut seen = self;
        seen.group = self.group.after(line);
        seen.has_lines = self.has_lines || !line.is_blank;
        if line.is_moves {
            let number = seen.group.number;
            let is_first = number != self.group.number || !self.group.has_moves;
            seen.stray = self.stray.after(line, at, number, is_first);
            seen = seen.with_moves(line.is_told());
        }
        if line.is_solution {
            seen.told = if self.told == 0 { 1 } else { 2 };
            seen.last_told = seen.group.number;
            seen.is_final = line.is_final;
        }
        seen
    }

    /// Whether there are moves.
    pub fn has_moves(&self) -> bool {
        self.is_under || self.listed > 0
    }

    /// Where a line stands that may be another scramble, if these lines begin there: not in the solution, nor directly
    /// under the scramble.
    pub fn stray(&self, begin: usize) -> Option<usize> {
        if self.stray.group == 0 || self.group() == Some(self.stray.group) {
            return None;
        }
        self.stray.found.map(|at| begin.saturating_add(at))
    }

    /// Where a line of the solution stands that comes before one above it, if these lines begin there.
    pub fn out_of_order(&self, begin: usize) -> Option<usize> {
        if self.group() != Some(self.order.group) {
            return None;
        }
        self.order.found.map(|at| begin.saturating_add(at))
    }

    /// Where a step stands that belongs at a mark above it, if these lines begin there.
    pub fn inserted(&self, begin: usize) -> Option<usize> {
        self.order.inserted.map(|at| begin.saturating_add(at))
    }

    /// With moves in the group, of which something is said or not.
    fn with_moves(self, is_told: bool) -> Solutions {
        let mut seen = self;
        let number = self.group.number;
        if number == 0 {
            seen.is_under = true;
        } else if self.listed == 0 || self.last_listed != number {
            seen.listed = if self.listed == 0 { 1 } else { 2 };
            seen.last_listed = number;
            seen.is_line = !is_told;
        } else {
            seen.is_line = false;
        }
        seen
    }

    /// The group that is the solution: the one that a label says to be, of several the last one if it is the final one;
    /// without labels the lines directly under the scramble, or the line after them that is the solution written out; else
    /// the only group.
    pub fn group(self) -> Option<usize> {
        if self.told == 1 || (self.told > 1 && self.is_final) {
            return Some(self.last_told);
        }
        if self.told > 1 {
            return None;
        }
        if self.is_under && !self.is_written_out {
            return Some(0);
        }
        if self.listed == 1 {
            Some(self.last_listed)
        } else {
            None
        }
    }
}
