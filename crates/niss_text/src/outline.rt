//! Where the attempts of a stretch begin and end, and their scrambles.
ghost use Rattle.std.specs.Prelude.{◌≡◌, ◌≤◌, ◌<◌, length};
ghost use Rattle.niss_text.specs.Said.{is_a_head};

use crate::body::{are_long, begins_frame, begins_scramble, is_framed, is_half_framed};
use crate::forms::line_length;
use crate::line::{
    Beside, Head, Line, Numbers, cut_line, cut_text, first_line, is_blank, may_begin, whole_length,
};
use crate::parts::number_in;
use crate::stretches::is_open;
use crate::words::{Wanted, says};

/// Whether a line is the head of a scramble.
pub fn is_head(line: &Line) -> bool
    ensures { result ≡ is_a_head line.now.head_kind }
{
    line.head_kind != Head::None
}

/// A whole scramble goes on over so many lines at most.
const MOST_FURTHER_LINES: usize = 7;

/// How many bytes the lines of a whole scramble have that begins a text, whose first line this is; 0 if none does. It may
/// go on over further lines, whatever is said of their moves but that they are a step, up to one that begins another.
fn whole_scramble_length(text: &[u8], line: &Line, numbers: Numbers) -> usize
    requires { line.now.length ≤ length text.now }
    ensures { result ≤ length text.now }
{
    if !line.is_moves || text.is_empty() {
        return 0;
    }
    let mut end = whole_length(text);
    if line.is_whole {
        return end;
    }
    if !begins_frame(&text[line.moves.min(end)..end]) {
        return 0;
    }
    for _ in 0..MOST_FURTHER_LINES {
        if end == text.len() {
            return 0;
        }
        let rest = &text[end..];
        let (next, length) = cut_line(rest, numbers);
        let is_other = is_head(&next) || begins_scramble(&rest[next.moves..next.comment]);
        if !next.is_moves || next.is_step || is_other {
            return 0;
        }
        end += length;
        if is_framed(&text[line.moves.min(end)..end]) {
            return end;
        }
    }
    0
}

/// What a line after the moves of an attempt says of the next one.
#[derive(Clone, Copy, PartialEq, Eq)]
enum Next {
    /// It begins there.
    Begins,
    /// It begins at a number alone before, if there is one.
    HasMoves,
    /// It may begin there.
    MayBegin,
    Nothing,
}

/// What the first line of a text, which has these bytes, says of the next attempt. A whole scramble begins one, whatever stands before it. A
/// number alone does only if moves without one follow: it may be a result. Without such a number before it, a line counts
/// only if it may begin one.
fn next_at(text: &[u8], begin: &[u8], numbers: Numbers, is_numbered: bool) -> Next {
    if !is_numbered && !may_begin(begin, numbers) {
        return Next::Nothing;
    }
    let line = first_line(text, numbers);
    if line.head_kind == Head::Number && line.is_head_alone {
        Next::MayBegin
    } else if is_head(&line) || whole_scramble_length(text, &line, numbers) > 0 {
        Next::Begins
    } else if line.is_moves {
        Next::HasMoves
    } else {
        Next::Nothing
    }
}

/// What a text has from its first line on that isn't blank.
fn from_filled_line(text: &[u8]) -> &[u8] {
    let mut rest = text;
    while !rest.is_empty() {
        let (line, length) = cut_text(rest);
        if !is_blank(line) {
            break;
        }
        rest = &rest[length..];
    }
    rest
}

/// The number of the head of a line, which is the first one of a text.
fn number_of(text: &[u8], line: &Line) -> Option<usize>
    requires { line.now.length ≤ length text.now }
{
    number_in(&text[..line.head])
}

/// Whether a line, which is the first one of a text, names solutions and has no moves.
fn names_solutions(text: &[u8], line: &Line) -> bool
    requires { line.now.length ≤ length text.now }
{
    !line.is_moves && says(&text[..line.length], Wanted::Solutions)
}

/// Whether a text begins with a list of solutions: with a line that names them, and one with moves and the number 1.
fn lists_solutions(text: &[u8], numbers: Numbers) -> bool {
    let titled = from_filled_line(text);
    // few lines say so: the others aren't read
    if !says(&titled[..line_length(titled)], Wanted::Solutions) {
        return false;
    }
    if first_line(titled, Numbers::OfLines).is_moves {
        return false;
    }
    let list = from_filled_line(&titled[line_length(titled)..]);
    let line = first_line(list, numbers);
    line.head_kind == Head::Number && line.is_moves && number_of(list, &line) == Some(1)
}

/// What is seen of an attempt before its lines are told: how many bytes it has; where the first line of moves begins,
/// and the end if there is none; how many bytes the whole scramble has that begins there, 0 if none does; whether prose
/// before it is told from it, since a head stands in it or before it, or since it is whole; whether the line has signs
/// before its moves; whether the solutions of several scrambles follow it; and which numbers begin the next attempt.
#[derive(Clone, Copy)]
pub struct Outline {
    pub length: usize,
    pub first: usize,
    whole: usize,
    /// Where the moves of that line begin and end.
    moves: usize,
    moves_end: usize,
    pub has_name: bool,
    has_sign: bool,
    /// Its scramble says that it is a step, or the solution.
    pub is_step: bool,
    pub is_solution: bool,
    pub has_several: bool,
    is_found: bool,
    numbers: Numbers,
}

impl Outline {
    /// Of an attempt without lines.
    fn nothing(numbers: Numbers) -> Outline
        ensures { (result.length ≡ 0) × (result.first ≡ 0) }
    {
        Outline {
            length: 0,
            first: 0,
            whole: 0,
            moves: 0,
            moves_end: 0,
            is_found: false,
            has_name: false,
            has_sign: false,
            is_step: false,
            is_solution: false,
            has_several: false,
            numbers,
        }
    }

    /// After one more line, which begins there and is the first one of a text. After a title that names solutions its
    /// first moves are no scramble, unless a head says so or they are a whole one.
    fn after(self, text: &[u8], line: &Line, at: usize) -> Outline
        requires { line.now.length ≤ length text.now }
        ensures same { result.length ≡ self.length }
        ensures first { self.first ≤ at → result.first ≤ at }
    {
        let mut seen = self;
        if !self.is_found {
            seen.whole = whole_scramble_length(text, line, self.numbers);
            seen.has_name = self.has_name || is_head(line) || seen.whole > 0;
            seen.has_several = !seen.has_name && (self.has_several || names_solutions(text, line));
            seen.has_sign = line.beside == Beside::Signs;
            seen.is_step = line.is_step;
            seen.is_solution = line.is_solution;
            seen.is_found = line.is_moves;
            seen.first = at;
            seen.moves = at.saturating_add(line.moves);
            seen.moves_end = at.saturating_add(line.comment);
        }
        seen
    }

    /// Before a list of solutions, whose numbers begin no attempt: they are of several scrambles if that in front of
    /// this one isn't 1.
    fn before_list(self, number: Option<usize>) -> Outline
        ensures { (result.length ≡ self.length) × (result.first ≡ self.first) }
    {
        Outline {
            has_several: number != Some(1),
            numbers: Numbers::OfLines,
            ..self
        }
    }

    /// The first line of an attempt with this text, if it stands before the first moves.
    pub fn title<'a>(&self, text: &'a [u8]) -> &'a [u8]
        requires first { self.now.first ≤ length text.now }
    {
        let before = from_filled_line(&text[..self.first]);
        &before[..line_length(before)]
    }

    /// The moves of the first line of its scramble, of an attempt that has this text.
    pub fn scramble<'a>(&self, text: &'a [u8]) -> &'a [u8] {
        let end = self.moves_end.min(text.len());
        &text[self.moves.min(end)..end]
    }

    /// Whether its scramble is long, and a sign of the R' U' F at one end may have been lost.
    pub fn is_half_framed(&self, text: &[u8]) -> bool {
        let moves = self.scramble(text);
        self.whole == 0 && are_long(0, moves.len()) && is_half_framed(moves)
    }

    /// Whether it has a whole scramble.
    pub fn is_whole(&self) -> bool {
        self.whole > 0
    }

    /// Whether the line after a scramble, which ends there, may be of it too: the scramble isn't whole, and short, and
    /// nothing is said of that line.
    pub fn may_go_on(&self, text: &[u8], scramble_end: usize, numbers: Numbers) -> bool
        requires { (self.now.first ≤ scramble_end) × (scramble_end ≤ length text.now) }
    {
        let next = first_line(&text[scramble_end..], numbers);
        if self.whole > 0 || !(next.is_moves && next.has_only_moves()) {
            return false;
        }
        !first_line(&text[self.first..scramble_end], numbers).is_long()
    }

    /// If the attempt has that many bytes.
    fn ended(self, length: usize) -> Outline
        requires { self.first ≤ length }
        ensures length { result.length ≡ length }
        ensures first { result.first ≤ length }
    {
        Outline {
            length,
            first: if self.is_found { self.first } else { length },
            ..self
        }
    }

    /// Where the lines of its scramble end, of an attempt that has this text.
    pub fn scramble_end(&self, text: &[u8], numbers: Numbers) -> usize
        requires first { self.now.first ≤ length text.now }
        ensures { (self.now.first ≤ result) × (result ≤ length text.now) }
    {
        let scramble = &text[self.first..];
        if self.whole > 0 {
            return self.first + self.whole.min(scramble.len());
        }
        self.first + scramble_length(scramble, numbers, self.has_sign)
    }
}

/// The first attempt of a stretch: up to the next head or whole scramble after moves.
pub fn outline_of(text: &[u8], numbers: Numbers) -> Outline
    ensures within { (result.first ≤ result.length) × (result.length ≤ length text.now) }
    ensures some { 0 < length text.now → 0 < result.length }
{
    let mut rest = text;
    let mut seen = Outline::nothing(numbers);
    let mut has_moves = false;
    let mut number = 0;
    while !rest.is_empty() {
        let at = text.len() - rest.len();
        let (begin, length) = cut_text(rest);
        if has_moves {
            match next_at(rest, begin, seen.numbers, number > 0) {
                Next::Begins => return seen.ended(at),
                Next::HasMoves if number > 0 => return seen.ended(number),
                Next::MayBegin if number == 0 => number = at,
                _ => {}
            }
        } else {
            let line = first_line(rest, numbers);
            has_moves = is_open(&line);
            seen = seen.after(rest, &line, at);
            if has_moves && lists_solutions(&rest[length..], numbers) {
                seen = seen.before_list(number_of(rest, &line));
            }
        }
        rest = &rest[length..];
    }
    seen.ended(text.len())
}

/// How many bytes the lines of a scramble have that begins a text and isn't whole: all up to a blank line, or to the label
/// of the solution, or the first alone if words of a later one say what its moves are, or a sign, unless the first has one.
fn scramble_length(text: &[u8], numbers: Numbers, has_sign: bool) -> usize
    ensures { result ≤ length text.now }
{
    if text.is_empty() {
        return 0;
    }
    let first = whole_length(text);
    let mut rest = &text[first..];
    while !rest.is_empty() {
        let (line, length) = cut_line(rest, numbers);
        if line.is_blank || line.is_solution {
            return text.len() - rest.len();
        }
        if line.is_told() || (line.beside == Beside::Signs && !has_sign) {
            return first;
        }
        rest = &rest[length..];
    }
    text.len()
}

/// How many bytes of a text stand before the next scramble, if one stands before it too: that has a word for its head,
/// or is whole.
pub fn length_behind_scramble(text: &[u8]) -> usize
    ensures { result ≤ length text.now }
{
    let mut rest = text;
    while !rest.is_empty() {
        let (line, length) = cut_text(rest);
        if next_at(rest, line, Numbers::OfLines, false) == Next::Begins {
            break;
        }
        rest = &rest[length..];
    }
    text.len() - rest.len()
}
