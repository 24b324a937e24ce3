//! The attempts of a text as solvers write it: which of its lines are scrambles, steps and notes.
ghost use Rattle.std.specs.Prelude.{◌≡◌, ◌≤◌, ◌<◌, ◌+◌, ◌⊎◌, ℕ, List, true, false, length, take, drop, set, slice_range, ◌&&◌, nat_le};
ghost use Rattle.std.specs.List.{All};
ghost use Rattle.niss_text.specs.Numbers.{number_of_kind};
ghost use Rattle.niss_text.specs.Lines.{Covers, Counts, TakesBy, Remain, AreNumbered, NumbersOn, Begins, BeginNumbered};
ghost use Rattle.niss_text.specs.Said.{is_a_head};
ghost use Rattle.niss_text.specs.Groups.{AreGrouped, AreBelow, Goes, is_that};

use crate::body::is_whole_scramble;
use crate::doubts::{Sheet, judged};
use crate::groups::{Group, Solutions, is_same, is_that};
use crate::line::{Head, Line, Numbers, cut_line, head_in_front};
use crate::outline::{is_head, length_behind_scramble, outline_of};
use crate::progress::Progress;
use crate::sign::from_place;
use crate::status::Status;
use crate::stretches::{listed_numbers, numbers_of, stretch_length};
use crate::text_line::{LineKind, Role, TextLine, told_line};

/// What `text_lines` returns.
#[repr(C)]
#[derive(Clone, Copy, Debug, PartialEq, Eq)]
pub struct TextAnswer {
    /// The number of a `Status`.
    pub status: u8,
    /// How many lines the text has.
    pub lines: usize,
    /// How many attempts.
    pub attempts: usize,
}

/// An attempt: where its lines of moves, its scramble and its last line end, and what is said of it.
#[derive(Clone, Copy)]
struct Attempt {
    number: usize,
    numbers: Numbers,
    /// Prose before its scramble is told from it: it has a name, or steps.
    is_formed: bool,
    /// Its scramble may be none: it has no steps, and is unlike others or stands above one that has a head, or it is given again
    /// without any.
    is_strange: bool,
    /// Its scramble isn't whole, and says that it is a step: the first one may stand on its line.
    has_step: bool,
    /// A sign may have been lost of the R' U' F at one end of its scramble.
    is_half_framed: bool,
    /// Its scramble is called the solution, and isn't whole.
    is_swapped: bool,
    solution: Option<usize>,
    /// Where a line after the scramble begins that may be of one.
    stray: Option<usize>,
    /// Where a step begins that comes before one above it, and where one that belongs at a mark above it.
    out_of_order: Option<usize>,
    inserted: Option<usize>,
    first: usize,
    scramble_end: usize,
    length: usize,
    ghost first_in: { first ≤ scramble_end },
    ghost scramble_in: { scramble_end ≤ length },
}

/// The first attempt of a text, in its first stretch, which has that many bytes; it has whole scrambles or not. What
/// follows an attempt and has no moves is notes of that one.
fn first_attempt(
    text: &[u8],
    stretch: usize,
    numbers: Numbers,
    number: usize,
    has_whole: bool,
) -> Attempt
    requires { stretch ≤ length text.now }
    ensures within { result.length ≤ stretch }
    ensures some { 0 < stretch → 0 < result.length }
    ensures number { result.number ≡ number }
{
    let seen = outline_of(&text[..stretch], numbers);
    let lines = &text[..seen.length];
    let scramble_end = seen.scramble_end(lines, numbers);
    let solutions = Solutions::seen_in(&lines[scramble_end..], seen.title(lines), numbers);
    let scramble = seen.scramble(lines);
    let rest = &text[seen.length..];
    let is_above_scramble = !seen.has_name && head_in_front(rest, Numbers::OfLines) == Head::Word;
    let is_unlike = !seen.is_whole() && (has_whole || is_above_scramble) && !solutions.has_moves();
    let is_given_again = !solutions.has_lines && is_same(scramble, rest, numbers);
    Attempt {
        number,
        numbers,
        is_formed: seen.has_name || solutions.has_lines,
        is_strange: is_unlike || is_given_again,
        has_step: seen.is_step && !seen.is_whole(),
        is_half_framed: seen.is_half_framed(lines),
        is_swapped: seen.is_solution && !seen.is_whole(),
        solution: if seen.has_several {
            None
        } else {
            solutions.group()
        },
        stray: if seen.may_go_on(lines, scramble_end, numbers) {
            Some(scramble_end)
        } else {
            solutions.stray(scramble_end)
        },
        out_of_order: solutions.out_of_order(scramble_end),
        inserted: solutions.inserted(scramble_end),
        first: seen.first,
        scramble_end,
        length: seen.length,
    }
}

impl Attempt {
    /// What is seen of it for the doubts of a line that begins there.
    fn sheet(&self, at: usize) -> Sheet {
        Sheet {
            has_solution: self.solution.is_some(),
            is_strange: self.is_strange,
            has_step: self.has_step,
            is_half_framed: self.is_half_framed,
            is_stray: self.stray == Some(at),
            is_swapped: self.is_swapped,
            is_out_of_order: self.out_of_order == Some(at),
            is_put_into_others: self.inserted == Some(at),
        }
    }

    /// What a line of it is, which begins there. A head alone before the moves says nothing more.
    fn kind_at(&self, at: usize, line: &Line) -> LineKind
        ensures blank { number_of_kind result ≡ 0 → (line.now.is_blank ≡ true) ⊎ (line.now.is_head_alone ≡ true) }
        ensures before { number_of_kind result ≡ 1 → line.now.is_moves ≡ false }
        ensures note { number_of_kind result ≡ 4 → line.now.is_moves ≡ false }
        ensures step { number_of_kind result ≡ 3 → line.now.is_moves ≡ true }
        ensures early { at < self.now.scramble_end → number_of_kind result ≤ 2 }
        ensures later { self.now.scramble_end ≤ at → (number_of_kind result ≡ 0) ⊎ (3 ≤ number_of_kind result) }
        ensures filled { self.now.scramble_end ≤ at → number_of_kind result ≡ 0 → line.now.is_blank ≡ true }
        ensures unfilled { line.now.is_blank ≡ true → number_of_kind result ≡ 0 }
        ensures steps { self.now.scramble_end ≤ at → line.now.is_blank ≡ false → line.now.is_moves ≡ true → number_of_kind result ≡ 3 }
    {
        if line.is_blank || (at < self.first && line.is_head_alone) {
            LineKind::Blank
        } else if at < self.first && self.is_formed && !line.is_moves {
            LineKind::Before
        } else if at < self.scramble_end {
            LineKind::Scramble
        } else if line.is_moves {
            LineKind::Step
        } else {
            LineKind::Note
        }
    }
}

/// The group after one more line of an attempt, which begins there.
fn group_at(attempt: &Attempt, at: usize, group: Group, line: &Line) -> Group
    ensures early { at < attempt.now.scramble_end → result ≡ group }
    ensures later { attempt.now.scramble_end ≤ at → group.number < usize.MAX → Goes group result line.now }
{
    if at >= attempt.scramble_end {
        group.after(line)
    } else {
        group
    }
}

/// What a line of an attempt is there, of this kind and in this group.
fn role_of(attempt: &Attempt, line: &Line, kind: LineKind, group: usize) -> Role
    ensures attempt { result.attempt ≡ attempt.now.number }
    ensures kind { result.kind ≡ kind }
    ensures group { result.group ≡ group }
    ensures headed { result.is_headed ≡ is_a_head line.now.head_kind }
    ensures solution { result.is_solution ≡ (nat_le 3 (number_of_kind kind) && is_that attempt.now.solution group) }
{
    Role {
        kind,
        is_solution: kind.is_after_scramble() && is_that(attempt.solution, group),
        is_headed: is_head(line),
        attempt: attempt.number,
        group,
    }
}

/// Writes a line after that many others, if there is room.
fn put_line(lines: &mut [TextLine], count: usize, line: TextLine)
    ensures { lines.new ≡ set lines.old count line }
{
    if count < lines.len() {
        lines[count] = line;
    }
}

/// Writes the lines of an attempt after that many others, as long as there is room, and returns how many these are
/// then, and where the last one ends.
fn put_attempt(
    text: &[u8],
    begin: usize,
    attempt: &Attempt,
    lines: &mut [TextLine],
    written: usize,
) -> (usize, usize)
    requires some { 0 < attempt.now.length }
    requires within { begin + attempt.now.length ≤ length text.now }
    requires written { written ≤ begin }
    ensures more { (written ≤ result.0) × (result.0 ≤ result.1) }
    ensures further { (begin < result.1) × (result.1 ≤ length text.now) }
    ensures covers { Covers text.now 0 (take written lines.old) begin → result.0 ≤ length lines.new →
        Covers text.now 0 (take result.0 lines.new) result.1 }
    ensures takes { (words : List (List ℕ)) (from first : ℕ) → first ≤ written →
        TakesBy words text.now from (slice_range lines.old first written) begin → result.0 ≤ length lines.new →
        TakesBy words text.now from (slice_range lines.new first result.0) result.1 }
    ensures kept { take written lines.new ≡ take written lines.old }
    ensures counts { Counts text.now 0 written begin → Counts text.now 0 result.0 result.1 }
    ensures remain { (all end : ℕ) → begin + attempt.now.length ≤ end → end ≤ length text.now → Remain text.now all written begin end →
        Remain text.now all result.0 result.1 end }
    ensures numbers { NumbersOn lines.old lines.new written result.0 attempt.now.number (attempt.now.number + 1) }
    ensures begins { (written ≤ length lines.old → Covers text.now 0 (take written lines.old) begin) →
        Begins text.now (take written lines.old) → Begins text.now (take result.0 lines.new) }
    ensures in_order { (written ≤ length lines.old → AreNumbered 0 (take written lines.old) attempt.now.number) →
        BeginNumbered (take written lines.old) → BeginNumbered (take result.0 lines.new) }
    ensures groups { AreBelow attempt.now.number (take written lines.old) → AreGrouped (take written lines.old) →
        AreBelow (attempt.now.number + 1) (take result.0 lines.new) × AreGrouped (take result.0 lines.new) }
    ensures behind { drop result.0 lines.new ≡ drop result.0 lines.old }
{
    let mut at = 0;
    let mut count = written;
    let mut group = Group::first();
    while at < attempt.length {
        let rest = from_place(text, begin + at);
        let (line, whole) = cut_line(rest, attempt.numbers);
        group = group_at(attempt, at, group, &line);
        let role = role_of(attempt, &line, attempt.kind_at(at, &line), group.number);
        let told = told_line(&role, &line, begin + at);
        let told = judged(text, told, &line, attempt.sheet(at));
        put_line(lines, count, told);
        count += 1;
        at += whole;
    }
    (count, begin + at)
}

/// Writes the lines of the attempts of a text from a place up to another one, as long as there is room.
pub fn put_attempts(text: &[u8], end: usize, so_far: Progress, lines: &mut [TextLine]) -> Progress
    requires begin { so_far.at ≤ length text.now }
    requires end { end ≤ length text.now }
    ensures more { so_far.lines ≤ result.lines }
    ensures further { (end ≤ result.at) × ((so_far.at ≤ result.at) × (result.at ≤ length text.now)) }
    ensures covers { Covers text.now 0 (take so_far.lines lines.old) so_far.at → result.lines ≤ length lines.new →
        Covers text.now 0 (take result.lines lines.new) result.at }
    ensures takes { (words : List (List ℕ)) (from first : ℕ) → first ≤ so_far.lines →
        TakesBy words text.now from (slice_range lines.old first so_far.lines) so_far.at → result.lines ≤ length lines.new →
        TakesBy words text.now from (slice_range lines.new first result.lines) result.at }
    ensures kept { take so_far.lines lines.new ≡ take so_far.lines lines.old }
    ensures counts { Counts text.now 0 so_far.lines so_far.at → Counts text.now 0 result.lines result.at }
    ensures all { (all : ℕ) → Remain text.now all so_far.lines so_far.at end → (result.at ≡ end) × (result.lines ≡ all) }
    ensures numbers { so_far.attempts ≤ so_far.at + 1 →
        NumbersOn lines.old lines.new so_far.lines result.lines so_far.attempts result.attempts }
    ensures begins { (so_far.lines ≤ length lines.old → Covers text.now 0 (take so_far.lines lines.old) so_far.at) →
        Begins text.now (take so_far.lines lines.old) → Begins text.now (take result.lines lines.new) }
    ensures in_order { (so_far.lines ≤ length lines.old → AreNumbered 0 (take so_far.lines lines.old) so_far.attempts) →
        so_far.attempts ≤ so_far.at → BeginNumbered (take so_far.lines lines.old) → BeginNumbered (take result.lines lines.new) }
    ensures groups { so_far.attempts ≤ so_far.at → AreBelow so_far.attempts (take so_far.lines lines.old) →
        AreGrouped (take so_far.lines lines.old) → AreGrouped (take result.lines lines.new) }
    ensures behind { drop result.lines lines.new ≡ drop result.lines lines.old }
{
    let part = &text[so_far.at.min(end)..end];
    let listed = listed_numbers(part);
    let has_whole = is_whole_scramble(part);
    let mut stretch_end = 0;
    let mut numbers = Numbers::OfLines;
    let mut at = so_far.at;
    let mut count = so_far.lines;
    let mut attempts = so_far.attempts;
    while at < end {
        if at >= stretch_end {
            stretch_end = at + stretch_length(&text[at..end]);
            numbers = numbers_of(&text[at..stretch_end], listed);
        }
        let attempt = first_attempt(
            &text[at..end],
            stretch_end - at,
            numbers,
            attempts,
            has_whole,
        );
        let (more, next) = put_attempt(text, at, &attempt, lines, count);
        count = more;
        at = next;
        attempts = attempts.saturating_add(1);
    }
    Progress {
        at,
        lines: count,
        attempts,
    }
}

/// Writes the lines of a text from a place up to another one, or up to the next scramble, as those that follow a
/// scramble: they are of the first attempt, which is counted also if there are none.
pub fn put_solution(text: &[u8], end: usize, so_far: Progress, lines: &mut [TextLine]) -> Progress
    requires begin { so_far.at ≤ end }
    requires end { end ≤ length text.now }
    ensures more { so_far.lines ≤ result.lines }
    ensures within { (so_far.at ≤ result.at) × (result.at ≤ length text.now) }
    ensures remain { (all : ℕ) → Remain text.now all so_far.lines so_far.at end → Remain text.now all result.lines result.at end }
    ensures takes { (words : List (List ℕ)) (from first : ℕ) → first ≤ so_far.lines →
        TakesBy words text.now from (slice_range lines.old first so_far.lines) so_far.at → result.lines ≤ length lines.new →
        TakesBy words text.now from (slice_range lines.new first result.lines) result.at }
    ensures kept { take so_far.lines lines.new ≡ take so_far.lines lines.old }
    ensures one { result.attempts ≡ 1 }
    ensures first { result.lines ≤ length lines.new → All (λ line. line.attempt ≡ 0) (slice_range lines.new so_far.lines result.lines) }
    ensures behind { drop result.lines lines.new ≡ drop result.lines lines.old }
{
    let length = length_behind_scramble(&text[so_far.at..end]);
    if length == 0 {
        return Progress {
            attempts: 1,
            at: so_far.at,
            lines: so_far.lines,
        };
    }
    let attempt = solution_alone(&text[so_far.at..so_far.at + length]);
    let (count, at) = put_attempt(text, so_far.at, &attempt, lines, so_far.lines);
    Progress {
        at,
        lines: count,
        attempts: 1,
    }
}

/// An attempt without its scramble.
fn solution_alone(text: &[u8]) -> Attempt
    ensures length { result.length ≡ length text.now }
    ensures first { result.number ≡ 0 }
{
    let numbers = Numbers::OfLines;
    let solutions = Solutions::seen_in(text, &[], numbers);
    Attempt {
        number: 0,
        numbers,
        is_formed: true,
        is_strange: false,
        has_step: false,
        is_half_framed: false,
        is_swapped: false,
        solution: solutions.group(),
        stray: None,
        out_of_order: solutions.out_of_order(0),
        inserted: solutions.inserted(0),
        first: 0,
        scramble_end: 0,
        length: text.len(),
    }
}

/// Tells of each line of a text what it is, as long as there is room: the answer has how many lines there are, and says
/// `NoRoom` if these are more than have room: then the first ones stand there. A text has no more lines than bytes. What
/// follows them stays as it is.
pub fn text_lines(text: &[u8], lines: &mut [TextLine]) -> TextAnswer
    ensures covers { result.lines ≤ length lines.old → Covers text.now 0 (take result.lines lines.new) (length text.now) }
    ensures counts { Counts text.now 0 result.lines (length text.now) }
    ensures numbers { result.lines ≤ length lines.old → AreNumbered 0 (take result.lines lines.new) result.attempts }
    ensures begins { Begins text.now (take result.lines lines.new) }
    ensures in_order { BeginNumbered (take result.lines lines.new) }
    ensures groups { AreGrouped (take result.lines lines.new) }
    ensures few { result.lines ≤ length text.now }
    ensures done { result.lines ≤ length lines.old → result.status ≡ 0 }
    ensures room { length lines.old < result.lines → result.status ≡ 4 }
    ensures behind { drop result.lines lines.new ≡ drop result.lines lines.old }
{
    let read = put_attempts(text, text.len(), Progress::nothing(), lines);
    let status = if read.lines > lines.len() {
        Status::NoRoom
    } else {
        Status::Done
    };
    TextAnswer {
        status: status.number(),
        lines: read.lines,
        attempts: read.attempts,
    }
}
