//! A search on one line, by tables that the caller keeps.
ghost use Rattle.std.specs.Prelude.{◌≡◌, ◌⊎◌, ◌≤◌, ◌<◌, if◌then◌else◌, Ok, Err, None, false, true, MatchOption, MatchResult};
ghost use Rattle.std.specs.Prelude.{length, OnOk, IfErr, ◌+◌, ℕ};
ghost use Rattle.niss_moves.specs.Places.{Place};
ghost use Rattle.niss_moves.specs.Reader.{read_line};
ghost use Rattle.niss_search.specs.Budgets.{is_cut_in, HasSpent};
ghost use Rattle.niss_search.specs.Cubes.{IsPosition, HasPosition, near_solutions_of, near_looks_of};
ghost use Rattle.niss_search.specs.Delivery.{WentThrough, StoppedAt, EndedIn, at_limit};
ghost use Rattle.niss_search.specs.LookNumbers.{found_within_of, look_number_of};
ghost use Rattle.niss_shell.specs.Output.{solution_line, start_cube};
ghost use Rattle.niss_shell.specs.Words.{most_bytes, most_limit};
ghost use Rattle.niss_embed.specs.Memory.{memory};
ghost use Rattle.niss_lines.specs.LineCalls.{status_number};
ghost use Rattle.niss_embed.specs.LineSearch.{most_of_line, lines_state, Takes, Refuses, capped, SolvesCube, is_cut};
ghost use Rattle.niss_embed.specs.LineSearch.{SolvesLine, count_state, Counts, CountsNoMore, wanted_in};
ghost use Rattle.niss_lines.specs.declared.answer.Status.TheVariants.{Done, NoRoom, Cut};

mod after;
mod counting;

use crate::line::search_answer::SearchAnswer;
use crate::memory::put;
pub use after::solve_after;
pub use counting::count_line;
use niss_lines::{Status, read_by};
use niss_moves::{LineReader, LineText, Turn};
use niss_search::laws::first_is_least;
use niss_search::{
    Limit, Meter, Outcome, Position, Sink, Stopped, Tables, TurnPath, search_within,
};
use niss_shell::{LineFault, MOST_BYTES, set_solution, start_position};
use std::alloc::Allocator;

/// Which solutions are asked for, in numbers that a caller may give in any way.
#[derive(Clone, Copy, Debug, PartialEq, Eq)]
pub struct Wanted {
    /// How many turns a solution has at most: 20 or fewer.
    pub limit: u8,
    /// How many turns more than the least one: 20 or fewer.
    pub slack: u8,
    /// How many are handed out or counted at most.
    pub most: u64,
    /// At how many positions the search looks at most.
    pub most_nodes: u64,
}

/// How far a search goes: what is wanted, if its limit and its slack are 20 or fewer.
#[derive(Clone, Copy)]
struct Bounds {
    limit: Limit,
    slack: Limit,
    most: u64,
    most_nodes: u64,
}

impl Bounds {
    /// The bounds of what is asked for, if there is such a search.
    fn new(asked: Wanted) -> Option<Bounds>
        ensures { MatchOption result ((most_limit < asked.limit) ⊎ (most_limit < asked.slack))
            (λ bounds. (wanted_in bounds ≡ asked) × (asked.limit ≤ most_limit) × (asked.slack ≤ most_limit)) }
    {
        Some(Bounds {
            limit: Limit::new(asked.limit)?,
            slack: Limit::new(asked.slack)?,
            most: asked.most,
            most_nodes: asked.most_nodes,
        })
    }
}

/// The line of a solution isn't longer than that of 20 turns.
#[tactic(auto, using(crate::proofs::LineLengths::short_line))]
fn line_is_short(turns: &[Turn])
    requires { length turns.now ≤ 20 }
    ensures { length (solution_line turns.now) ≤ most_of_line }
{}

/// A solution wasn't taken.
#[derive(Clone, Copy, Debug, PartialEq, Eq)]
struct Refused;

/// Solutions as lines, at most so many, from the beginning of lent memory. One that it has no room for is refused, and
/// so is one too many; nothing of it is written. So the caller learns whether there are more: since the distance is
/// exact, the way to the next one is short.
#[derive(Drop)]
struct SolutionLines<'a> {
    bytes: &'a mut [u8],
    written: usize,
    solutions: u64,
    most: u64,
    /// How many turns the first solution has that was taken or refused.
    first: Option<u8>,
    too_small: bool,
    /// The line of the last solution. One text serves all, since a new one would be zeroed for each.
    line: LineText,
    ghost within: { written ≤ length bytes.now },
    ghost few: { solutions ≤ most },
}

impl<'a> SolutionLines<'a> {
    /// No solution yet, and at most so many.
    fn new(bytes: &'a mut [u8], most: u64) -> SolutionLines<'a>
        ensures same_reference { result.bytes.ghost_name ≡ bytes.entry.ghost_name }
        ensures unchanged { result.bytes.now ≡ bytes.old }
        ensures empty { result.written ≡ 0 }
        ensures none { result.solutions ≡ 0 }
        ensures most { result.most ≡ most }
        ensures first { result.first ≡ None }
        ensures works { result.too_small ≡ false }
    {
        SolutionLines {
            bytes,
            written: 0,
            solutions: 0,
            most,
            first: None,
            too_small: false,
            line: LineText::new(),
        }
    }
}

impl Sink for SolutionLines<'_> {
    type Fault = Refused;

    ghost took = { λ old path new. Takes path.turns
        (lines_state old.bytes.now old.bytes.ghost_name old.written old.solutions old.most old.first old.too_small)
        (lines_state new.bytes.now new.bytes.ghost_name new.written new.solutions new.most new.first new.too_small) };

    ghost refused = { λ old path new. Refuses path.turns
        (lines_state old.bytes.now old.bytes.ghost_name old.written old.solutions old.most old.first old.too_small)
        (lines_state new.bytes.now new.bytes.ghost_name new.written new.solutions new.most new.first new.too_small) };

    #[inline(never)]
    fn take(&mut self, path: &TurnPath) -> Result<(), Refused> {
        let turns = path.turns();
        line_is_short(turns);
        self.first = self.first.or(Some(turns.len() as u8));
        if self.solutions == self.most {
            return Err(Refused);
        }
        set_solution(path, &mut self.line);
        if self.line.len() > self.bytes.len() - self.written {
            self.too_small = true;
            return Err(Refused);
        }
        self.written += put(self.bytes, self.written, self.line.as_slice());
        self.solutions += 1;
        Ok(())
    }
}

/// The number, or the greatest one of 64 bits: C doesn't have the 128 by which the engine counts.
fn capped(number: u128) -> u64
    ensures { result ≡ capped number }
{
    number.min(u64::MAX as u128) as u64
}

/// The position that the search begins at: that of the line's cube, if the line is read and the step
/// may start there.
fn begin<A: Allocator + Copy>(tables: &Tables<A>, line: &[u8]) -> Result<Position, LineFault>
    requires { length line.now ≤ most_bytes }
    ensures { MatchResult result
        (λ position. (e : Place → Place) × (start_cube tables.now (read_line line.now) ≡ Ok e)
        × HasPosition tables.now e position)
        (λ fault. start_cube tables.now (read_line line.now) ≡ Err fault) }
{
    let mut reader = LineReader::new();
    let moves = read_by(&mut reader, line).map_err(LineFault::Unread)?;
    start_position(tables, moves).ok_or(LineFault::NoStart(tables.step()))
}

/// Searches as `search_within` of `niss_search`, within bounds.
fn search_at_most<K: Sink, A: Allocator + Copy>(
    tables: &Tables<A>,
    position: &Position,
    bounds: Bounds,
    looks: &mut Meter,
    sink: &mut K,
) -> Result<Outcome, Stopped<K::Fault>>
    requires position { IsPosition tables.now position.now }
    requires meter { looks.old ≡ 0 }
    ensures ok { (e : Place → Place) → HasPosition tables.now e position.now
        → OnOk result (WentThrough (at_limit K.took bounds.limit)
        sink.old (near_solutions_of tables.now e bounds.limit bounds.slack) sink.new) }
    ensures err { (e : Place → Place) → HasPosition tables.now e position.now
        → IfErr result (λ stop. EndedIn (at_limit K.took bounds.limit) (at_limit K.refused bounds.limit)
        (is_cut_in stop) sink.old (near_solutions_of tables.now e bounds.limit bounds.slack) sink.new) }
    ensures cut { (e : Place → Place) → HasPosition tables.now e position.now
        → IfErr result (λ stop. is_cut_in stop ≡ true
        → bounds.most_nodes < near_looks_of tables.now e bounds.limit bounds.slack) }
    ensures found { (e : Place → Place) (made : ℕ) → HasPosition tables.now e position.now → looks.new ≡ looks.old + made
        → IfErr result (λ stop. is_cut_in stop ≡ true → WentThrough (at_limit K.took bounds.limit)
        sink.old (found_within_of tables.now e bounds.limit bounds.slack made) sink.new) }
    ensures stopped { (e : Place → Place) (made : ℕ) → HasPosition tables.now e position.now → looks.new ≡ looks.old + made
        → IfErr result (λ stop. is_cut_in stop ≡ false
        → StoppedAt (at_limit K.took bounds.limit) (at_limit K.refused bounds.limit) (look_number_of tables.now e)
        sink.old (near_solutions_of tables.now e bounds.limit bounds.slack) sink.new made) }
    ensures few { IfErr result (λ stop. is_cut_in stop ≡ true → capped looks.new ≡ looks.new) }
    ensures looks { (e : Place → Place) → HasPosition tables.now e position.now
        → OnOk result (looks.new ≡ near_looks_of tables.now e bounds.limit bounds.slack) }
    ensures looks_at_most { (e : Place → Place) → HasPosition tables.now e position.now
        → looks.new ≤ near_looks_of tables.now e bounds.limit bounds.slack }
    ensures within { capped looks.new ≤ bounds.most_nodes }
    ensures spent { HasSpent is_cut_in bounds.most_nodes tables.now (capped looks.new) result }
{
    let mut path = TurnPath::new(bounds.limit);
    let most = u128::from(bounds.most_nodes);
    search_within(tables, position, bounds.slack, &mut path, looks, sink, most)
}

/// The status of a search, by whether it was cut and whether a solution had no room.
fn status_of(cut: bool, too_small: bool) -> u8
    ensures { result ≡ (if cut then status_number Cut
        else (if too_small then status_number NoRoom else status_number Done)) }
{
    if cut {
        Status::Cut.number()
    } else if too_small {
        Status::NoRoom.number()
    } else {
        Status::Done.number()
    }
}

/// Whether a search was cut.
fn was_cut<T, F>(found: &Result<T, Stopped<F>>) -> bool
    ensures { result ≡ is_cut found.now }
{
    matches!(found, Err(Stopped::Cut))
}

/// Hands out the solutions from a position.
fn solve_position<A: Allocator + Copy>(
    tables: &Tables<A>,
    position: &Position,
    bounds: Bounds,
    out: &mut [u8],
) -> SearchAnswer
    requires { IsPosition tables.now position.now }
    ensures { (e : Place → Place) → HasPosition tables.now e position.now →
        SolvesCube tables.now (wanted_in bounds) e (memory out.old out.new) result }
{
    // so the first solution tells the least length, also if the search is stopped
    first_is_least();
    let mut looks = Meter::new();
    let mut lines = SolutionLines::new(out, bounds.most);
    let found = search_at_most(tables, position, bounds, &mut looks, &mut lines);
    SearchAnswer {
        status: status_of(was_cut(&found), lines.too_small),
        fault: 0,
        least: lines.first.unwrap_or(0),
        more: found.is_err(),
        column: 0,
        length: lines.written,
        solutions: lines.solutions,
        nodes: capped(looks.count()),
    }
}

/// Writes the solutions for a line, by tables that the caller keeps: those of at most `limit` turns that are at most
/// `slack` turns longer than the least, and at most `most` of them, each on a line as `near` and `solve` write it. One
/// that has no room ends it, and nothing of it is written. Before it would look at more than `most_nodes` positions it
/// is cut, with fewer of them left than the step has turns.
pub fn solve_line<A: Allocator + Copy>(
    tables: &Tables<A>,
    line: &[u8],
    wanted: Wanted,
    out: &mut [u8],
) -> SearchAnswer
    ensures { SolvesLine tables.now wanted line.now (memory out.old out.new) result }
{
    let Some(bounds) = Bounds::new(wanted) else {
        return SearchAnswer::misused();
    };
    if line.len() > MOST_BYTES {
        return SearchAnswer::too_long();
    }
    match begin(tables, line) {
        Ok(position) => solve_position(tables, &position, bounds, out),
        Err(fault) => SearchAnswer::faulty(fault),
    }
}

/// Solutions that are counted, at most so many.
#[derive(Drop)]
struct CountedSolutions {
    solutions: u64,
    most: u64,
    /// How many turns the first solution has that was taken or refused.
    first: Option<u8>,
    ghost few: { solutions ≤ most },
}

impl CountedSolutions {
    /// No solution yet, and at most so many.
    fn new(most: u64) -> CountedSolutions
        ensures none { result.solutions ≡ 0 }
        ensures most { result.most ≡ most }
        ensures first { result.first ≡ None }
    {
        CountedSolutions {
            solutions: 0,
            most,
            first: None,
        }
    }
}

impl Sink for CountedSolutions {
    type Fault = Refused;

    ghost took = { λ old path new. Counts path.turns (count_state old.solutions old.most old.first)
        (count_state new.solutions new.most new.first) };

    ghost refused = { λ old path new. CountsNoMore path.turns (count_state old.solutions old.most old.first)
        (count_state new.solutions new.most new.first) };

    #[inline(never)]
    fn take(&mut self, path: &TurnPath) -> Result<(), Refused> {
        self.first = self.first.or(Some(path.turns().len() as u8));
        if self.solutions == self.most {
            return Err(Refused);
        }
        self.solutions += 1;
        Ok(())
    }
}
