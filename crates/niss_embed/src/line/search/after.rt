//! A search that goes on after a solution, so that a caller goes through a long list in pieces.
ghost use Rattle.std.specs.Prelude.{◌≡◌, ◌≢◌, ◌≤◌, ◌<◌, ◌+◌, List, IfOk, OnOk, OnErr, MatchOption, length};
ghost use Rattle.niss_moves.specs.Places.{Place};
ghost use Rattle.niss_cube.specs.Steps.{turns_of};
ghost use Rattle.niss_search.specs.Cubes.{IsPosition, HasPosition, least_length_of, near_looks_of};
ghost use Rattle.niss_search.specs.Solutions.{last_length};
ghost use Rattle.niss_shell.specs.Names.{Turn};
ghost use Rattle.niss_embed.specs.LineSearch.{wanted_in};
ghost use Rattle.niss_embed.specs.Memory.{memory};
ghost use Rattle.niss_embed.specs.SolveAfter.{line_of_turns, Spells, SolvesCubeAfter, SolvesAfter, cut_before};
ghost use Rattle.niss_embed.specs.SolveAfter.{looks_to_shortest};

use super::{Bounds, CountedSolutions, SolutionLines, Wanted, begin, capped, status_of, was_cut};
use crate::line::search_answer::SearchAnswer;
use niss_lines::{Status, read_by};
use niss_moves::{Faces, LineReader, Niss, Token, Turn};
use niss_search::laws::{after_is_rest, first_is_least, zero_is_no_turn};
use niss_search::{Limit, Meter, Position, Stopped, Tables, TurnPath, search_after, search_within};
use niss_shell::MOST_BYTES;
use std::alloc::Allocator;

/// The turns of a line, if it has turns of one face alone and no brackets.
fn turns_of_line(line: &Niss) -> Option<Faces>
    ensures { MatchOption result ((turns : List Turn) → line.now ≢ line_of_turns turns)
        (λ faces. line.now ≡ line_of_turns faces.items) }
{
    if !line.inverse().is_empty() {
        return None;
    }
    let moves = line.normal();
    let mut turns = Faces::new();
    for index in 0..moves.len() {
        let Token::Face(turn) = moves[index] else {
            return None;
        };
        turns.push(turn);
    }
    Some(turns)
}

/// The turns of a sequence that is written as a solution is, without the count, if it is one.
fn turns_of_text(text: &[u8]) -> Option<Faces>
    ensures { MatchOption result ((turns : List Turn) → Spells text.now turns → ⊥)
        (λ faces. Spells text.now faces.items) }
{
    if text.len() > MOST_BYTES {
        return None;
    }
    let mut reader = LineReader::new();
    turns_of_line(read_by(&mut reader, text).ok()?)
}

/// A search was cut before it knew the least length.
#[derive(Clone, Copy, Debug, PartialEq, Eq)]
struct Unknown;

/// The least length of a solution from a position.
#[tactic(auto, using(crate::proofs::AfterLemmas::least_is_first))]
fn least_length<A: Allocator + Copy>(
    tables: &Tables<A>,
    position: &Position,
    limit: Limit,
    looks: &mut Meter,
    most_nodes: u64,
) -> Result<Option<u8>, Unknown>
    requires position { IsPosition tables.now position.now }
    requires meter { looks.old ≡ 0 }
    ensures least { (e : Place → Place) → HasPosition tables.now e position.now
        → IfOk result (λ least. least ≡ least_length_of tables.now e limit) }
    ensures cut { (e : Place → Place) → HasPosition tables.now e position.now
        → OnErr result (most_nodes < near_looks_of tables.now e limit 0) }
    ensures looked { (e : Place → Place) → HasPosition tables.now e position.now
        → OnOk result (looks.new ≡ looks_to_shortest tables.now e limit) }
    ensures unknown { (e : Place → Place) → HasPosition tables.now e position.now
        → OnErr result (looks.new < looks_to_shortest tables.now e limit) }
    ensures looks_at_most { (e : Place → Place) → HasPosition tables.now e position.now
        → looks.new ≤ near_looks_of tables.now e limit 0 }
    ensures within { looks.new ≤ most_nodes }
    ensures spent { OnErr result (most_nodes < looks.new + length (turns_of tables.now)) }
{
    // the first solution is refused, and tells the least length
    first_is_least();
    let mut path = TurnPath::new(limit);
    let mut first = CountedSolutions::new(0);
    let most = u128::from(most_nodes);
    let none = zero_is_no_turn();
    match search_within(tables, position, none, &mut path, looks, &mut first, most) {
        Ok(outcome) => Ok(outcome.length),
        Err(Stopped::Refused(_)) => Ok(first.first),
        Err(Stopped::Cut) => Err(Unknown),
    }
}

/// The greatest length of a solution, by the least.
fn last_limit(least: Option<u8>, bounds: Bounds) -> Limit
    ensures { result ≡ last_length least bounds.limit bounds.slack }
{
    let Some(least) = least else {
        return bounds.limit;
    };
    let last = least.saturating_add(bounds.slack.get());
    if last < bounds.limit.get() {
        Limit::new(last).unwrap()
    } else {
        bounds.limit
    }
}

/// The answer of a search that was cut before it knew the least length.
fn cut_at(looks: &Meter) -> SearchAnswer
    ensures { result ≡ cut_before looks.now }
{
    SearchAnswer {
        status: Status::Cut.number(),
        fault: 0,
        least: 0,
        more: true,
        column: 0,
        length: 0,
        solutions: 0,
        nodes: capped(looks.count()),
    }
}

/// Hands out the solutions from a position that come after a sequence.
fn solve_cube_after<A: Allocator + Copy>(
    tables: &Tables<A>,
    position: &Position,
    after: &[Turn],
    bounds: Bounds,
    out: &mut [u8],
) -> SearchAnswer
    requires { IsPosition tables.now position.now }
    ensures { (e : Place → Place) → HasPosition tables.now e position.now →
        SolvesCubeAfter tables.now (wanted_in bounds) after.now e (memory out.old out.new) result }
{
    // so the solutions up to the last length are those that are asked for
    after_is_rest();
    let mut looks = Meter::new();
    let found = least_length(
        tables,
        position,
        bounds.limit,
        &mut looks,
        bounds.most_nodes,
    );
    let Ok(least) = found else {
        return cut_at(&looks);
    };
    let left = u128::from(bounds.most_nodes) - looks.count();
    let mut lines = SolutionLines::new(out, bounds.most);
    let mut path = TurnPath::new(last_limit(least, bounds));
    let handed = search_after(
        tables, position, after, &mut path, &mut looks, &mut lines, left,
    );
    SearchAnswer {
        status: status_of(was_cut(&handed), lines.too_small),
        fault: 0,
        least: least.unwrap_or(0),
        more: handed.is_err(),
        column: 0,
        length: lines.written,
        solutions: lines.solutions,
        nodes: capped(looks.count()),
    }
}

/// Writes what `solve_line` writes with room for all, but of these solutions those alone that come after one of them, by
/// length and then in turn order. `after` has its turns as they stand in its line before the count, and may be any
/// sequence of face turns; else the call is misused.
#[tactic(auto, using(crate::proofs::AfterLemmas::after_solves, crate::proofs::AfterLemmas::after_too_long))]
pub fn solve_after<A: Allocator + Copy>(
    tables: &Tables<A>,
    line: &[u8],
    after: &[u8],
    wanted: Wanted,
    out: &mut [u8],
) -> SearchAnswer
    ensures { SolvesAfter tables.now wanted line.now after.now (memory out.old out.new) result }
{
    let Some(bounds) = Bounds::new(wanted) else {
        return SearchAnswer::misused();
    };
    let Some(turns) = turns_of_text(after) else {
        return SearchAnswer::misused();
    };
    if line.len() > MOST_BYTES {
        return SearchAnswer::too_long();
    }
    match begin(tables, line) {
        Ok(position) => solve_cube_after(tables, &position, turns.as_slice(), bounds, out),
        Err(fault) => SearchAnswer::faulty(fault),
    }
}
