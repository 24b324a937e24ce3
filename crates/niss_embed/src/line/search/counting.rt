//! A count of the solutions for one line, by tables that the caller keeps.
ghost use Rattle.std.specs.Prelude.{IfSome};
ghost use Rattle.niss_moves.specs.Places.{Place};
ghost use Rattle.niss_search.specs.Cubes.{IsPosition, HasPosition};
ghost use Rattle.niss_embed.specs.LineSearch.{CountsCube, CountsLine, wanted_in};

use super::{Bounds, CountedSolutions, Wanted, begin, capped, search_at_most, status_of, was_cut};
use crate::line::search_answer::SearchAnswer;
use niss_search::laws::first_is_least;
use niss_search::{Meter, Position, Tables};
use niss_shell::{MOST_BYTES, count_solutions};
use std::alloc::Allocator;

/// Counts all solutions from a position, if nothing bounds them and they are fewer than 2^64: so the search asks for no
/// bound.
fn count_all<A: Allocator + Copy>(
    tables: &Tables<A>,
    position: &Position,
    bounds: &Bounds,
) -> Option<SearchAnswer>
    requires { IsPosition tables.now position.now }
    ensures { IfSome result (λ told. (e : Place → Place) → HasPosition tables.now e position.now →
        CountsCube tables.now (wanted_in bounds.now) e told) }
{
    if bounds.most.min(bounds.most_nodes) < u64::MAX {
        return None;
    }
    let mut looks = Meter::new();
    let found = count_solutions(tables, position, bounds.limit, bounds.slack, &mut looks);
    if found.solutions > u128::from(bounds.most) {
        return None;
    }
    Some(SearchAnswer {
        status: status_of(false, false),
        fault: 0,
        least: found.length.unwrap_or(0),
        more: false,
        column: 0,
        length: 0,
        solutions: found.solutions as u64,
        nodes: capped(looks.count()),
    })
}

/// Counts the solutions from a position, within bounds.
fn count_within<A: Allocator + Copy>(
    tables: &Tables<A>,
    position: &Position,
    bounds: &Bounds,
) -> SearchAnswer
    requires { IsPosition tables.now position.now }
    ensures { (e : Place → Place) → HasPosition tables.now e position.now →
        CountsCube tables.now (wanted_in bounds.now) e result }
{
    first_is_least();
    let mut looks = Meter::new();
    let mut counted = CountedSolutions::new(bounds.most);
    let found = search_at_most(tables, position, *bounds, &mut looks, &mut counted);
    SearchAnswer {
        status: status_of(was_cut(&found), false),
        fault: 0,
        least: counted.first.unwrap_or(0),
        more: found.is_err(),
        column: 0,
        length: 0,
        solutions: counted.solutions,
        nodes: capped(looks.count()),
    }
}

/// Counts the solutions from a position.
fn count_position<A: Allocator + Copy>(
    tables: &Tables<A>,
    position: &Position,
    bounds: Bounds,
) -> SearchAnswer
    requires { IsPosition tables.now position.now }
    ensures { (e : Place → Place) → HasPosition tables.now e position.now →
        CountsCube tables.now (wanted_in bounds) e result }
{
    match count_all(tables, position, &bounds) {
        Some(told) => told,
        None => count_within(tables, position, &bounds),
    }
}

/// Counts the solutions for a line that `solve_line` writes if it has room for all, at most `most` of them.
pub fn count_line<A: Allocator + Copy>(
    tables: &Tables<A>,
    line: &[u8],
    wanted: Wanted,
) -> SearchAnswer
    ensures { CountsLine tables.now wanted line.now result }
{
    let Some(bounds) = Bounds::new(wanted) else {
        return SearchAnswer::misused();
    };
    if line.len() > MOST_BYTES {
        return SearchAnswer::too_long();
    }
    match begin(tables, line) {
        Ok(position) => count_position(tables, &position, bounds),
        Err(fault) => SearchAnswer::faulty(fault),
    }
}
