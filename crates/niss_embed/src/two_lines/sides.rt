//! The call that lists the solutions of a step over sides, from a scramble and the moves so far.
ghost use Rattle.std.specs.Prelude.{◌≡◌, ◌≢◌, ◌⊎◌, ◌<◌, ◌≤◌, MatchOption};
ghost use Rattle.niss_embed.specs.ListedSides.{IsListing, NotListing, ListsSides, TellsSides, number_of_sides};

use crate::two_lines::sides_answer::{SidesAnswer, SidesWanted};
use crate::two_lines::{Nowhere, start_after};
use niss_lines::Status;
use niss_search::{Limit, Sides, Tables};
use niss_ways::{FoundSolutions, Listed, Part, list_solutions};
use std::alloc::Allocator;

/// The sides of a number: 1 is the scramble, 2 its inverse, 3 are both.
fn sides_of(number: u8) -> Option<Sides>
    ensures { MatchOption result ((number < 1) ⊎ (3 < number)) (λ sides. number ≡ number_of_sides sides) }
{
    match number {
        1 => Some(Sides::Normal),
        2 => Some(Sides::Inverse),
        3 => Some(Sides::Both),
        _ => None,
    }
}

/// What is listed by some numbers, if they are in their ranges.
fn listed_of(wanted: &SidesWanted) -> Option<Listed>
    ensures { MatchOption result (NotListing wanted.now) (IsListing wanted.now) }
{
    if wanted.counts > 1 {
        return None;
    }
    Some(Listed {
        sides: sides_of(wanted.sides)?,
        length: Limit::new(wanted.length)?,
        passed: wanted.passed,
        counts: wanted.counts == 1,
        most_looks: wanted.most_nodes,
    })
}

/// The answer of a list.
fn answer_of(found: FoundSolutions) -> SidesAnswer
    ensures { TellsSides found result }
{
    let status = if found.cut { Status::Cut } else { Status::Done };
    SidesAnswer {
        status: status.number(),
        fault: 0,
        line: 0,
        more: found.more,
        column: 0,
        rows: found.rows,
        solutions: found.solutions,
        nodes: found.looks,
    }
}

/// Puts the solutions of a step over sides from a scramble and the moves so far into the room, as `list_solutions` does: those of
/// exactly so many turns, without the first ones that are passed over. The answer says `Usage` if a number is out of its range.
pub fn solve_sides<A: Allocator>(
    tables: &Tables<A>,
    scramble: &[u8],
    so_far: &[u8],
    wanted: &SidesWanted,
    room: &mut [Part],
) -> SidesAnswer
    ensures { ListsSides tables.now wanted.now scramble.now so_far.now room.old room.new result }
{
    let Some(listed) = listed_of(wanted) else {
        return SidesAnswer::misused();
    };
    let start = match start_after(scramble, so_far) {
        Ok(start) => start,
        Err(why) => return SidesAnswer::nowhere(why),
    };
    match list_solutions(tables, &start, &listed, room) {
        Some(found) => answer_of(found),
        None => SidesAnswer::nowhere(Nowhere::NoStart),
    }
}
