//! Calls on a scramble and the moves so far: the search for the best ways on, and the line of the cube at which one stands.
ghost use Rattle.std.specs.Prelude.{◌≡◌, ◌≢◌, ◌≤◌, MatchOption, length};
ghost use Rattle.niss_embed.specs.BestWays.{FindsBest, IsInRange, IsWish, Tells, WritesLineAfter, WritesTurns};
ghost use Rattle.niss_embed.specs.TwoLines.{both_of};
ghost use Rattle.niss_lines.specs.LineCalls.{enough_bytes, status_number};
ghost use Rattle.niss_embed.specs.Memory.{memory};
ghost use Rattle.niss_lines.specs.declared.answer.Status.TheVariants.{NoRoom};

use crate::two_lines::ways_answer::{LineAfterAnswer, WaysAnswer, WaysWanted};
use crate::two_lines::{Nowhere, start_after};
use niss_lines::{LineAnswer, Status};
use niss_moves::{LineText, put_faces};
use niss_search::Limit;
use niss_ways::{Axes, FoundWays, Start, Way, WayTables, Wish, find_ways};
use std::alloc::Allocator;

/// What is wished by some numbers, if they are in their ranges.
fn wish_of(wanted: &WaysWanted) -> Option<Wish>
    ensures { MatchOption result (IsInRange wanted.now → ⊥) (IsWish wanted.now) }
{
    if wanted.axes >= 8 {
        return None;
    }
    let slack = Limit::new(wanted.slack)?;
    let axes = Axes {
        fb: wanted.axes % 2 == 1,
        rl: wanted.axes / 2 % 2 == 1,
        ud: wanted.axes / 4 == 1,
    };
    Some(Wish {
        slack,
        axes,
        from: Limit::new(wanted.from)?,
        to: Limit::new(wanted.to)?,
        most_looks: wanted.most_nodes,
    })
}

/// The answer of a search.
fn answer_of(found: FoundWays) -> WaysAnswer
    ensures { Tells found result }
{
    let status = if found.cut { Status::Cut } else { Status::Done };
    WaysAnswer {
        status: status.number(),
        fault: 0,
        line: 0,
        next: found.next,
        column: 0,
        rows: found.rows,
        tried: found.tried,
        nodes: found.looks,
    }
}

/// Puts the best ways on from a scramble and the moves so far into the room, as `find_ways` does. The tables are those of the nine
/// steps. The answer says `Usage` if a number is out of its range, or if fewer ways have place in the room than stand there. After a
/// fault the room is as it was.
pub fn best_ways<A: Allocator>(
    tables: &WayTables<A>,
    scramble: &[u8],
    so_far: &[u8],
    wanted: &WaysWanted,
    room: &mut [Way],
) -> WaysAnswer
    ensures { FindsBest wanted.now scramble.now so_far.now room.old room.new result }
{
    let Some(wish) = wish_of(wanted) else {
        return WaysAnswer::misused();
    };
    if wanted.there > room.len() {
        return WaysAnswer::misused();
    }
    match start_after(scramble, so_far) {
        Ok(start) => answer_of(find_ways(tables, &start, &wish, room, wanted.there)),
        Err(why) => WaysAnswer::nowhere(why),
    }
}

/// Writes the line of where one stands, cleaned, if other calls read as many turns.
fn put_line(start: &Start, out: &mut [u8]) -> LineAfterAnswer
    ensures does { WritesTurns start.now.line (memory out.old out.new) result }
    ensures room { enough_bytes ≤ length out.old → result.status ≢ status_number NoRoom }
{
    let Some(turns) = start.clean_line() else {
        return LineAfterAnswer::nowhere(Nowhere::TooMany);
    };
    let mut text = LineText::new();
    put_faces(turns.as_slice(), &mut text);
    LineAfterAnswer::of(LineAnswer::put(text.as_slice(), out))
}

/// Writes the line of the cube at which one stands after a scramble and the moves so far: clean face turns, named by the centres, with
/// the moves in brackets inverted before the scramble. All of it is written, at most 256 turns, or nothing, if the buffer is too small, a
/// line has a fault, or both have too many moves; 2,048 bytes are enough.
pub fn line_after(scramble: &[u8], so_far: &[u8], out: &mut [u8]) -> LineAfterAnswer
    ensures does { WritesLineAfter (both_of scramble.now so_far.now) (memory out.old out.new) result }
    ensures room { enough_bytes ≤ length out.old → result.status ≢ status_number NoRoom }
{
    match start_after(scramble, so_far) {
        Ok(start) => put_line(&start, out),
        Err(why) => LineAfterAnswer::nowhere(why),
    }
}
