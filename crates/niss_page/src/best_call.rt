//! The calls on a scramble and the moves so far: the search for the best ways on, by the tables of nine steps, the solutions of
//! one step over sides, and the line of the cube at which one stands.
ghost use Rattle.std.specs.Prelude.{◌≡◌, ◌≢◌, ◌≤◌, length};
ghost use Rattle.niss_embed.specs.BestWays.{FindsBestWith, WritesLineAfter};
ghost use Rattle.niss_embed.specs.TwoLines.{both_of};
ghost use Rattle.niss_lines.specs.LineCalls.{status_number};
ghost use Rattle.niss_embed.specs.ListedSides.{ListsSidesWith};
ghost use Rattle.niss_embed.specs.Memory.{memory};
ghost use Rattle.niss_lines.specs.declared.answer.Status.TheVariants.{NoRoom};
ghost use Rattle.niss_ways.specs.HeldTables.{AreTables};
ghost use Rattle.niss_page.specs.IsTable.{IsTable};

use crate::held::Held;
use niss_embed::{
    LineAfterAnswer, SidesAnswer, SidesWanted, WaysAnswer, WaysWanted, best_ways, line_after,
    solve_sides,
};
use niss_ways::{Part, Way, tables_on};

/// Puts the best ways on from a scramble and the moves so far into the room, as `best_ways` of `niss_embed`.
#[unsafe(no_mangle)]
pub extern "C" fn nissy_best(
    tables: &[Held; 9],
    scramble: &[u8],
    so_far: &[u8],
    wanted: &WaysWanted,
    room: &mut [Way],
) -> WaysAnswer
    ensures { FindsBestWith (AreTables IsTable wanted.now.axes tables.now) wanted.now scramble.now so_far.now room.old room.new result }
{
    match tables_on(tables, wanted.axes) {
        Some(tables) => best_ways(&tables, scramble, so_far, wanted, room),
        None => WaysAnswer::misused(),
    }
}

/// Puts the solutions of a step over sides into the room by its tables, as `solve_sides` of `niss_embed`.
#[unsafe(no_mangle)]
pub extern "C" fn nissy_solve_sides(
    tables: &Held,
    scramble: &[u8],
    so_far: &[u8],
    wanted: &SidesWanted,
    room: &mut [Part],
) -> SidesAnswer
    ensures { ListsSidesWith tables.now.built tables.now.kept.step wanted.now scramble.now so_far.now room.old room.new result }
{
    match tables.tables() {
        Some(tables) => solve_sides(tables, scramble, so_far, wanted, room),
        None => SidesAnswer::misused(),
    }
}

/// Writes the line of the cube at which one stands, as `line_after` of `niss_embed`.
#[unsafe(no_mangle)]
pub extern "C" fn nissy_line_after(
    scramble: &[u8],
    so_far: &[u8],
    out: &mut [u8],
) -> LineAfterAnswer
    ensures does { WritesLineAfter (both_of scramble.now so_far.now) (memory out.old out.new) result }
    ensures room { 2048 ≤ length out.old → result.status ≢ status_number NoRoom }
{
    line_after(scramble, so_far, out)
}
