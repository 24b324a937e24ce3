//! The calls by the tables of a step, which are built once in memory that is lent for good, and are asked many times.
ghost use Rattle.std.specs.Prelude.{◌≡◌, ◌≢◌};
ghost use Rattle.niss_embed.specs.Memory.{memory};
ghost use Rattle.niss_lines.specs.LineCalls.{status_number};
ghost use Rattle.niss_lines.specs.declared.answer.Status.TheVariants.{Usage};
ghost use Rattle.niss_embed.specs.LineSearch.{Builds, SolvesWith, CountsWith, wanted};
ghost use Rattle.niss_embed.specs.ManyLines.{CountsLinesWith};
ghost use Rattle.niss_embed.specs.SolveAfter.{SolvesAfterWith};

use crate::held::Held;
use crate::room::Room;
use niss_cube::Step;
use niss_embed::{
    LinesAnswer, SearchAnswer, Wanted, count_line, count_lines, solve_after, solve_line,
};
use niss_lines::Status;
use std::mem::replace;

/// Builds the tables of the step of this name in two rooms, the small one of 256 bytes. `Done`: there are tables of
/// this step. `Usage`: no step has this name. `Stopped`: a room is too small. After these two there are no tables, so
/// that a host that ignores it never asks those of another step. After `Usage` the rooms are the host's, and else they
/// are kept for good.
#[unsafe(no_mangle)]
pub extern "C" fn nissy_build(
    small: &mut Room,
    large: &mut Room,
    tables: &mut Held,
    name: &[u8],
) -> u8
    ensures builds { Builds name.now tables.new.built tables.new.kept.step result }
    ensures keeps { result ≢ status_number Usage → (small.new.size ≡ 0) × (large.new.size ≡ 0) }
    ensures leaves { result ≡ status_number Usage → (small.new ≡ small.old) × (large.new ≡ large.old) }
{
    let Some(step) = Step::from_name(name) else {
        *tables = Held::none();
        return Status::Usage.number();
    };
    let small = replace(small, Room::none());
    let large = replace(large, Room::none());
    *tables = Held::build(small, large, step);
    if tables.built {
        Status::Done.number()
    } else {
        Status::Stopped.number()
    }
}

/// Writes the solutions for a line by the tables, as `solve_line` of `niss_embed`.
#[unsafe(no_mangle)]
pub extern "C" fn nissy_solve(
    tables: &Held,
    line: &[u8],
    limit: u8,
    slack: u8,
    most: u64,
    most_nodes: u64,
    out: &mut [u8],
) -> SearchAnswer
    ensures { SolvesWith tables.now.built tables.now.kept.step (wanted limit slack most most_nodes) line.now
        (memory out.old out.new) result }
{
    let wanted = Wanted {
        limit,
        slack,
        most,
        most_nodes,
    };
    match tables.tables() {
        Some(tables) => solve_line(tables, line, wanted, out),
        None => SearchAnswer::misused(),
    }
}

/// Writes the solutions for a line that come after one of them, by the tables, as `solve_after` of `niss_embed`.
#[unsafe(no_mangle)]
pub extern "C" fn nissy_solve_after(
    tables: &Held,
    line: &[u8],
    after: &[u8],
    limit: u8,
    slack: u8,
    most: u64,
    most_nodes: u64,
    out: &mut [u8],
) -> SearchAnswer
    ensures { SolvesAfterWith tables.now.built tables.now.kept.step (wanted limit slack most most_nodes) line.now after.now
        (memory out.old out.new) result }
{
    let wanted = Wanted {
        limit,
        slack,
        most,
        most_nodes,
    };
    match tables.tables() {
        Some(tables) => solve_after(tables, line, after, wanted, out),
        None => SearchAnswer::misused(),
    }
}

/// Counts the solutions for a line by the tables, as `count_line` of `niss_embed`.
#[unsafe(no_mangle)]
pub extern "C" fn nissy_count(
    tables: &Held,
    line: &[u8],
    limit: u8,
    slack: u8,
    most: u64,
    most_nodes: u64,
) -> SearchAnswer
    ensures { CountsWith tables.now.built tables.now.kept.step (wanted limit slack most most_nodes) line.now result }
{
    let wanted = Wanted {
        limit,
        slack,
        most,
        most_nodes,
    };
    match tables.tables() {
        Some(tables) => count_line(tables, line, wanted),
        None => SearchAnswer::misused(),
    }
}

/// Counts the solutions for each line of a text by the tables, as `count_lines` of `niss_embed`.
#[unsafe(no_mangle)]
pub extern "C" fn nissy_count_lines(
    tables: &Held,
    text: &[u8],
    limit: u8,
    slack: u8,
    most: u64,
    most_nodes: u64,
    answers: &mut [SearchAnswer],
) -> LinesAnswer
    ensures { CountsLinesWith tables.now.built tables.now.kept.step (wanted limit slack most most_nodes) text.now
        answers.old answers.new result }
{
    let wanted = Wanted {
        limit,
        slack,
        most,
        most_nodes,
    };
    match tables.tables() {
        Some(tables) => count_lines(tables, text, wanted, answers),
        None => LinesAnswer {
            status: Status::Usage.number(),
            lines: 0,
            bytes: 0,
        },
    }
}
