//! The calls by the tables of a step, which are built once, stay, and are asked many times, by any threads at once.
ghost use Rattle.std.specs.Prelude.{◌≡◌, true};
ghost use Rattle.niss_cube.specs.Steps.{name_of};
ghost use Rattle.niss_embed.specs.Memory.{memory};
ghost use Rattle.niss_embed.specs.LineSearch.{Builds, SolvesWith, CountsWith, wanted};
ghost use Rattle.niss_embed.specs.ManyLines.{CountsLinesWith};
ghost use Rattle.niss_embed.specs.SolveAfter.{SolvesAfterWith};

use niss_cube::Step;
use niss_cube::laws::names_differ;
use niss_embed::{
    LinesAnswer, SearchAnswer, Wanted, count_line, count_lines, solve_after, solve_line,
};
use niss_kept::Held;
use niss_lines::Status;
use std::alloc::Global;

/// Builds the tables of the step of this name, which stay, unless they are there already. `Done`: there are tables of
/// this step. `Usage`: no step has this name. `Stopped`: memory was refused. After these two there are no tables, so
/// that a caller who ignores it never asks those of another step.
#[unsafe(no_mangle)]
pub extern "C" fn nissy_build(alloc: Global, tables: &mut Held, name: &[u8]) -> u8
    ensures builds { Builds name.now tables.new.built tables.new.kept.step result }
    // Tables of the step that are there already stay, and aren't built anew.
    ensures there { tables.old.built ≡ true → name_of tables.old.kept.step ≡ name.now → tables.new ≡ tables.old }
{
    // so tables whose step has this name are those of the step that is found
    names_differ();
    let Some(step) = Step::from_name(name) else {
        *tables = Held::none();
        return Status::Usage.number();
    };
    match tables.build(alloc, step) {
        Ok(()) => Status::Done.number(),
        Err(_) => Status::Stopped.number(),
    }
}

/// Writes the solutions for a line by the tables, as `solve_line` of `niss_embed`.
#[unsafe(no_mangle)]
pub extern "C" fn nissy_solve(
    tables: &Held,
    line: &[u8],
    limit: u8,
    slack: u8,
    most: u64,
    most_nodes: u64,
    out: &mut [u8],
) -> SearchAnswer
    ensures { SolvesWith tables.now.built tables.now.kept.step (wanted limit slack most most_nodes) line.now
        (memory out.old out.new) result }
{
    let wanted = Wanted {
        limit,
        slack,
        most,
        most_nodes,
    };
    match tables.tables() {
        Some(tables) => solve_line(tables, line, wanted, out),
        None => SearchAnswer::misused(),
    }
}

/// Writes the solutions for a line that come after one of them, by the tables, as `solve_after` of `niss_embed`.
#[unsafe(no_mangle)]
pub extern "C" fn nissy_solve_after(
    tables: &Held,
    line: &[u8],
    after: &[u8],
    limit: u8,
    slack: u8,
    most: u64,
    most_nodes: u64,
    out: &mut [u8],
) -> SearchAnswer
    ensures { SolvesAfterWith tables.now.built tables.now.kept.step (wanted limit slack most most_nodes) line.now after.now
        (memory out.old out.new) result }
{
    let wanted = Wanted {
        limit,
        slack,
        most,
        most_nodes,
    };
    match tables.tables() {
        Some(tables) => solve_after(tables, line, after, wanted, out),
        None => SearchAnswer::misused(),
    }
}

/// Counts the solutions for a line by the tables, as `count_line` of `niss_embed`.
#[unsafe(no_mangle)]
pub extern "C" fn nissy_count(
    tables: &Held,
    line: &[u8],
    limit: u8,
    slack: u8,
    most: u64,
    most_nodes: u64,
) -> SearchAnswer
    ensures { CountsWith tables.now.built tables.now.kept.step (wanted limit slack most most_nodes) line.now result }
{
    let wanted = Wanted {
        limit,
        slack,
        most,
        most_nodes,
    };
    match tables.tables() {
        Some(tables) => count_line(tables, line, wanted),
        None => SearchAnswer::misused(),
    }
}

/// Counts the solutions for each line of a text by the tables, as `count_lines` of `niss_embed`.
#[unsafe(no_mangle)]
pub extern "C" fn nissy_count_lines(
    tables: &Held,
    text: &[u8],
    limit: u8,
    slack: u8,
    most: u64,
    most_nodes: u64,
    answers: &mut [SearchAnswer],
) -> LinesAnswer
    ensures { CountsLinesWith tables.now.built tables.now.kept.step (wanted limit slack most most_nodes) text.now
        answers.old answers.new result }
{
    let wanted = Wanted {
        limit,
        slack,
        most,
        most_nodes,
    };
    match tables.tables() {
        Some(tables) => count_lines(tables, text, wanted, answers),
        None => LinesAnswer {
            status: Status::Usage.number(),
            lines: 0,
            bytes: 0,
        },
    }
}
