//! Which lines of a text are of a scramble, steps, and of the solution, and how long their moves are.
ghost use Rattle.std.specs.Prelude.{◌≡◌, ◌==◌, ◌-◌};
ghost use Rattle.std.specs.List.{list_any};
ghost use Rattle.niss_text.specs.Moves.{is_wanted};
ghost use Rattle.niss_text.specs.declared.moves.MovesOf.TheVariants.{Scramble, Solution};

use niss_text::TextLine;

/// The kind of a line of a scramble, by the number of `niss_text`, and of a step.
const SCRAMBLE_LINE: u8 = 2;

const STEP_LINE: u8 = 3;

/// Whether one of some lines is of a scramble.
pub(crate) fn has_scramble(lines: &[TextLine]) -> bool
    ensures { result ≡ list_any (is_wanted Scramble) lines.now }
{
    lines.iter().any(|line| line.kind == SCRAMBLE_LINE)
}

/// Whether a line is a step.
pub(crate) fn is_step(line: &TextLine) -> bool
    ensures { result ≡ (line.now.kind == 3) }
{
    line.kind == STEP_LINE
}

/// How many bytes the moves of a line have, with what stands between them.
pub(crate) fn length_of_moves(line: &TextLine) -> usize
    ensures { result ≡ line.now.comment - line.now.moves }
{
    line.comment.saturating_sub(line.moves)
}

/// Whether a line is of a solution.
pub(crate) fn is_of_solution(line: &TextLine) -> bool
    ensures { result ≡ is_wanted Solution line.now }
{
    line.kind == STEP_LINE && line.is_solution != 0
}

/// Whether one of some lines is of a solution.
pub(crate) fn has_solution(lines: &[TextLine]) -> bool
    ensures { result ≡ list_any (is_wanted Solution) lines.now }
{
    lines.iter().any(|line| is_of_solution(line))
}
