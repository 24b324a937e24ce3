//! The calls that judge lines without a search: by what solvers choose among them, and whether a solution solves a
//! scramble.
ghost use Rattle.std.specs.Prelude.{◌≡◌};
ghost use Rattle.niss_lines.specs.LineFacts.{facts_of, check_of};
ghost use Rattle.niss_embed.specs.ManyLines.{AnswersLines, TellsFacts};
ghost use Rattle.niss_attempts.specs.Parts.{TellsPart};

use niss_attempts::{PartAnswer, solving_part};
use niss_embed::{LinesAnswer, facts_of_lines};
use niss_lines::{CheckAnswer, FactsAnswer, check_line, facts_of_line};

/// Tells what is seen of the cube of a line, as `facts_of_line` of `niss_lines`.
#[unsafe(no_mangle)]
pub extern "C" fn nissy_facts(line: &[u8]) -> FactsAnswer
    ensures { result ≡ facts_of line.now }
{
    facts_of_line(line)
}

/// Tells the same of each line of a text, as long as there is room.
#[unsafe(no_mangle)]
pub extern "C" fn nissy_facts_lines(text: &[u8], answers: &mut [FactsAnswer]) -> LinesAnswer
    ensures { AnswersLines TellsFacts text.now answers.old answers.new result }
{
    facts_of_lines(text, answers)
}

/// Tells whether a solution solves a scramble, however the cube is held then, and how many moves it counts.
#[unsafe(no_mangle)]
pub extern "C" fn nissy_check(scramble: &[u8], solution: &[u8]) -> CheckAnswer
    ensures { result ≡ check_of scramble.now solution.now }
{
    check_line(scramble, solution)
}

/// Tells which part of some steps solves a scramble, if one does, as `solving_part` of `niss_attempts`.
#[unsafe(no_mangle)]
pub extern "C" fn nissy_solving_part(scramble: &[u8], steps: &[u8]) -> PartAnswer
    ensures { TellsPart scramble.now steps.now result }
{
    solving_part(scramble, steps)
}
