//! An answer to each line of a text, one after another as long as there is room: counts by tables that the caller keeps, or
//! facts.
ghost use Rattle.std.specs.Prelude.{◌≡◌, ◌<◌, ◌≤◌, ◌-◌, ◌∷◌, [], MatchOption, drop, length, List, ℕ};
ghost use Rattle.niss_embed.specs.LineSearch.{CountsLine};
ghost use Rattle.niss_embed.specs.ManyLines.{text_lines, AnswersLines, TellsFacts, taken};

use crate::line::search::{Wanted, count_line};
use crate::line::search_answer::SearchAnswer;
use niss_lines::{FactsAnswer, Status, facts_of_line};
use niss_search::Tables;
use niss_shell::lines_are_cut;
use std::alloc::Allocator;

/// What a call on many lines returns, which puts an answer to each of them into a caller's room.
#[repr(C)]
#[derive(Clone, Copy, Debug, PartialEq, Eq)]
pub struct LinesAnswer {
    /// The number of `Done`, or of `Usage` if there are no tables.
    pub status: u8,
    /// How many lines were taken, and answers written.
    pub lines: usize,
    /// How many bytes of the text these lines are, with their line feeds.
    pub bytes: usize,
}

/// What is asked of each line, and how it is answered.
trait Question<T> {
    /// The line has this answer.
    ghost answers: { Self → List ℕ → T → Type 0 };

    /// Answers a line.
    fn ask(&self, line: &[u8]) -> T
        ensures { answers self.now line.now result };
}

/// What is seen of each line.
#[derive(Drop)]
struct Facts;

impl Question<FactsAnswer> for Facts {
    ghost answers = { λ question. TellsFacts };

    fn ask(&self, line: &[u8]) -> FactsAnswer {
        facts_of_line(line)
    }
}

/// How many solutions each line has, by the tables of a step.
#[derive(Drop)]
struct Counts<'a, A: Allocator> {
    tables: &'a Tables<A>,
    wanted: Wanted,
}

impl<A: Allocator + Copy> Question<SearchAnswer> for Counts<'_, A> {
    ghost answers = { λ question. CountsLine question.tables.now question.wanted };

    fn ask(&self, line: &[u8]) -> SearchAnswer {
        count_line(self.tables, line, self.wanted)
    }
}

/// The first line, and what is after it.
fn first_line(text: &[u8]) -> Option<(&[u8], &[u8])>
    ensures { MatchOption result (text.now ≡ []) (λ cut. (text_lines text.now ≡ cut.0.now ∷ text_lines cut.1.now)
        × (length cut.1.now < length text.now)
        × (cut.1.now ≡ drop (length text.now - length cut.1.now) text.now)) }
{
    if text.is_empty() {
        return None;
    }
    // so the first cut is that of the first line
    lines_are_cut();
    match text.iter().position(|byte| *byte == b'\n') {
        Some(at) => Some((&text[..at], &text[at + 1..])),
        None => Some((text, &[])),
    }
}

/// So many lines were taken, and this is left of the text.
fn taken(text: &[u8], rest: &[u8], lines: usize) -> LinesAnswer
    requires { length rest.now ≤ length text.now }
    ensures { result ≡ taken lines (length text.now - length rest.now) }
{
    LinesAnswer {
        status: Status::Done.number(),
        lines,
        bytes: text.len() - rest.len(),
    }
}

/// Answers the lines of a text as long as there is room, and tells how many lines and bytes it took.
fn answer_lines<T: Copy, Q: Question<T>>(
    question: &Q,
    text: &[u8],
    answers: &mut [T],
) -> LinesAnswer
    ensures { AnswersLines (Q.answers question.now) text.now answers.old answers.new result }
{
    let mut rest = text;
    let mut lines = 0;
    while lines < answers.len() {
        let Some((line, after)) = first_line(rest) else {
            return taken(text, rest, lines);
        };
        answers[lines] = question.ask(line);
        lines += 1;
        rest = after;
    }
    taken(text, rest, lines)
}

/// Counts the solutions for each line of a text, as `count_line` does for one, as long as there is room for answers.
pub fn count_lines<A: Allocator + Copy>(
    tables: &Tables<A>,
    text: &[u8],
    wanted: Wanted,
    answers: &mut [SearchAnswer],
) -> LinesAnswer
    ensures { AnswersLines (CountsLine tables.now wanted) text.now answers.old answers.new result }
{
    answer_lines(&Counts { tables, wanted }, text, answers)
}

/// Tells what is seen of each line of a text, as `facts_of_line` does of one, as long as there is room for answers.
pub fn facts_of_lines(text: &[u8], answers: &mut [FactsAnswer]) -> LinesAnswer
    ensures { AnswersLines TellsFacts text.now answers.old answers.new result }
{
    answer_lines(&Facts, text, answers)
}
