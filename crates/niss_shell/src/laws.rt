//! What holds of all texts and of all lines. Each law is the contract of a function that does nothing.
ghost use Rattle.niss_shell.specs.Laws.{TextIsCut, OneCut, AcceptedLinesAreSolved, MoreInputKeepsAnswers};

use niss_moves::laws::line_is_read;
use niss_search::laws::counts_and_bounds;

/// The lines of a text are what its line feeds cut it into, and nothing else is.
pub fn lines_are_cut()
    ensures cut { TextIsCut }
    ensures only { OneCut }
{}

/// For a line that spells at most 256 moves, and a step that may start on its cube, `solve` writes all solutions of least
/// length within the limit, in turn order, or that there are none, with no more looks than the bound.
pub fn accepted_lines_are_solved()
    ensures { AcceptedLinesAreSolved }
{
    line_is_read();
    counts_and_bounds();
}

/// What is answered while more input is to come is a beginning of what is answered of the whole, and a fault stays. So a run
/// of which the words and the whole input are known writes what these say, however much of the input it reads.
#[tactic(auto, using(crate::proofs::LinesLemmas::more_input))]
pub fn more_input_keeps_answers()
    ensures { MoreInputKeepsAnswers }
{}
