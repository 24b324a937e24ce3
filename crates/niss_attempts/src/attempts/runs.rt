//! Which of the lines of a text are its attempts.
ghost use Rattle.std.specs.Prelude.{◌≡◌, ◌≤◌, length};
ghost use Rattle.niss_attempts.specs.Runs.{Alike, FindsRun};

use crate::attempts::judged::Judged;
use crate::attempts::line_kinds::has_scramble;
use niss_text::TextLine;

/// The lines of an attempt among others: which is the first one, from 0, and which the first after them.
#[repr(C)]
#[derive(Clone, Copy, Debug, PartialEq, Eq)]
pub struct Run {
    pub first: usize,
    pub end: usize,
}

/// What is said of an attempt, and which lines these are.
#[repr(C)]
#[derive(Clone, Copy, Debug, PartialEq, Eq)]
pub struct Placed {
    pub lines: Run,
    pub judged: Judged,
}

/// How many lines are of an attempt, up to the first one that isn't.
fn alike(lines: &[TextLine], attempt: usize) -> usize
    ensures are { Alike attempt result lines.now }
    ensures few { result ≤ length lines.now }
{
    let mut count = 0;
    let mut rest = lines;
    while let Some((line, after)) = rest.split_first() {
        if line.attempt != attempt {
            return count;
        }
        count += 1;
        rest = after;
    }
    count
}

/// The first attempt with a scramble among lines from one of them on.
pub(crate) fn next_run(lines: &[TextLine], from: usize) -> Option<Run>
    requires { from ≤ length lines.now }
    ensures { FindsRun lines.now from result }
{
    let mut first = from;
    while let Some((line, others)) = lines[first..].split_first() {
        let end = first + 1 + alike(others, line.attempt);
        if has_scramble(&lines[first..end]) {
            return Some(Run { first, end });
        }
        first = end;
    }
    None
}
