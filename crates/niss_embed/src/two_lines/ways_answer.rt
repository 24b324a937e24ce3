//! What is asked of a search for the best ways on, and what it tells, in numbers.
ghost use Rattle.std.specs.Prelude.{◌≡◌};
ghost use Rattle.niss_embed.specs.BestWays.{unfound, nowhere_answer, unwritten_line, line_told};
ghost use Rattle.niss_lines.specs.declared.answer.Status.TheVariants.{Usage};

use crate::two_lines::Nowhere;
use niss_lines::{LineAnswer, Status};

/// What is looked for.
#[repr(C)]
#[derive(Clone, Copy, Debug, PartialEq, Eq)]
pub struct WaysWanted {
    /// By how many turns, from 0 to 20, the first step is longer at most than its least length of a kind.
    pub slack: u8,
    /// On which axes the orientation is: 1 F and B, 2 R and L, 4 U and D, added.
    pub axes: u8,
    /// How many turns the first step has, from and to, each 0 to 20.
    pub from: u8,
    pub to: u8,
    /// At how many positions it may look.
    pub most_nodes: u64,
    /// How many ways stand in the room already, in order, at its front.
    pub there: usize,
}

/// What a search for the best ways on returns.
#[repr(C)]
#[derive(Clone, Copy, Debug, PartialEq, Eq)]
pub struct WaysAnswer {
    /// The number of a `Status`, but not that of `NoRoom`.
    pub status: u8,
    /// What is wrong with a line, 1 to 5 in the order of `ReadFault`; 0 if nothing is.
    pub fault: u8,
    /// Which line has a fault or too many bytes: 1, the scramble, or 2, the moves so far; 0 if none has.
    pub line: u8,
    /// Longer first steps are let in on the axes that were asked for, or it isn't known.
    pub next: bool,
    /// The column of the fault in bytes, from 1; 0 if there is none, or if both lines have too many moves together.
    pub column: u32,
    /// How many ways stand in the room.
    pub rows: usize,
    /// How many ways were tried.
    pub tried: u64,
    /// At how many positions it looked.
    pub nodes: u64,
}

/// What the call returns that writes the line of the cube at which one stands.
#[repr(C)]
#[derive(Clone, Copy, Debug, PartialEq, Eq)]
pub struct LineAfterAnswer {
    /// The number of `Done`, `Fault`, `Stopped` or `NoRoom`.
    pub status: u8,
    /// What is wrong with a line, 1 to 5 in the order of `ReadFault`; 0 if nothing is.
    pub fault: u8,
    /// Which line has a fault or too many bytes: 1, the scramble, or 2, the moves so far; 0 if none has.
    pub line: u8,
    /// The column of the fault in bytes, from 1; 0 if there is none, or if both lines have too many moves together.
    pub column: u32,
    /// The bytes of the text, written or not; 0 if there is none.
    pub length: usize,
}

impl WaysAnswer {
    /// An answer that tells of no search.
    fn unfound(status: Status, line: u8, fault: u8, column: u32) -> WaysAnswer
        ensures { result ≡ unfound status line fault column }
    {
        WaysAnswer {
            status: status.number(),
            fault,
            line,
            next: false,
            column,
            rows: 0,
            tried: 0,
            nodes: 0,
        }
    }

    /// The answer if the tables aren't those of the nine steps, or a number is out of its range.
    pub fn misused() -> WaysAnswer
        ensures { result ≡ unfound Usage 0 0 0 }
    {
        WaysAnswer::unfound(Status::Usage, 0, 0, 0)
    }

    /// The answer to lines that lead to no cube.
    pub(crate) fn nowhere(why: Nowhere) -> WaysAnswer
        ensures { result ≡ nowhere_answer why }
    {
        WaysAnswer::unfound(why.status(), why.line(), why.fault(), why.column())
    }
}

impl LineAfterAnswer {
    /// The answer if a line is there to be written.
    pub(crate) fn of(put: LineAnswer) -> LineAfterAnswer
        ensures { result ≡ line_told put }
    {
        LineAfterAnswer {
            status: put.status,
            fault: put.fault,
            line: 0,
            column: put.column,
            length: put.length,
        }
    }

    /// The answer to lines that lead to no cube.
    pub(crate) fn nowhere(why: Nowhere) -> LineAfterAnswer
        ensures { result ≡ unwritten_line why }
    {
        LineAfterAnswer {
            status: why.status().number(),
            fault: why.fault(),
            line: why.line(),
            column: why.column(),
            length: 0,
        }
    }
}
