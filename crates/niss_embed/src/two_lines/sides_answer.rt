//! What is asked of a list over sides, and what it tells, in numbers.
ghost use Rattle.std.specs.Prelude.{◌≡◌};
ghost use Rattle.niss_embed.specs.ListedSides.{nowhere_sides, unlisted};
ghost use Rattle.niss_lines.specs.declared.answer.Status.TheVariants.{Usage};

use crate::two_lines::Nowhere;
use niss_lines::Status;

/// What is listed.
#[repr(C)]
#[derive(Clone, Copy, Debug, PartialEq, Eq)]
pub struct SidesWanted {
    /// On which sides the moves are: 1 the scramble, 2 its inverse, 3 both.
    pub sides: u8,
    /// How many turns a solution has, from 0 to 20.
    pub length: u8,
    /// 1 if those that have no place in the room are counted, else 0.
    pub counts: u8,
    /// How many of the first ones are passed over.
    pub passed: u64,
    /// At how many positions it may look.
    pub most_nodes: u64,
}

/// What a list over sides returns.
#[repr(C)]
#[derive(Clone, Copy, Debug, PartialEq, Eq)]
pub struct SidesAnswer {
    /// The number of a `Status`, but not that of `NoRoom`.
    pub status: u8,
    /// What is wrong with a line, 1 to 5 in the order of `ReadFault`; 6 if the step may not start on the cube; else 0.
    pub fault: u8,
    /// Which line has a fault or too many bytes: 1, the scramble, or 2, the moves so far; 0 if none has.
    pub line: u8,
    /// The room is full, and there are more.
    pub more: bool,
    /// The column of the fault in bytes, from 1; 0 if there is none, or if both lines have too many moves together.
    pub column: u32,
    /// How many solutions stand in the room.
    pub rows: usize,
    /// How many came, with those that were passed over.
    pub solutions: u64,
    /// At how many positions it looked.
    pub nodes: u64,
}

impl SidesAnswer {
    /// An answer that tells of no list.
    fn unlisted(status: Status, line: u8, fault: u8, column: u32) -> SidesAnswer
        ensures { result ≡ unlisted status line fault column }
    {
        SidesAnswer {
            status: status.number(),
            fault,
            line,
            more: false,
            column,
            rows: 0,
            solutions: 0,
            nodes: 0,
        }
    }

    /// The answer if there are no tables, or a number is out of its range.
    pub fn misused() -> SidesAnswer
        ensures { result ≡ unlisted Usage 0 0 0 }
    {
        SidesAnswer::unlisted(Status::Usage, 0, 0, 0)
    }

    /// The answer to lines that lead to no cube, or to one on which the step may not start.
    pub(crate) fn nowhere(why: Nowhere) -> SidesAnswer
        ensures { result ≡ nowhere_sides why }
    {
        SidesAnswer::unlisted(why.status(), why.line(), why.fault(), why.column())
    }
}
