//! What a search on a line returns, in numbers.
ghost use Rattle.std.specs.Prelude.{◌≡◌};
ghost use Rattle.niss_embed.specs.LineSearch.{number_of_fault, column_of_fault, unsolved};
ghost use Rattle.niss_lines.specs.declared.answer.Status.TheVariants.{Fault, Usage, Stopped};

use niss_lines::{Status, fault_number};
use niss_shell::LineFault;

/// What a search on one line returns, whether it hands its solutions out or counts them.
#[repr(C)]
#[derive(Clone, Copy, Debug, PartialEq, Eq)]
pub struct SearchAnswer {
    /// The number of a `Status`.
    pub status: u8,
    /// What is wrong with the line, 1 to 5 in the order of `ReadFault`; 6 if the step may not start there; else 0.
    pub fault: u8,
    /// The least length of a solution, or 0 if none is known.
    pub least: u8,
    /// There are more solutions than these, or there may be if the search was cut.
    pub more: bool,
    /// The column of the fault in bytes, from 1; 0 if it has none.
    pub column: u32,
    /// How many bytes were written, from the beginning of the memory.
    pub length: usize,
    /// How many solutions were written or counted.
    pub solutions: u64,
    /// How often the search looked at a position, or 2^64 - 1 if more often.
    pub nodes: u64,
}

/// The number of a line's fault, and its column, or 0 if it has none.
fn number_and_column(fault: LineFault) -> (u8, u32)
    ensures number { result.0 ≡ number_of_fault fault }
    ensures column { result.1 ≡ column_of_fault fault }
{
    match fault {
        LineFault::Unread(fault) => (fault_number(fault), fault.column()),
        LineFault::NoStart(_) => (6, 0),
    }
}

impl SearchAnswer {
    /// An answer that tells of no search.
    fn unsolved(status: Status, fault: u8, column: u32) -> SearchAnswer
        ensures { result ≡ unsolved status fault column }
    {
        SearchAnswer {
            status: status.number(),
            fault,
            least: 0,
            more: false,
            column,
            length: 0,
            solutions: 0,
            nodes: 0,
        }
    }

    /// The answer if there is no such search.
    pub fn misused() -> SearchAnswer
        ensures { result ≡ unsolved Usage 0 0 }
    {
        SearchAnswer::unsolved(Status::Usage, 0, 0)
    }

    /// The answer to a line of too many bytes.
    pub(crate) fn too_long() -> SearchAnswer
        ensures { result ≡ unsolved Stopped 0 0 }
    {
        SearchAnswer::unsolved(Status::Stopped, 0, 0)
    }

    /// The answer to a line with this fault.
    pub(crate) fn faulty(fault: LineFault) -> SearchAnswer
        ensures { result ≡ unsolved Fault (number_of_fault fault) (column_of_fault fault) }
    {
        let (number, column) = number_and_column(fault);
        SearchAnswer::unsolved(Status::Fault, number, column)
    }
}
