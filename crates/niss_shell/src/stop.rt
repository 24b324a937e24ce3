//! What stops a run before its good end: what it then writes to the error writer, and its exit status.
ghost use Rattle.std.specs.Prelude.{◌≡◌, decimal, codes, ◌+◌, ◌∷◌, [], ◌++◌, ◌≤◌, length};
ghost use Rattle.niss_shell.specs.Output.{stop_text, stop_status, start_text, line_fault_text, most_error_text};
ghost use Rattle.niss_shell.specs.Lines.{line_feed};
ghost use Rattle.niss_moves.specs.Faults.{fault_column, fault_text};
ghost use Rattle.niss_shell.specs.Names.{CannotWrite, OutOfMemory};

use crate::device::DeviceFault;
use crate::text::{put_number, put_text};
use niss_cube::{OutOfMemory, Step};
use niss_moves::{LineText, ReadFault};
use std::alloc::AllocError;

/// What is wrong with a line.
#[derive(Clone, Copy)]
pub enum LineFault {
    /// It spells no moves.
    Unread(ReadFault),
    /// The step may not start on its cube.
    NoStart(Step),
}

/// What stops a run before its good end.
#[derive(Clone, Copy)]
pub enum Stop {
    Line { line: u32, fault: LineFault },
    Usage,
    InputTooLong,
    CannotRead,
    CannotWrite,
    OutOfMemory,
}

/// Appends the column and the text of a fault in the moves of a line.
fn put_read_fault(fault: ReadFault, text: &mut LineText)
    requires { length text.old.items ≤ 100 }
    ensures words { text.new.items
        ≡ text.old.items ++ codes ", column " ++ decimal (fault_column fault) ++ codes ": "
        ++ fault_text fault ++ line_feed ∷ [] }
    ensures short { length text.new.items ≤ length text.old.items + 64 }
{
    put_text(b", column ", text);
    put_number(fault.column() as u128, text);
    put_text(b": ", text);
    put_text(fault.text().as_bytes(), text);
    text.push(b'\n');
}

/// Appends the name of the step that has to be reached before this one.
fn put_start_fault(step: Step, text: &mut LineText)
    requires { length text.old.items ≤ 100 }
    ensures words { text.new.items
        ≡ text.old.items ++ codes ": " ++ start_text step ++ codes " does not hold" ++ line_feed ∷ [] }
    ensures short { length text.new.items ≤ length text.old.items + 64 }
{
    put_text(b": ", text);
    if let Some(name) = step.start_name() {
        put_text(name.as_bytes(), text);
    }
    put_text(b" does not hold\n", text);
}

/// Writes the number of the line, and what is wrong with it, into the empty text.
fn put_line_fault(line: u32, fault: LineFault, text: &mut LineText)
    requires { length text.old.items ≡ 0 }
    ensures words { text.new.items ≡ line_fault_text line fault }
    ensures short { length text.new.items ≤ most_error_text }
{
    put_text(b"nissy: line ", text);
    put_number(line as u128, text);
    match fault {
        LineFault::Unread(fault) => put_read_fault(fault, text),
        LineFault::NoStart(step) => put_start_fault(step, text),
    }
}

impl From<DeviceFault> for Stop {
    ghost from_gives = { λ _ stop. stop ≡ CannotWrite };

    /// What a refused write or flush of the output ends a run with.
    fn from(_: DeviceFault) -> Stop {
        Stop::CannotWrite
    }
}

impl From<OutOfMemory> for Stop {
    ghost from_gives = { λ _ stop. stop ≡ OutOfMemory };

    /// What refused memory for tables ends a run with.
    fn from(_: OutOfMemory) -> Stop {
        Stop::OutOfMemory
    }
}

impl From<AllocError> for Stop {
    ghost from_gives = { λ _ stop. stop ≡ OutOfMemory };

    /// What refused memory for words ends a run with.
    fn from(_: AllocError) -> Stop {
        Stop::OutOfMemory
    }
}

impl Stop {
    /// The text for the error writer.
    pub fn text(self) -> LineText
        ensures words { result.items ≡ stop_text self }
        ensures short { length result.items ≤ most_error_text }
    {
        let mut text = LineText::new();
        match self {
            Stop::Line { line, fault } => put_line_fault(line, fault, &mut text),
            Stop::Usage => put_text(b"usage: nissy COMMAND [ARGUMENTS]\n", &mut text),
            Stop::InputTooLong => {
                put_text(b"nissy: input longer than 16777216 bytes\n", &mut text)
            }
            Stop::CannotRead => put_text(b"nissy: cannot read\n", &mut text),
            Stop::CannotWrite => put_text(b"nissy: cannot write\n", &mut text),
            Stop::OutOfMemory => put_text(b"nissy: out of memory\n", &mut text),
        }
        text
    }

    /// The exit status.
    pub fn status(self) -> u8
        ensures { result ≡ stop_status self }
    {
        match self {
            Stop::Line { .. } => 1,
            Stop::Usage => 2,
            Stop::InputTooLong | Stop::CannotRead | Stop::CannotWrite | Stop::OutOfMemory => 3,
        }
    }
}
