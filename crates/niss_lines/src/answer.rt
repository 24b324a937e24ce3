//! What calls return that write text, in numbers, since C and pages know no enums.
ghost use Rattle.std.specs.Prelude.{◌≡◌, ◌≤◌, length};
ghost use Rattle.niss_lines.specs.LineCalls.{status_number, fault_number, plain_answer, answer_for};
ghost use Rattle.niss_lines.specs.LineCalls.{Does, Unread, TooLong, Misused, outcome_of_text};
ghost use Rattle.niss_lines.specs.declared.answer.Status.TheVariants.{Done};

use niss_moves::ReadFault;

/// How a call ended. The first four numbers are those of the program's exit statuses.
#[derive(Clone, Copy, Debug, PartialEq, Eq)]
pub enum Status {
    /// 0: all is written.
    Done,
    /// 1: the line has a fault, or the step may not start on its cube.
    Fault,
    /// 2: there is no such step, no such search or number, or there are no tables.
    Usage,
    /// 3: the line has more than 16,777,216 bytes, or memory was refused.
    Stopped,
    /// 4: the text, or the next solution, has no room.
    NoRoom,
    /// 5: the search would look at more positions than it may.
    Cut,
}

impl Status {
    /// Its number.
    pub fn number(self) -> u8
        ensures { result ≡ status_number self }
    {
        match self {
            Status::Done => 0,
            Status::Fault => 1,
            Status::Usage => 2,
            Status::Stopped => 3,
            Status::NoRoom => 4,
            Status::Cut => 5,
        }
    }
}

/// What a call that writes a short text returns: a status, and with it the fault of the line or the length of the text.
#[repr(C)]
#[derive(Clone, Copy, Debug, PartialEq, Eq)]
pub struct LineAnswer {
    /// The number of a `Status`.
    pub status: u8,
    /// What is wrong with the line, 1 to 5 in the order of `ReadFault`; 0 if nothing is.
    pub fault: u8,
    /// The column of the fault in bytes, from 1; 0 if there is none.
    pub column: u32,
    /// The bytes of the text, written or not; 0 if there is none.
    pub length: usize,
}

/// The number of a fault in reading moves.
pub fn fault_number(fault: ReadFault) -> u8
    ensures { result ≡ fault_number fault }
{
    match fault {
        ReadFault::NotAMove { .. } => 1,
        ReadFault::Nested { .. } => 2,
        ReadFault::Unopened { .. } => 3,
        ReadFault::Unclosed { .. } => 4,
        ReadFault::TooLong { .. } => 5,
    }
}

impl LineAnswer {
    /// The answer of a call that tells of no fault.
    fn plain(status: Status, length: usize) -> LineAnswer
        ensures { result ≡ plain_answer status length }
    {
        LineAnswer {
            status: status.number(),
            fault: 0,
            column: 0,
            length,
        }
    }

    /// The answer to a line with this fault.
    pub fn unread(fault: ReadFault) -> LineAnswer
        ensures { result ≡ answer_for (Unread fault) }
    {
        LineAnswer {
            status: Status::Fault.number(),
            fault: fault_number(fault),
            column: fault.column(),
            length: 0,
        }
    }

    /// The answer to a line of too many bytes.
    pub fn too_long() -> LineAnswer
        ensures { result ≡ answer_for TooLong }
    {
        LineAnswer::plain(Status::Stopped, 0)
    }

    /// The answer to a call that asks for what isn't there.
    pub fn misused() -> LineAnswer
        ensures { result ≡ answer_for Misused }
    {
        LineAnswer::plain(Status::Usage, 0)
    }

    /// Writes the text to the front of the buffer if it fits, and tells whether it did.
    pub fn put(text: &[u8], out: &mut [u8]) -> LineAnswer
        ensures does { Does (outcome_of_text (length out.old) text.now) out.old out.new result }
        ensures room { length text.now ≤ length out.old → result.status ≡ status_number Done }
    {
        let length = text.len();
        if length > out.len() {
            return LineAnswer::plain(Status::NoRoom, length);
        }
        out[..length].copy_from_slice(text);
        LineAnswer::plain(Status::Done, length)
    }
}
