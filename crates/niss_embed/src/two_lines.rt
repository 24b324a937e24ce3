//! A scramble and the moves so far, and where one stands after them.
ghost use Rattle.std.specs.Prelude.{◌≡◌, IfOk, IfErr, Ok, Err, []};
ghost use Rattle.niss_moves.specs.Reader.{IsFed};
ghost use Rattle.niss_embed.specs.TwoLines.{both, both_of, StartsAfter};
ghost use Rattle.niss_embed.specs.TwoLines.{nowhere_status, nowhere_line, nowhere_fault, nowhere_column};

pub(crate) mod best;
pub(crate) mod sides;
pub(crate) mod sides_answer;
pub(crate) mod ways_answer;

use niss_lines::{Status, fault_number, read_by};
use niss_moves::{LineReader, Niss, ReadFault};
use niss_shell::MOST_BYTES;
use niss_ways::Start;

/// Why two lines lead to no cube.
#[derive(Clone, Copy, Debug, PartialEq, Eq)]
pub(crate) enum Nowhere {
    /// The line of this number has too many bytes.
    TooLong(u8),
    /// The line of this number has this fault.
    Unread(u8, ReadFault),
    /// Both have too many moves together.
    TooMany,
    /// The step may not start on the cube.
    NoStart,
}

impl Nowhere {
    /// How the call ends.
    pub(crate) fn status(self) -> Status
        ensures { result ≡ nowhere_status self }
    {
        match self {
            Nowhere::TooLong(_) => Status::Stopped,
            Nowhere::Unread(..) | Nowhere::TooMany | Nowhere::NoStart => Status::Fault,
        }
    }

    /// Which line it is.
    pub(crate) fn line(self) -> u8
        ensures { result ≡ nowhere_line self }
    {
        match self {
            Nowhere::TooLong(line) | Nowhere::Unread(line, _) => line,
            Nowhere::TooMany => 2,
            Nowhere::NoStart => 0,
        }
    }

    /// The number of the fault.
    pub(crate) fn fault(self) -> u8
        ensures { result ≡ nowhere_fault self }
    {
        match self {
            Nowhere::TooLong(_) => 0,
            Nowhere::Unread(_, fault) => fault_number(fault),
            Nowhere::TooMany => 5,
            Nowhere::NoStart => 6,
        }
    }

    /// Its column.
    pub(crate) fn column(self) -> u32
        ensures { result ≡ nowhere_column self }
    {
        match self {
            Nowhere::Unread(_, fault) => fault.column(),
            Nowhere::TooLong(_) | Nowhere::TooMany | Nowhere::NoStart => 0,
        }
    }
}

/// Reads both lines, each by a new reader.
fn read_both<'a>(
    first: &'a mut LineReader,
    second: &'a mut LineReader,
    scramble: &[u8],
    so_far: &[u8],
) -> Result<(&'a Niss, &'a Niss), Nowhere>
    requires first { IsFed first.old [] }
    requires second { IsFed second.old [] }
    ensures moves { IfOk result (λ lines. both_of scramble.now so_far.now ≡ Ok (both lines.0.now lines.1.now)) }
    ensures nowhere { IfErr result (λ why. both_of scramble.now so_far.now ≡ Err why) }
{
    if scramble.len() > MOST_BYTES {
        return Err(Nowhere::TooLong(1));
    }
    if so_far.len() > MOST_BYTES {
        return Err(Nowhere::TooLong(2));
    }
    match (read_by(first, scramble), read_by(second, so_far)) {
        (Ok(scramble), Ok(so_far)) => Ok((scramble, so_far)),
        (Err(fault), _) => Err(Nowhere::Unread(1, fault)),
        (_, Err(fault)) => Err(Nowhere::Unread(2, fault)),
    }
}

/// Where one stands after both lines.
pub(crate) fn start_after(scramble: &[u8], so_far: &[u8]) -> Result<Start, Nowhere>
    ensures { StartsAfter (both_of scramble.now so_far.now) result }
{
    let mut first = LineReader::new();
    let mut second = LineReader::new();
    let (scramble, so_far) = read_both(&mut first, &mut second, scramble, so_far)?;
    match Start::after(scramble, so_far) {
        Some(start) => Ok(start),
        None => Err(Nowhere::TooMany),
    }
}
