//! A text as solvers write it as one line.
ghost use Rattle.std.specs.Prelude.{◌≡◌, ◌≤◌, ◌*◌, ◌⊎◌, true, length, take, drop};
ghost use Rattle.niss_text.specs.Plain.{IsPlain};
ghost use Rattle.niss_text.specs.LeftOut.{bits_of};
ghost use Rattle.niss_text.specs.Moves.{refusal};

use crate::left_out::LeftOut;
use crate::pen::{Beginning, Pen};
use crate::piece::Place;
use crate::status::Status;

/// What `plain_line` and `text_moves` return.
#[repr(C)]
#[derive(Clone, Copy, Debug, PartialEq, Eq)]
pub struct PlainAnswer {
    /// The number of a `Status`.
    pub status: u8,
    /// What the line hasn't, as bits: labels, numbers of moves, comments, line numbers, commas, signs that aren't seen.
    pub left_out: u8,
    /// How many bytes are written.
    pub length: usize,
}

impl PlainAnswer {
    /// What is returned of what is written.
    pub fn written(pen: Pen, left_out: LeftOut) -> PlainAnswer
        ensures done { pen.has_room ≡ true → result.status ≡ 0 }
        ensures room { result.status ≡ 0 → pen.has_room ≡ true }
        ensures known { (result.status ≡ 0) ⊎ (result.status ≡ 4) }
        ensures left { result.left_out ≡ bits_of left_out }
        ensures length { result.length ≡ pen.length }
    {
        let status = if pen.has_room {
            Status::Done
        } else {
            Status::NoRoom
        };
        PlainAnswer {
            status: status.number(),
            left_out: left_out.bits(),
            length: pen.length,
        }
    }

    /// What is returned if a caller's number is that of no moves: `Usage`, and nothing is written.
    pub fn refusal() -> PlainAnswer
        ensures { result ≡ refusal }
    {
        PlainAnswer {
            status: Status::Usage.number(),
            left_out: 0,
            length: 0,
        }
    }
}

/// Writes a text as one line: without labels, comments, and numbers of lines and moves. Each byte that is written has
/// its place in the text. Three bytes for each of the text are room enough; else the answer may say `NoRoom`. What follows
/// the line in both rooms stays as it is.
pub fn plain_line(text: &[u8], out: &mut [u8], places: &mut [u64]) -> PlainAnswer
    ensures reads { result.status ≡ 0 → IsPlain text.now (take result.length out.new) (take result.length places.new) result.left_out }
    ensures room { 3 * length text.now ≤ length out.old → 3 * length text.now ≤ length places.old → result.status ≡ 0 }
    ensures known { (result.status ≡ 0) ⊎ (result.status ≡ 4) }
    ensures within { (result.length ≤ length out.old) × (result.length ≤ length places.old) }
    ensures behind { drop result.length out.new ≡ drop result.length out.old }
    ensures behind_places { drop result.length places.new ≡ drop result.length places.old }
{
    let begin = Beginning {
        at: 0,
        place: Place::Begin,
    };
    let (pen, left_out) = Pen::new().put_part(text, begin, out, places);
    PlainAnswer::written(pen, left_out)
}
