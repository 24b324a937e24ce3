//! The moves of some lines of a text, as they are written into a room with the place of each byte.
ghost use Rattle.std.specs.Prelude.{◌≡◌, ◌≤◌, IfOk, get_or, length, take};
ghost use Rattle.niss_text.specs.Moves.{most_bytes};
ghost use Rattle.niss_attempts.specs.Doubts.{IsOkIfRoom, AreWritten, no_place};

use niss_text::{MovesOf, TextLine, text_moves};

/// What has no place in the text, or is of none of the known scrambles.
pub(crate) const NONE: usize = usize::MAX;

/// There is no room for some moves.
#[derive(Clone, Copy)]
pub struct NoRoom;

/// The place in the text of a byte of a line, from 0, or `NONE` if it has none.
pub(crate) fn place_at(places: &[u64], byte: usize) -> usize
    ensures { result ≡ get_or places.now byte no_place }
{
    places.get(byte).map_or(NONE, |place| *place as usize)
}

/// Writes the moves of some lines, and the place of each byte, and says how many bytes these are.
pub(crate) fn moves_of(
    text: &[u8],
    lines: &[TextLine],
    of: MovesOf,
    out: &mut [u8],
    places: &mut [u64],
) -> Result<usize, NoRoom>
    ensures are { IfOk result (λ count. AreWritten text.now of lines.now (take count out.new) (take count places.new)) }
    ensures within { IfOk result (λ count. (count ≤ length out.new) × (count ≤ length places.new)) }
    ensures room { IsOkIfRoom (most_bytes lines.now) out.old places.old result }
{
    let written = text_moves(text, lines, of, out, places, &mut []);
    if written.status == 0 {
        Ok(written.length)
    } else {
        Err(NoRoom)
    }
}
