//! A letter that stands by itself at an end of the moves of a step: it may be of words, as in `R U F` for a finish.
ghost use Rattle.std.specs.Prelude.{◌≡◌, None, false};
ghost use Rattle.niss_moves.specs.declared.turn.Turn.{Turn};
ghost use Rattle.niss_attempts.specs.BareLetter.{bare_first, bare_first_of, bare_last, bare_last_of, if_counter, is_bare_first, is_bare_last, letter_between, letter_if};

use crate::doubts::shown_turn::{is_blank, last_of_moves};
use crate::doubts::turn_words::{byte_at, letter};
use niss_moves::{Face, Power, Turn};
use niss_text::TextLine;

/// Whether the last byte of the moves of a line stands by itself.
fn is_bare_last(text: &[u8], line: &TextLine, at: usize) -> bool
    ensures { result ≡ is_bare_last text.now line.now at }
{
    at == line.moves || is_blank(byte_at(text, at.saturating_sub(1)))
}

/// Where the last byte of the moves of a line stands, if it stands by itself.
fn bare_last(text: &[u8], line: &TextLine) -> Option<usize>
    ensures { result ≡ bare_last text.now line.now }
{
    match last_of_moves(text, line) {
        Some(at) if is_bare_last(text, line, at) => Some(at),
        _ => None,
    }
}

/// Whether a line has moves, of which the first byte stands by itself.
fn is_bare_first(text: &[u8], line: &TextLine) -> bool
    ensures { result ≡ is_bare_first text.now line.now }
{
    line.moves < line.comment
        && (line.comment - line.moves == 1 || is_blank(byte_at(text, line.moves + 1)))
}

/// Where the moves of a line begin, if their first byte stands by itself.
fn bare_first(text: &[u8], line: &TextLine) -> Option<usize>
    ensures { result ≡ bare_first text.now line.now }
{
    if is_bare_first(text, line) {
        Some(line.moves)
    } else {
        None
    }
}

/// The same of a step, if there is one.
fn bare_last_of(text: &[u8], step: &Option<TextLine>) -> Option<usize>
    ensures { result ≡ bare_last_of text.now step.now }
{
    step.as_ref().and_then(|line| bare_last(text, line))
}

/// Where its moves begin, if it has some that begin so.
fn bare_first_of(text: &[u8], step: &Option<TextLine>) -> Option<usize>
    ensures { result ≡ bare_first_of text.now step.now }
{
    step.as_ref().and_then(|line| bare_first(text, line))
}

/// A place at which the capital letter of a face stands.
fn letter_if(text: &[u8], face: Face, place: Option<usize>) -> Option<usize>
    ensures { result ≡ letter_if text.now face place }
{
    match place {
        Some(at) if byte_at(text, at) == letter(face) => Some(at),
        _ => None,
    }
}

/// What is there, of a turn counterclockwise.
fn if_counter(power: Power, place: Option<usize>) -> Option<usize>
    ensures { result ≡ if_counter power place }
{
    match power {
        Power::Counter => place,
        _ => None,
    }
}

/// Where a letter stands by itself that a turn between two steps takes back: at the end of the first one, or at the begin of
/// the second.
pub fn letter_between(
    text: &[u8],
    above: &Option<TextLine>,
    below: &Option<TextLine>,
    turn: Turn,
) -> Option<usize>
    ensures { result ≡ letter_between text.now above.now below.now turn }
{
    let last = letter_if(text, turn.face, bare_last_of(text, above));
    let first = letter_if(text, turn.face, bare_first_of(text, below));
    if_counter(turn.power, last.or(first))
}

/// Whether some letter may stand so.
pub fn may_stand(text: &[u8], above: &Option<TextLine>, below: &Option<TextLine>) -> bool
    ensures { result ≡ false → (turn : Turn) → letter_between text.now above.now below.now turn ≡ None }
{
    bare_last_of(text, above).is_some() || bare_first_of(text, below).is_some()
}
