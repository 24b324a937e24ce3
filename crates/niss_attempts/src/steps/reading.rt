//! How the bytes of steps are read, as they are written or otherwise, and whether all steps solve so.
ghost use Rattle.std.specs.Prelude.{◌≡◌, ◌≤◌, ◌+◌, ◌==◌, ◌++◌, ℕ, List, Ok, None, length, map, not};
ghost use Rattle.std.specs.List.{list_any};
ghost use Rattle.niss_moves.specs.Reader.{IsFed, read_line};
ghost use Rattle.niss_attempts.specs.Between.{AreWhole};
ghost use Rattle.niss_attempts.specs.Parts.{IsFirst, number_of_steps, read_byte, solves_all, solves_line, solves_part, most_step_bytes};
ghost use Rattle.niss_attempts.specs.declared.steps.reading.Reading.TheVariants.{AsWritten};

use crate::steps::WholeSteps;
use crate::stretch::stretch;
use niss_lines::is_small_letter;
use niss_moves::laws::{line_is_read, one_reading};
use niss_moves::{LineReader, Niss};
use niss_shell::{move_count, solves};

/// How steps are read. A line feed is a blank.
#[derive(Clone, Copy, PartialEq, Eq)]
pub enum Reading {
    AsWritten,
    /// Their brackets are blanks.
    WithoutBrackets,
    /// The small letters of their turns are capitals.
    InCapitals,
}

impl Reading {
    /// What a byte of steps is read as.
    pub fn read(self, byte: u8) -> u8
        ensures { result ≡ read_byte self byte }
    {
        match byte {
            b'\n' => b' ',
            b'(' | b')' if self == Reading::WithoutBrackets => b' ',
            _ if self == Reading::InCapitals && is_small_letter(byte) => byte - 32,
            _ => byte,
        }
    }

    /// Whether one of some bytes is read otherwise than it is written.
    fn changes(self, bytes: &[u8]) -> bool
        ensures { result ≡ list_any (λ byte. not (read_byte self byte == read_byte AsWritten byte)) bytes.now }
    {
        bytes
            .iter()
            .any(|byte| self.read(*byte) != Reading::AsWritten.read(*byte))
    }
}

/// Has a reader read some steps.
#[inline(never)]
pub fn feed(reader: &mut LineReader, steps: &[u8], reading: Reading)
    requires { reader.old.fed + length steps.now ≤ 16777216 }
    ensures fed { reader.new.fed ≡ reader.old.fed + length steps.now }
    ensures bytes { (front : List ℕ) → IsFed reader.old front → IsFed reader.new (front ++ map (read_byte reading) steps.now) }
{
    for byte in steps {
        // a fault comes again at the line's end
        let _ = reader.feed(reading.read(*byte));
    }
}

/// Whether the line that was read has moves, and solves a scramble.
#[inline(never)]
pub fn solves_so(scramble: &Niss, reader: &mut LineReader) -> bool
    ensures { (line : List ℕ) → IsFed reader.old line → result ≡ solves_line (Ok scramble.now) (read_line line) }
{
    match reader.end() {
        Ok(()) => solves(scramble, reader.moves()) && move_count(reader.moves()) > 0,
        Err(_) => false,
    }
}

/// Whether some steps, if they are read so, solve a scramble.
fn solves_read(scramble: &Niss, steps: &[u8], reading: Reading) -> bool
    requires room { length steps.now ≤ most_step_bytes }
    ensures { result ≡ solves_line (Ok scramble.now) (read_line (map (read_byte reading) steps.now)) }
{
    let mut reader = LineReader::new();
    feed(&mut reader, steps, reading);
    solves_so(scramble, &mut reader)
}

/// Whether all steps solve the scramble if they are read otherwise than they are written. No part of them does as they
/// are, and they are read only if that changes one of their bytes.
pub fn solves_otherwise(whole: &WholeSteps, reading: Reading) -> bool
    requires whole { AreWhole whole.now }
    requires not { IsFirst (number_of_steps whole.now.bounds.now) (solves_part (Ok whole.now.scramble.now) whole.now.steps.now whole.now.bounds.now) None }
    ensures { result ≡ solves_all reading (Ok whole.now.scramble.now) whole.now.steps.now whole.now.bounds.now }
{
    line_is_read();
    one_reading();
    let all = stretch(whole.steps, 0, whole.bounds[whole.bounds.len() - 1]);
    reading.changes(all) && solves_read(whole.scramble, all, reading)
}
