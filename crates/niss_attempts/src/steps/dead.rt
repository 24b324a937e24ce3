//! Steps of an attempt that can't be read in any line of its steps, and whether a step ends where the next one may begin.
ghost use Rattle.std.specs.Prelude.{◌≡◌, ◌<◌, ◌≤◌, ◌+◌, ℕ, List, ◌++◌, length, map, true};
ghost use Rattle.niss_moves.specs.Reader.{IsFed};
ghost use Rattle.niss_attempts.specs.DeadSteps.{AreParted, EndsWhole, IsDead, IsShut, IsStopped, StandsNowhere, after_byte, after_bytes, after_closing, after_opening};
ghost use Rattle.niss_attempts.specs.Parts.{read_byte, most_step_bytes};

use crate::steps::reading::Reading;
use crate::stretch::stretch;
use niss_moves::LineReader;

/// Has a reader read some steps up to their first fault, and says whether they have one before their end.
#[inline(never)]
fn stops(reader: &mut LineReader, steps: &[u8], reading: Reading) -> bool
    requires { reader.old.fed + length steps.now ≤ 16777216 }
    ensures { (front : List ℕ) → IsFed reader.old front → result ≡ true → IsStopped (front ++ map (read_byte reading) steps.now) }
{
    for byte in steps {
        match reader.feed(reading.read(*byte)) {
            Ok(()) => {}
            Err(_) => return true,
        }
    }
    false
}

/// Whether a step can't be read after whole moves, neither outside brackets nor in one.
#[inline(never)]
fn is_dead(step: &[u8], reading: Reading) -> bool
    requires room { length step.now ≤ most_step_bytes }
    ensures { result ≡ true → IsDead (map (read_byte reading) step.now) }
{
    let mut reader = LineReader::new();
    if !stops(&mut reader, step, reading) {
        return false;
    }
    reader.clear();
    // a bracket is taken there
    let _ = reader.feed(b'(');
    stops(&mut reader, step, reading)
}

/// Where a byte of a line stands.
#[derive(Clone, Copy, PartialEq, Eq)]
pub enum Depth {
    /// Outside brackets.
    Out,
    /// In one.
    In,
    /// After one that stands wrong.
    Wrong,
}

impl Depth {
    /// Where the byte after a bracket that opens stands.
    fn after_opening(self) -> Depth
        ensures { result ≡ after_opening self }
    {
        match self {
            Depth::Out => Depth::In,
            Depth::In | Depth::Wrong => Depth::Wrong,
        }
    }

    /// Where the byte after a bracket that closes stands.
    fn after_closing(self) -> Depth
        ensures { result ≡ after_closing self }
    {
        match self {
            Depth::In => Depth::Out,
            Depth::Out | Depth::Wrong => Depth::Wrong,
        }
    }

    /// Where the byte after another one stands.
    fn after_byte(self, byte: u8) -> Depth
        ensures { result ≡ after_byte self byte }
    {
        match byte {
            b'(' => self.after_opening(),
            b')' => self.after_closing(),
            _ => self,
        }
    }

    /// Where the byte after some steps stands.
    fn after(self, steps: &[u8], reading: Reading) -> Depth
        ensures { result ≡ after_bytes self (map (read_byte reading) steps.now) }
    {
        let mut depth = self;
        for byte in steps {
            depth = depth.after_byte(reading.read(*byte));
        }
        depth
    }
}

/// Whether a step closes a bracket that none opened, and if it stands in one, leaves none open.
fn is_shut(step: &[u8], reading: Reading) -> bool
    ensures { result ≡ true → IsShut (map (read_byte reading) step.now) }
{
    matches!(
        (
            Depth::Out.after(step, reading),
            Depth::In.after(step, reading),
        ),
        (Depth::Wrong, Depth::Out | Depth::Wrong)
    )
}

/// Whether no line of steps in which a step stands can be read. It is asked of one that is no line.
pub fn stands_nowhere(step: &[u8], reading: Reading) -> bool
    requires room { length step.now ≤ most_step_bytes }
    ensures { result ≡ true → StandsNowhere (map (read_byte reading) step.now) }
{
    is_dead(step, reading) || is_shut(step, reading)
}

/// Whether no move goes on after a step: it ends in a line feed, or is empty.
fn ends_whole(step: &[u8]) -> bool
    ensures { result ≡ true → EndsWhole step.now }
{
    match step.split_last() {
        Some((last, _)) => *last == b'\n',
        None => true,
    }
}

/// Whether no move goes on from a step to the next one. So it is if a line feed ends each.
pub fn are_parted(text: &[u8], bounds: &[usize]) -> bool
    requires some { 0 < length bounds.now }
    ensures { result ≡ true → AreParted text.now bounds.now }
{
    for at in 2..bounds.len() {
        if !ends_whole(stretch(text, bounds[at - 2], bounds[at - 1])) {
            return false;
        }
    }
    true
}
