//! Memory that is lent for a run: its input, and where it writes to.
ghost use Rattle.std.specs.Prelude.{◌≡◌, ◌⊎◌, ◌≤◌, ◌+◌, ◌-◌, ◌++◌, true, false, take, drop, length};
ghost use Rattle.niss_shell.specs.Device.{is_empty_answer, ReadShows};
ghost use Rattle.niss_embed.specs.Memory.{Fills, lent, shown_input, shown_output};

use niss_shell::{DeviceFault, Source, Target};

/// A source of bytes in memory. No read of it fails.
#[derive(Drop)]
pub struct MemorySource<'a> {
    pub rest: &'a [u8],
    pub ended: bool,
    ghost at_end: { ended ≡ true → length rest.now ≡ 0 },
}

impl<'a> MemorySource<'a> {
    /// The source of these bytes. Nothing is read yet.
    pub fn new(bytes: &'a [u8]) -> MemorySource<'a>
        ensures bytes { result.rest.now ≡ bytes.now }
        ensures goes_on { result.ended ≡ false }
    {
        MemorySource {
            rest: bytes,
            ended: false,
        }
    }
}

impl Source for MemorySource<'_> {
    ghost call = { λ s c t. ReadShows c (shown_input s.rest.now s.ended) (shown_input t.rest.now t.ended) };

    ghost state = { λ s. shown_input s.rest.now s.ended };

    fn read(&mut self, buf: &mut [u8]) -> Result<usize, DeviceFault> {
        let all = self.rest;
        let count = buf.len().min(all.len());
        buf[..count].copy_from_slice(&all[..count]);
        let ended = count == 0 && !buf.is_empty();
        *self = MemorySource {
            rest: &all[count..],
            ended,
        };
        Ok(count)
    }

    fn failed(&self) -> bool {
        false
    }

    fn ended(&self) -> bool {
        self.ended
    }

    ghost shown = { λ old new c did. did };
}

/// Writes the piece from byte number `at` on, or as much of it as there is room for, and returns how many bytes.
pub fn put(bytes: &mut [u8], at: usize, piece: &[u8]) -> usize
    requires { at ≤ length bytes.old }
    ensures bound { result ≤ length piece.now }
    ensures fits { result ≤ length bytes.old - at }
    // It takes the whole piece, or fills the room.
    ensures most { (result ≡ length piece.now) ⊎ (result ≡ length bytes.old - at) }
    ensures written { take (at + result) bytes.new ≡ take at bytes.old ++ take result piece.now }
    ensures left { drop (at + result) bytes.new ≡ drop (at + result) bytes.old }
    ensures same_length { length bytes.new ≡ length bytes.old }
{
    let count = piece.len().min(bytes.len() - at);
    bytes[at..at + count].copy_from_slice(&piece[..count]);
    count
}

/// Whether none was taken of a piece that isn't empty.
fn is_refused(count: usize, piece: &[u8]) -> bool
    ensures { result ≡ is_empty_answer count piece.now }
{
    count == 0 && !piece.is_empty()
}

/// A target in lent memory, which refuses what it has no room for. No flush of it fails.
#[derive(Drop)]
pub struct MemoryTarget<'a> {
    pub bytes: &'a mut [u8],
    pub written: usize,
    pub refused: bool,
    ghost within: { written ≤ length bytes.now },
    ghost full: { refused ≡ true → written ≡ length bytes.now },
}

impl<'a> MemoryTarget<'a> {
    /// The target at the beginning of this memory. Nothing is written yet.
    pub fn new(bytes: &'a mut [u8]) -> MemoryTarget<'a>
        ensures same_reference { result.bytes.ghost_name ≡ bytes.entry.ghost_name }
        ensures unchanged { result.bytes.now ≡ bytes.old }
        ensures empty { result.written ≡ 0 }
        ensures works { result.refused ≡ false }
    {
        MemoryTarget {
            bytes,
            written: 0,
            refused: false,
        }
    }
}

impl Target for MemoryTarget<'_> {
    ghost call = { λ s c t. Fills c (lent s.bytes.now s.bytes.ghost_name s.written s.refused)
        (lent t.bytes.now t.bytes.ghost_name t.written t.refused) };

    ghost state = { λ t. shown_output (lent t.bytes.now t.bytes.ghost_name t.written t.refused) };

    fn write(&mut self, piece: &[u8]) -> Result<usize, DeviceFault> {
        let count = put(self.bytes, self.written, piece);
        self.written += count;
        self.refused = self.refused || is_refused(count, piece);
        Ok(count)
    }

    fn flush(&mut self) -> Result<(), DeviceFault> {
        Ok(())
    }

    fn failed(&self) -> bool {
        self.refused
    }

    ghost shown = { λ old new c did. did.shown };
}
