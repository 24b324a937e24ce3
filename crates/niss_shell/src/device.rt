//! What a run reads from and writes to.
ghost use Rattle.std.specs.Prelude.{◌≡◌, ◌≤◌, false, length, IfOk};
ghost use Rattle.niss_shell.specs.Device.{SourceState, TargetState, SourceCall, TargetCall, Write, Flush, read_call, ReadShows};
ghost use Rattle.niss_shell.specs.Device.{CallShows};

/// A read, a write or a flush failed. It carries nothing.
#[derive(Clone, Copy, Debug, PartialEq, Eq)]
pub struct DeviceFault;

/// Something that bytes are read from.
pub trait Source {
    // what a read does: the source before it, the read with what it returned, and the source after it
    ghost call: { Self → SourceCall → Self → Type 0 };

    ghost state: { Self → SourceState };

    /// Reads the next bytes into the beginning of `buf`, and returns how many. `Ok(0)` for a buffer that isn't empty is
    /// the end. Nothing is read after a failure or the end.
    fn read(&mut self, buf: &mut [u8]) -> Result<usize, DeviceFault>
        requires works { (state self.old).has_failed ≡ false }
        requires goes_on { (state self.old).has_ended ≡ false }
        ensures bound { IfOk result (λ count. count ≤ length buf.new) }
        ensures made { call self.old (read_call result buf.new) self.new };

    /// Whether a read failed. A run never asks: it is for a caller that keeps the source, and looks at it after the run.
    fn failed(&self) -> bool
        ensures failed { result ≡ (state self.now).has_failed };

    /// Whether a read found the end, for such a caller.
    fn ended(&self) -> bool
        ensures ended { result ≡ (state self.now).has_ended };

    ghost shown: { (old new : Self) (c : SourceCall) → call old c new → ReadShows c (state old) (state new) };
}

/// Something that bytes are written to.
pub trait Target {
    // what a write or a flush does: the target before it, the call with what it returned, and the target after it
    ghost call: { Self → TargetCall → Self → Type 0 };

    ghost state: { Self → TargetState };

    /// Takes some first bytes of the piece, and returns how many. To take none of a piece that isn't empty is a failure,
    /// as an `Err` is.
    fn write(&mut self, piece: &[u8]) -> Result<usize, DeviceFault>
        ensures bound { IfOk result (λ count. count ≤ length piece.now) }
        ensures made { call self.old (Write piece.now result) self.new };

    /// Passes on what was taken.
    fn flush(&mut self) -> Result<(), DeviceFault>
        ensures made { call self.old (Flush result) self.new };

    /// Whether a write or a flush failed. A run never asks: it is for a caller that keeps the target.
    fn failed(&self) -> bool
        ensures failed { result ≡ (state self.now).has_failed };

    ghost shown: { (old new : Self) (c : TargetCall) → call old c new → CallShows c (state old) (state new) };
}
