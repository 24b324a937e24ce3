//! How a piece is written whole.
ghost use Rattle.std.specs.Prelude.{[], is_err};
ghost use Rattle.niss_shell.specs.Device.{Writes};

use crate::device::{DeviceFault, Target};

/// Writes the whole piece, or as much of it as the target takes before a write fails.
pub fn write_all<W: Target>(out: &mut W, piece: &[u8]) -> Result<(), DeviceFault>
    ensures { Writes W.call (is_err result) piece.now [] out.old out.new }
{
    let mut rest = piece;
    while !rest.is_empty() {
        let count = out.write(rest)?;
        if count == 0 {
            return Err(DeviceFault);
        }
        rest = &rest[count..];
    }
    Ok(())
}
