//! The call that does what the program does.
ghost use Rattle.niss_embed.specs.Memory.{memory};
ghost use Rattle.niss_embed.specs.Run.{RunsBytes};

use niss_embed::{Answer, run_bytes};
use std::alloc::Global;

/// Does what the program does with these words and this input, as `run_bytes` of `niss_embed`: its output goes to
/// `out`, its error text to `err`. What is behind the written bytes is left as it was.
#[unsafe(no_mangle)]
pub extern "C" fn nissy_run(
    alloc: Global,
    words: &[u8],
    input: &[u8],
    out: &mut [u8],
    err: &mut [u8],
) -> Answer
    ensures { RunsBytes words.now input.now (memory out.old out.new) (memory err.old err.new) result }
{
    run_bytes(alloc, words, input, out, err)
}
