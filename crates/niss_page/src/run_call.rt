//! The call that does what the program does.
ghost use Rattle.std.specs.Prelude.{◌≡◌, ◌⊎◌};
ghost use Rattle.niss_embed.specs.Memory.{memory};
ghost use Rattle.niss_embed.specs.Run.{RunsBytes};

use crate::arena::arena_of;
use crate::one_block::OneBlock;
use crate::room::Room;
use niss_embed::{Answer, run_bytes};
use std::mem::replace;

/// Does what the program does with these words and this input, as `run_bytes` of `niss_embed`: its output goes to
/// `out`, its error text to `err`. The words and the tables of a step take memory of the room.
#[unsafe(no_mangle)]
pub extern "C" fn nissy_run(
    room: &mut Room,
    words: &[u8],
    input: &[u8],
    out: &mut [u8],
    err: &mut [u8],
) -> Answer
    ensures runs { RunsBytes words.now input.now (memory out.old out.new) (memory err.old err.new) result }
    // It has all its memory again, or none if some stays taken.
    ensures room { (room.new.size ≡ room.old.size) ⊎ (room.new.size ≡ 0) }
{
    let block = OneBlock::new(replace(room, Room::none()));
    let arena = arena_of(&block);
    let answer = run_bytes(&arena, words, input, out, err);
    drop(arena);
    *room = block.into_room();
    answer
}
