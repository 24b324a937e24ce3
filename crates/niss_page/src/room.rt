//! The memory that a host lends for a call.
ghost use Rattle.std.specs.Prelude.{◌≡◌, ◌<◌, ◌≤◌, ℕ, IsOk, IfOk, IfErr};
ghost use Rattle.niss_page.specs.Room.{IsRoomSize, block_owns};

use std::marker::Model;
use std::ptr::null_mut;

/// The bytes of a room, in which nothing lies.
#[repr(C)]
#[derive(Drop)]
pub struct Block {
    pub(crate) ptr: *mut u8,
    pub ghost size: { ℕ },
    pub ghost fits: { IsRoomSize size },
}

impl Model for Block {
    ghost also_owns = { λ block. block_owns block.ptr block.size };
}

impl Block {
    /// No bytes.
    pub(crate) fn none() -> Block
        ensures { result.size ≡ 0 }
    {
        Block { ptr: null_mut() }
    }
}

/// Memory for the tables of a call: where it is and how many bytes it has, both multiples of 16. The host lends it
/// until the call has returned, and uses it for nothing else. It owns its memory, since a proof may give borrowed
/// memory to an allocator only if every block comes back, which the contract of a run doesn't say.
#[repr(C)]
#[derive(Drop)]
pub struct Room {
    pub block: Block,
    pub size: usize,
    pub ghost agrees: { block.size ≡ size },
}

impl Room {
    /// No memory.
    pub fn none() -> Room
        ensures { result.size ≡ 0 }
    {
        Room {
            block: Block::none(),
            size: 0,
        }
    }

    /// Its block, if it has so many bytes in all, and room for those that are asked for; else the room as it was.
    pub(crate) fn into_block(self, all: usize, asked: usize) -> Result<Block, Room>
        ensures block { IfOk result (λ block. (block.size ≡ all) × (asked ≤ block.size) × (0 < block.size)) }
        // What is there is given, to the last byte.
        ensures given { self.size ≡ all → asked ≤ all → 0 < all → IsOk result }
        ensures kept { IfErr result (λ room. room ≡ self) }
    {
        if self.size == all && asked <= all && all > 0 {
            Ok(self.block)
        } else {
            Err(self)
        }
    }
}
