//! An allocator that has one block.
ghost use Rattle.std.specs.Prelude.{◌≡◌, ◌⊎◌, ◌<◌, ◌≤◌, IfSome};
ghost use Rattle.niss_page.specs.Room.{block_token};

use crate::room::{Block, Room};
use std::alloc::{AllocError, Allocator};
use std::cell::Cell;

/// The allocator that gives a room as one block, to one owner at a time.
#[derive(Drop)]
pub struct OneBlock {
    room: Cell<Option<Room>>,
    size: usize,
}

impl OneBlock {
    /// The allocator of this room.
    pub fn new(room: Room) -> OneBlock
        ensures { result.size ≡ room.size }
    {
        let size = room.size;
        OneBlock {
            room: Cell::new(Some(room)),
            size,
        }
    }

    /// How many bytes the room has.
    pub fn size(&self) -> usize
        ensures { result ≡ self.now.size }
    {
        self.size
    }

    /// The room again, or none if its block is out.
    pub fn into_room(self) -> Room
        ensures { (result.size ≡ self.size) ⊎ (result.size ≡ 0) }
    {
        match self.room.into_inner() {
            Some(room) if room.size == self.size => room,
            _ => Room::none(),
        }
    }

    /// Takes the block if it is there and has room for so many bytes.
    fn take(&self, size: usize) -> Option<Block>
        ensures { IfSome result (λ block. (block.size ≡ self.now.size) × (size ≤ block.size) × (0 < block.size)) }
    {
        // no clause says which room the cell holds
        match self.room.replace(None)?.into_block(self.size, size) {
            Ok(block) => Some(block),
            Err(room) => {
                self.room.set(Some(room));
                None
            }
        }
    }

    /// Takes the block back.
    fn give(&self, block: Block)
        requires { block.size ≡ self.now.size }
    {
        let size = self.size;
        self.room.set(Some(Room { block, size }));
    }
}

unsafe impl Allocator for OneBlock {
    ghost dealloc_token = { λ heap ty ptr. block_token heap.size ty ptr };

    fn allocate(&self, size: usize, _align: usize) -> Result<*mut u8, AllocError> {
        match self.take(size) {
            Some(Block { ptr }) => Ok(ptr),
            None => Err(AllocError),
        }
    }

    unsafe fn deallocate(&self, ptr: *mut u8, _size: usize, _align: usize) {
        self.give(Block { ptr });
    }
}
