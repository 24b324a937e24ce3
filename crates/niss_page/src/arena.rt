//! The arena over lent memory, in which words and tables stand.
ghost use Rattle.std.specs.Prelude.{◌≡◌, IfSome};

use crate::one_block::OneBlock;
use crate::room::Room;
use bumpalo::Bump;
use niss_cube::Step;
use niss_search::{Meter, Tables};
use std::mem::ManuallyDrop;
use std::ops::Deref;

/// What an arena takes at most beside the bytes that it is asked for: it adds its footer, and goes up to whole pages.
const BESIDE: usize = 4160;

/// An arena over lent memory: it splits the one block, and its proofs are the kit's. That of a run is one too, so that the
/// module has one search for both.
pub(crate) type Arena = Bump<&'static OneBlock>;

/// Tables in an arena that stays.
pub(crate) type LentTables = Tables<&'static Arena>;

/// How many bytes an arena can be asked for that is to have all of this block.
fn capacity_of(block: &OneBlock) -> usize {
    block.size().saturating_sub(BESIDE)
}

/// An arena that has the block already, if that isn't too small.
pub(crate) fn arena_of(block: &OneBlock) -> Bump<&OneBlock> {
    match Bump::try_with_capacity(block, capacity_of(block)) {
        Ok(arena) => arena,
        Err(_) => Bump::new(block),
    }
}

/// The block of a room, and the arena over it.
#[derive(Drop)]
struct Lent {
    block: OneBlock,
    arena: Option<Arena>,
}

/// An arena in the large room that stays in the small one.
pub(crate) fn arena_in(small: Room, large: Room) -> Option<&'static Arena> {
    let lent = Lent {
        block: OneBlock::new(large),
        arena: None,
    };
    let Ok(lent) = Box::new(OneBlock::new(small), lent) else {
        return None;
    };
    let Lent { block, arena } = Box::leak(lent);
    arena_over(block, arena)
}

/// An arena over a block, which is put there.
fn arena_over(
    block: &'static OneBlock,
    place: &'static mut Option<Arena>,
) -> Option<&'static Arena> {
    let Ok(arena) = Bump::try_with_capacity(block, capacity_of(block)) else {
        return None;
    };
    *place = Some(arena);
    place.as_ref()
}

/// Tables that stay in an arena, which gives nothing back: so they aren't dropped if they get no place.
pub(crate) fn tables_in(arena: &'static Arena, step: Step) -> Option<&'static LentTables>
    ensures { IfSome result (λ tables. tables.now ≡ step) }
{
    let Ok(tables) = Tables::build_in(arena, step, &mut Meter::new()) else {
        return None;
    };
    match Box::new(arena, unsafe { ManuallyDrop::new_unchecked(tables) }) {
        Ok(place) => {
            let kept: &'static ManuallyDrop<LentTables> = Box::leak(place);
            Some(kept.deref())
        }
        Err(_) => None,
    }
}
