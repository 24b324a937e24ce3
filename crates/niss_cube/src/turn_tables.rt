//! Tables of the coordinates after a turn.
ghost use Rattle.std.specs.Prelude.{◌≡◌, ◌<◌, IfOk};
ghost use Rattle.niss_moves.specs.Canonical.{turn_order};
ghost use Rattle.niss_cube.specs.Coordinates.{count_of, standard_axis};
ghost use Rattle.niss_cube.specs.AfterTurn.{AreMoveRows, IsRankAfter, turn_number};
ghost use Rattle.niss_cube.specs.declared.cube.coordinate.Coordinate as kinds;
ghost use Rattle.niss_cube.specs.declared.cube.coordinate.Coordinate.TheVariants.{Flip, Twist, Slice};

use crate::cube::coordinate::Coordinate;
use crate::out_of_memory::OutOfMemory;
use niss_moves::{Axis, Turn, turn_order};
use std::alloc::{Allocator, Global};
use std::marker::Model;

/// The place of a turn among the 18, in turn order.
#[inline(always)]
fn turn_number(turn: Turn) -> usize
    ensures { result ≡ turn_number turn }
{
    3 * turn.face as usize + turn.power as usize
}

/// The ranks of a coordinate after a turn. The rank of a turned cube follows from its rank before the turn alone, so there
/// is a row for each rank, and one table serves the three axes.
#[derive(Drop)]
pub struct TurnTable<A: Allocator = Global> {
    coordinate: Coordinate,
    // of each rank the ranks after the 18 turns, on the standard axis
    rows: Vec<[u16; 18], A>,
}

impl<A: Allocator> Model for TurnTable<A> {
    ghost Value = { kinds.Coordinate };

    ghost view = { λ t. t.coordinate };

    ghost invariant = { λ t. AreMoveRows t.coordinate (standard_axis t.coordinate) turn_order t.rows.items };
}

impl<A: Allocator> TurnTable<A> {
    /// Builds the table of a coordinate, 36 bytes for each of its ranks. If the allocator refuses memory nothing is kept.
    pub fn build_in(alloc: A, coordinate: Coordinate) -> Result<TurnTable<A>, OutOfMemory>
        ensures { IfOk result (λ table. table ≡ coordinate) }
    {
        let Ok(mut rows) = Vec::from_elem(alloc, [0; 18], coordinate.count()) else {
            return Err(OutOfMemory);
        };
        coordinate.fill_move_rows(coordinate.standard_axis(), turn_order(), &mut rows);
        Ok(TurnTable { coordinate, rows })
    }

    /// The rank on an axis after a turn of any cube that has this rank before it; both are below the coordinate's `count`.
    #[inline(always)]
    pub fn next(&self, axis: Axis, rank: u16, turn: Turn) -> u16
        requires { rank < count_of self.now }
        ensures { IsRankAfter self.now axis rank turn result }
    {
        let standard = self.coordinate.standard_turn(axis, turn);
        self.rows[rank as usize][turn_number(standard)]
    }
}

/// The tables of the three coordinates.
#[derive(Drop)]
pub struct TurnTables<A: Allocator = Global> {
    flips: TurnTable<A>,
    twists: TurnTable<A>,
    slices: TurnTable<A>,
    ghost are_flips: { flips ≡ Flip },
    ghost are_twists: { twists ≡ Twist },
    ghost are_slices: { slices ≡ Slice },
}

impl TurnTables {
    /// Builds the tables, of 170,280 bytes in all. If the allocator refuses one of the three it returns `OutOfMemory`, and
    /// what was taken before is given back.
    pub fn build(alloc: Global) -> Result<TurnTables, OutOfMemory> {
        TurnTables::build_in(alloc)
    }
}

impl<A: Allocator> TurnTables<A> {
    /// `build` over any allocator, for a caller that has a heap of its own, or that refuses growths.
    pub fn build_in(alloc: A) -> Result<TurnTables<A>, OutOfMemory>
    where
        A: Copy,
    {
        Ok(TurnTables {
            flips: TurnTable::build_in(alloc, Coordinate::Flip)?,
            twists: TurnTable::build_in(alloc, Coordinate::Twist)?,
            slices: TurnTable::build_in(alloc, Coordinate::Slice)?,
        })
    }

    /// The rank of the flips on an axis, below 2048, after a turn of any cube that has this rank before it.
    #[inline(always)]
    pub fn next_flip(&self, axis: Axis, rank: u16, turn: Turn) -> u16
        requires { rank < 2048 }
        ensures { IsRankAfter Flip axis rank turn result }
    {
        self.flips.next(axis, rank, turn)
    }

    /// The rank of the twists on an axis, below 2187, after a turn of any cube that has this rank before it.
    #[inline(always)]
    pub fn next_twist(&self, axis: Axis, rank: u16, turn: Turn) -> u16
        requires { rank < 2187 }
        ensures { IsRankAfter Twist axis rank turn result }
    {
        self.twists.next(axis, rank, turn)
    }

    /// The rank of the slice on an axis, below 495, after a turn of any cube that has this rank before it.
    #[inline(always)]
    pub fn next_slice(&self, axis: Axis, rank: u16, turn: Turn) -> u16
        requires { rank < 495 }
        ensures { IsRankAfter Slice axis rank turn result }
    {
        self.slices.next(axis, rank, turn)
    }
}
