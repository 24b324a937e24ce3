//! The ranks of a coordinate after the turns of a step.
ghost use Rattle.std.specs.Prelude.{◌≡◌, ◌<◌, length, IfOk};
ghost use Rattle.niss_cube.specs.AfterTurn.{IsMoveRow, rank_after};
ghost use Rattle.niss_cube.specs.Coordinates.{count_of};
ghost use Rattle.niss_cube.specs.Steps.{turns_of};
ghost use Rattle.niss_search.specs.Moves.{turn_at};

use niss_cube::{Axis, Coordinate, OutOfMemory, Step};
use std::alloc::Allocator;
use std::marker::Model;

/// The most turns of a step.
pub const MOST_STEP_TURNS: usize = 18;

/// The ranks after the turns of a step, in turn order.
pub type Row = [u16; MOST_STEP_TURNS];

/// A coordinate on an axis after the turns of a step: a row for each rank, and in it a column for each turn. So a look has
/// neither an axis to ask nor a face to rename.
#[derive(Drop)]
pub struct MoveTable<A: Allocator> {
    coordinate: Coordinate,
    axis: Axis,
    step: Step,
    rows: Vec<Row, A>,
}

impl<A: Allocator> Model for MoveTable<A> {
    ghost use Rattle.niss_cube.specs.AfterTurn.{AreMoveRows};
    ghost use Rattle.niss_cube.specs.Steps.{turns_of};
    ghost use Rattle.niss_search.specs.Moves.{Moves};

    ghost Value = { Moves };

    ghost view = { λ t. record { coordinate = t.coordinate; axis = t.axis; step = t.step } };

    ghost invariant = { λ t. AreMoveRows t.coordinate t.axis (turns_of t.step) t.rows.items };
}

impl<A: Allocator> MoveTable<A> {
    /// The table of a coordinate on an axis, 36 bytes for each of its ranks.
    pub fn build_in(
        alloc: A,
        coordinate: Coordinate,
        axis: Axis,
        step: Step,
    ) -> Result<MoveTable<A>, OutOfMemory>
        ensures { IfOk result (λ t. t ≡ record { coordinate = coordinate; axis = axis; step = step }) }
    {
        let Ok(mut rows) = Vec::from_elem(alloc, [0; MOST_STEP_TURNS], coordinate.count()) else {
            return Err(OutOfMemory);
        };
        coordinate.fill_move_rows(axis, step.turns(), &mut rows);
        Ok(MoveTable {
            coordinate,
            axis,
            step,
            rows,
        })
    }

    /// The axis.
    pub fn axis(&self) -> Axis
        ensures { result ≡ self.now.axis }
    {
        self.axis
    }

    /// The ranks after the turns of the step, in turn order.
    #[inline(always)]
    pub fn row(&self, rank: u16) -> &Row
        requires { rank < count_of self.now.coordinate }
        ensures { IsMoveRow self.now.coordinate self.now.axis (turns_of self.now.step) rank result.now }
    {
        &self.rows[rank as usize]
    }

    /// The rank after the turn of a column.
    #[tactic(auto, using(crate::proofs::Bounds::few_turns))]
    #[inline(always)]
    pub fn after(&self, rank: u16, column: usize) -> u16
        requires in_range { rank < count_of self.now.coordinate }
        requires of_step { column < length (turns_of self.now.step) }
        ensures value { result
            ≡ rank_after self.now.coordinate self.now.axis rank (turn_at self.now.step column) }
        ensures below { result < count_of self.now.coordinate }
    {
        self.row(rank)[column]
    }
}
