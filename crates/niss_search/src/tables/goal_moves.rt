//! How the turns of a step move the coordinates of one of its goals.
ghost use Rattle.std.specs.Prelude.{◌≡◌, ◌+◌, ◌*◌, ◌<◌, ◌≤◌, length, IfOk};
ghost use Rattle.niss_moves.specs.Effects.{turned};
ghost use Rattle.niss_cube.specs.declared.cube.Cube.{Cube as Cubes};
ghost use Rattle.niss_cube.specs.Inverses.{IsTakenBack};
ghost use Rattle.niss_cube.specs.Map.{map_of};
ghost use Rattle.niss_cube.specs.Steps.{turns_of};
ghost use Rattle.niss_search.specs.Names.{Edges, Domino, GoalCoordinates, Flip, TwistAndSlice};
ghost use Rattle.niss_search.specs.Entries.{count_for};
ghost use Rattle.niss_search.specs.Filling.{Alternative, IsEntry, AreStarts, ArePlaces, row_length, entry_number};
ghost use Rattle.niss_search.specs.Moves.{turn_at};
ghost use Rattle.niss_search.specs.Positions.{coordinates_of, coordinates_after};
ghost use Rattle.niss_cube.specs.declared.cube.coordinate.Coordinate.TheVariants as coordinate;

use super::move_table::{MOST_STEP_TURNS, MoveTable, Row};
use super::position::GoalCoordinates;
use niss_cube::{Axis, Coordinate, Cube, OutOfMemory, Step, Turn};
use std::alloc::Allocator;

/// All turns: what a step may make that orients edges.
const EDGE_TURNS: usize = 18;

/// The turns that keep edges oriented: what a step may make that reduces to a domino.
const DOMINO_TURNS: usize = 14;

/// Where the rows of a pruning table begin after the turns of a step, in turn order.
pub type Starts = [usize; MOST_STEP_TURNS];

/// The number of the entry of a twist and a slice.
#[inline(always)]
fn pair_number(twist: u16, slice: u16) -> usize
    ensures { result ≡ twist * 495 + slice }
{
    twist as usize * Coordinate::Slice.count() + slice as usize
}

/// The coordinates of a goal of a step, as ranks without their axis, and where the step's turns lead them. The entries of
/// its pruning table stand in rows, so that after a turn those of one row stand in one row again.
pub trait GoalMoves {
    /// The ranks.
    type State: Copy;

    /// The step and the goal.
    ghost alternative: { Self → Alternative };

    /// What is seen of a cube in a state: the coordinates of the goal.
    ghost seen: { Self → Self.State → GoalCoordinates };

    /// How many turns the step has. The compiler knows the number, and so a fill has no loop over them.
    fn turn_count(&self) -> usize
        ensures value { result ≡ length (turns_of (alternative self.now).step) }
        ensures few { result ≤ 18 };

    /// How many entries the pruning table has.
    fn entry_count(&self) -> usize
        ensures { result ≡ count_for (alternative self.now).goal };

    /// How many entries stand in a row of the table.
    fn row_length(&self) -> usize
        ensures { result ≡ row_length (alternative self.now).goal };

    /// Where the rows begin to which the turns lead those of a row.
    fn starts(&self, row: usize) -> Starts
        requires { row * row_length (alternative self.now).goal < count_for (alternative self.now).goal }
        ensures { AreStarts (alternative self.now) (row * row_length (alternative self.now).goal) result };

    /// The places in their rows to which the turns lead a place.
    fn places(&self, place: usize) -> &Row
        requires { place < row_length (alternative self.now).goal }
        ensures { ArePlaces (alternative self.now) place result.now };

    /// The state of coordinates that the goal looks at.
    fn state(&self, coordinates: GoalCoordinates) -> Self::State
        requires { IsEntry (alternative self.now).goal coordinates }
        ensures { seen self.now result ≡ coordinates };

    /// The state of the inverse of a cube after a turn.
    fn inverse_after(&self, cube: &Cube, turn: Turn) -> Self::State
        ensures { (d : Cubes) → IsTakenBack (λ q. turned turn (map_of cube.now q)) d
            → seen self.now result ≡ coordinates_of (alternative self.now).goal (map_of d) };

    /// The coordinates of a state.
    fn coordinates_of(&self, state: Self::State) -> GoalCoordinates
        ensures { result ≡ seen self.now state };

    /// The number of its entry in the pruning table.
    fn entry(&self, state: Self::State) -> usize
        ensures number { result ≡ entry_number (seen self.now state) }
        ensures entry { IsEntry (alternative self.now).goal (seen self.now state) };

    /// The state after the turn of a column.
    fn after(&self, state: Self::State, column: usize) -> Self::State
        requires { column < length (turns_of (alternative self.now).step) }
        ensures { seen self.now result
            ≡ coordinates_after (seen self.now state) (turn_at (alternative self.now).step column) };
}

/// A flip, on an axis that is known.
#[derive(Clone, Copy)]
pub struct FlipState {
    flip: u16,
    ghost in_range: { flip < 2048 },
}

/// The flips of an edge orientation.
#[derive(Drop)]
pub struct EdgeMoves<A: Allocator> {
    flips: MoveTable<A>,
    ghost are_flips: { flips.coordinate ≡ coordinate.Flip },
    ghost turns: { length (turns_of flips.step) ≡ 18 },
}

impl<A: Allocator> EdgeMoves<A> {
    /// Those of a step, on an axis.
    pub fn build_in(alloc: A, step: Step, axis: Axis) -> Result<EdgeMoves<A>, OutOfMemory>
        requires { length (turns_of step) ≡ 18 }
        ensures { IfOk result (λ m. (m.flips.step ≡ step) × (m.flips.axis ≡ axis)) }
    {
        let flips = MoveTable::build_in(alloc, Coordinate::Flip, axis, step)?;
        Ok(EdgeMoves { flips })
    }
}

impl<A: Allocator> GoalMoves for EdgeMoves<A> {
    type State = FlipState;

    ghost alternative = { λ m. record { step = m.flips.step; goal = Edges m.flips.axis } };

    ghost seen = { λ m s. Flip m.flips.axis s.flip };

    #[inline(always)]
    fn turn_count(&self) -> usize {
        EDGE_TURNS
    }

    fn entry_count(&self) -> usize {
        Coordinate::Flip.count()
    }

    fn row_length(&self) -> usize {
        Coordinate::Flip.count()
    }

    #[tactic(auto, using(crate::proofs::EntryLemmas::row_edges))]
    fn starts(&self, _row: usize) -> Starts {
        [0; MOST_STEP_TURNS]
    }

    #[inline(always)]
    fn places(&self, place: usize) -> &Row {
        self.flips.row(place as u16)
    }

    fn state(&self, coordinates: GoalCoordinates) -> FlipState {
        match coordinates {
            GoalCoordinates::Flip { flip, .. } => FlipState { flip },
            GoalCoordinates::TwistAndSlice { .. } => unreachable!(),
        }
    }

    #[inline(always)]
    fn inverse_after(&self, cube: &Cube, turn: Turn) -> FlipState {
        FlipState {
            flip: Coordinate::Flip.inverse_rank_after(self.flips.axis(), cube, turn),
        }
    }

    fn coordinates_of(&self, state: FlipState) -> GoalCoordinates {
        GoalCoordinates::Flip {
            axis: self.flips.axis(),
            flip: state.flip,
        }
    }

    #[inline(always)]
    fn entry(&self, state: FlipState) -> usize {
        state.flip as usize
    }

    #[inline(always)]
    fn after(&self, state: FlipState, column: usize) -> FlipState {
        FlipState {
            flip: self.flips.after(state.flip, column),
        }
    }
}

/// A twist and a slice, on an axis that is known.
#[derive(Clone, Copy)]
pub struct PairState {
    twist: u16,
    slice: u16,
    ghost twist_in_range: { twist < 2187 },
    ghost slice_in_range: { slice < 495 },
}

/// The twists and slices of a domino reduction.
#[derive(Drop)]
pub struct DominoMoves<A: Allocator> {
    edges: Axis,
    twists: MoveTable<A>,
    slices: MoveTable<A>,
    ghost are_twists: { twists.coordinate ≡ coordinate.Twist },
    ghost are_slices: { slices.coordinate ≡ coordinate.Slice },
    ghost one_axis: { slices.axis ≡ twists.axis },
    ghost one_step: { slices.step ≡ twists.step },
    ghost turns: { length (turns_of twists.step) ≡ 14 },
}

impl<A: Allocator + Copy> DominoMoves<A> {
    /// Those of a step, on an axis, from edges that are oriented on another.
    pub fn build_in(
        alloc: A,
        step: Step,
        edges: Axis,
        axis: Axis,
    ) -> Result<DominoMoves<A>, OutOfMemory>
        requires { length (turns_of step) ≡ 14 }
        ensures { IfOk result (λ m. (m.twists.step ≡ step) × (m.twists.axis ≡ axis) × (m.edges ≡ edges)) }
    {
        let twists = MoveTable::build_in(alloc, Coordinate::Twist, axis, step)?;
        let slices = MoveTable::build_in(alloc, Coordinate::Slice, axis, step)?;
        Ok(DominoMoves {
            edges,
            twists,
            slices,
        })
    }
}

impl<A: Allocator> GoalMoves for DominoMoves<A> {
    type State = PairState;

    ghost alternative = { λ m. record { step = m.twists.step; goal = Domino m.edges m.twists.axis } };

    ghost seen = { λ m s. TwistAndSlice m.twists.axis s.twist s.slice };

    #[inline(always)]
    fn turn_count(&self) -> usize {
        DOMINO_TURNS
    }

    fn entry_count(&self) -> usize {
        Coordinate::Twist.count() * Coordinate::Slice.count()
    }

    fn row_length(&self) -> usize {
        Coordinate::Slice.count()
    }

    fn starts(&self, row: usize) -> Starts {
        let twists = self.twists.row(row as u16);
        let mut starts = [0; MOST_STEP_TURNS];
        for column in 0..DOMINO_TURNS {
            starts[column] = pair_number(twists[column], 0);
        }
        starts
    }

    #[inline(always)]
    fn places(&self, place: usize) -> &Row {
        self.slices.row(place as u16)
    }

    fn state(&self, coordinates: GoalCoordinates) -> PairState {
        match coordinates {
            GoalCoordinates::TwistAndSlice { twist, slice, .. } => PairState { twist, slice },
            GoalCoordinates::Flip { .. } => unreachable!(),
        }
    }

    #[inline(always)]
    fn inverse_after(&self, cube: &Cube, turn: Turn) -> PairState {
        let axis = self.twists.axis();
        PairState {
            twist: Coordinate::Twist.inverse_rank_after(axis, cube, turn),
            slice: Coordinate::Slice.inverse_rank_after(axis, cube, turn),
        }
    }

    fn coordinates_of(&self, state: PairState) -> GoalCoordinates {
        GoalCoordinates::TwistAndSlice {
            axis: self.twists.axis(),
            twist: state.twist,
            slice: state.slice,
        }
    }

    #[inline(always)]
    fn entry(&self, state: PairState) -> usize {
        pair_number(state.twist, state.slice)
    }

    #[inline(always)]
    fn after(&self, state: PairState, column: usize) -> PairState {
        PairState {
            twist: self.twists.after(state.twist, column),
            slice: self.slices.after(state.slice, column),
        }
    }
}
