//! The tables of a step, by what it looks at.
ghost use Rattle.std.specs.Prelude.{◌≡◌, ◌≤◌, ◌^◌, Some, IfOk, slice_get, length};
ghost use Rattle.niss_cube.specs.declared.step.Goal.TheVariants as goals;
ghost use Rattle.niss_cube.specs.Steps.{goals_of, turns_of};
ghost use Rattle.niss_search.specs.KindOfStep.{IsOfStep};
ghost use Rattle.niss_search.specs.StepSpace.{IsBuilt};

use super::goal_moves::{DominoMoves, EdgeMoves, GoalMoves};
use super::meter::Meter;
use super::pruning_table::{EmptyTable, PruningTable};
use super::search_tables::SearchTables;
use super::state_space::GoalAndOthers;
use niss_cube::{Axis, Goal, OutOfMemory, Step};
use std::alloc::Allocator;

/// The tables of a step with one goal.
type OneGoal<M, A> = SearchTables<PruningTable<M, A>>;

/// Those of a step with two.
type TwoGoals<M, A> = SearchTables<GoalAndOthers<M, A, PruningTable<M, A>>>;

/// Those of a step with three.
type ThreeGoals<M, A> = SearchTables<GoalAndOthers<M, A, GoalAndOthers<M, A, PruningTable<M, A>>>>;

/// The tables of a step, by what it looks at: the flip on an axis, or on each of the three; or twist and slice on an axis, or
/// on either of two.
#[derive(Drop)]
pub enum Kind<A: Allocator> {
    Edges(OneGoal<EdgeMoves<A>, A>),
    AnyEdges(ThreeGoals<EdgeMoves<A>, A>),
    Domino(OneGoal<DominoMoves<A>, A>),
    EitherDomino(TwoGoals<DominoMoves<A>, A>),
}

impl<A: Allocator + Copy> Kind<A> {
    /// Builds the tables of a step. Whatever its goals, it takes all memory, and then fills.
    pub(super) fn build_in(alloc: A, step: Step, meter: &mut Meter) -> Result<Kind<A>, OutOfMemory>
        requires { meter.old ≤ 2 ^ 127 }
        ensures { IsBuilt (λ kind. IsOfStep kind step) step meter.old meter.new result }
    {
        match *step.goals() {
            [Goal::Edges(axis), ..] => Kind::of_edges_in(alloc, step, axis, meter),
            [Goal::Domino { edges, axis }, ..] => {
                Kind::of_domino_in(alloc, step, edges, axis, meter)
            }
            [] => unreachable!(),
        }
    }

    /// Those of a step that orients edges: on an axis alone, or first on it and then on two more.
    #[tactic(auto, using(crate::proofs::FillLemmas::ticks_of_goals, crate::proofs::GoalLemmas::turns_to_edges))]
    fn of_edges_in(
        alloc: A,
        step: Step,
        axis: Axis,
        meter: &mut Meter,
    ) -> Result<Kind<A>, OutOfMemory>
        requires first { slice_get (goals_of step) 0 ≡ Some (goals.Edges axis) }
        requires meter { meter.old ≤ 2 ^ 127 }
        ensures { IsBuilt (λ kind. IsOfStep kind step) step meter.old meter.new result }
    {
        let first = edge_table(alloc, step, axis)?;
        match *step.goals() {
            [_] => { Ok(Kind::Edges(SearchTables::of(step, first.fill(meter)))) }
            [_, Goal::Edges(second), Goal::Edges(third)] => {
                let second = edge_table(alloc, step, second)?;
                let third = edge_table(alloc, step, third)?;
                let others = GoalAndOthers::of(second.fill(meter), third.fill(meter));
                let space = GoalAndOthers::of(first.fill(meter), others);
                Ok(Kind::AnyEdges(SearchTables::of(step, space)))
            }
            _ => unreachable!(),
        }
    }

    /// Those of a step that reduces to a domino: by a pair of axes alone, or first by it and then by another.
    #[tactic(auto, using(crate::proofs::FillLemmas::ticks_of_goals, crate::proofs::GoalLemmas::turns_to_domino))]
    fn of_domino_in(
        alloc: A,
        step: Step,
        edges: Axis,
        axis: Axis,
        meter: &mut Meter,
    ) -> Result<Kind<A>, OutOfMemory>
        requires first { slice_get (goals_of step) 0 ≡ Some (goals.Domino edges axis) }
        requires meter { meter.old ≤ 2 ^ 127 }
        ensures { IsBuilt (λ kind. IsOfStep kind step) step meter.old meter.new result }
    {
        let first = domino_table(alloc, step, edges, axis)?;
        match *step.goals() {
            [_] => { Ok(Kind::Domino(SearchTables::of(step, first.fill(meter)))) }
            [_, Goal::Domino { edges, axis }] => {
                let second = domino_table(alloc, step, edges, axis)?;
                let space = GoalAndOthers::of(first.fill(meter), second.fill(meter));
                Ok(Kind::EitherDomino(SearchTables::of(step, space)))
            }
            _ => unreachable!(),
        }
    }
}

/// The pruning table of an edge orientation, still to be filled.
fn edge_table<A: Allocator + Copy>(
    alloc: A,
    step: Step,
    axis: Axis,
) -> Result<EmptyTable<EdgeMoves<A>, A>, OutOfMemory>
    requires { length (turns_of step) ≡ 18 }
    ensures { IfOk result (λ t.
        ⟦<EdgeMoves<A> as GoalMoves>⟧.alternative t.moves ≡ record { step = step; goal = goals.Edges axis }) }
{
    let moves = EdgeMoves::build_in(alloc, step, axis)?;
    EmptyTable::new_in(alloc, moves)
}

/// The pruning table of a domino reduction, still to be filled.
fn domino_table<A: Allocator + Copy>(
    alloc: A,
    step: Step,
    edges: Axis,
    axis: Axis,
) -> Result<EmptyTable<DominoMoves<A>, A>, OutOfMemory>
    requires { length (turns_of step) ≡ 14 }
    ensures { IfOk result (λ t.
        ⟦<DominoMoves<A> as GoalMoves>⟧.alternative t.moves
        ≡ record { step = step; goal = goals.Domino edges axis }) }
{
    let moves = DominoMoves::build_in(alloc, step, edges, axis)?;
    EmptyTable::new_in(alloc, moves)
}
