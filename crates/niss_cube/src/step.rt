//! The steps of solving: edge orientation, and the domino reduction that follows it.
ghost use Rattle.std.specs.Prelude.{◌≡◌, ◌↔◌, IsTrue, ◌≢◌, IfSome, IfNone};
ghost use Rattle.std.specs.List.{Any, list_all};
ghost use Rattle.std.specs.Option.{option_copied};
ghost use Rattle.niss_cube.specs.Map.{map_of};
ghost use Rattle.niss_cube.specs.Steps.{steps, name_of, start_of, start_name_of, goals_of};
ghost use Rattle.niss_cube.specs.Steps.{turns_of, holds, may_start, reached, reached_mask, KeepsGoal, KeepsStart};
ghost use Rattle.niss_cube.specs.Steps.{is_idle};
ghost use Rattle.niss_cube.specs.declared.step.Step.{Step};

use crate::cube::Cube;
use crate::cube::coordinate::Coordinate;
use niss_moves::{Axis, Face, Power, Turn, turn_order};

/// A step of solving, named as solvers do: an edge orientation (`eo`) on an axis, or a domino reduction (`dr`) on an axis
/// of a cube whose edges are oriented on another axis. If the name has no axis for it, any one will do.
#[derive(Clone, Copy, Debug, PartialEq, Eq)]
pub enum Step {
    Eofb,
    Eorl,
    Eoud,
    DrudEofb,
    DrrlEofb,
    DrudEorl,
    DrfbEorl,
    DrrlEoud,
    DrfbEoud,
    Eo,
    DrEofb,
    DrEorl,
    DrEoud,
}

/// What a step can reach.
#[derive(Clone, Copy, Debug, PartialEq, Eq)]
pub enum Goal {
    /// The edges are oriented on the axis.
    Edges(Axis),
    /// The edges are oriented on one axis; and on the other the corners are untwisted and the slice's edges in their slice.
    Domino { edges: Axis, axis: Axis },
}

const STEPS: [Step; 13] = [
    Step::Eofb,
    Step::Eorl,
    Step::Eoud,
    Step::DrudEofb,
    Step::DrrlEofb,
    Step::DrudEorl,
    Step::DrfbEorl,
    Step::DrrlEoud,
    Step::DrfbEoud,
    Step::Eo,
    Step::DrEofb,
    Step::DrEorl,
    Step::DrEoud,
];

const EDGES_ON_UD: Goal = Goal::Edges(Axis::Ud);

const EDGES_ON_RL: Goal = Goal::Edges(Axis::Rl);

const EDGES_ON_FB: Goal = Goal::Edges(Axis::Fb);

// A domino reduction: of a cube whose edges are oriented on the first axis, on the second.
macro_rules! dr {
    ($edges:ident, $axis:ident) => {
        Goal::Domino {
            edges: Axis::$edges,
            axis: Axis::$axis,
        }
    };
}

// The turns of the faces by the powers after each.
macro_rules! turns {
    ($($face:ident: $($power:ident)*;)*) => {
        [$($(Turn { face: Face::$face, power: Power::$power },)*)*]
    };
}

const TURNS_FROM_UD: [Turn; 14] = turns! {
    U: Half; D: Half;
    R: Quarter Half Counter; L: Quarter Half Counter;
    F: Quarter Half Counter; B: Quarter Half Counter;
};

const TURNS_FROM_RL: [Turn; 14] = turns! {
    U: Quarter Half Counter; D: Quarter Half Counter;
    R: Half; L: Half;
    F: Quarter Half Counter; B: Quarter Half Counter;
};

const TURNS_FROM_FB: [Turn; 14] = turns! {
    U: Quarter Half Counter; D: Quarter Half Counter;
    R: Quarter Half Counter; L: Quarter Half Counter;
    F: Half; B: Half;
};

impl Step {
    /// All steps, in the order of the command `steps`.
    pub fn all() -> &'static [Step]
        ensures { result.now ≡ steps }
    {
        &STEPS
    }

    /// What makes the step: its name, its start and its goals.
    fn row(self) -> (&'static str, Option<Axis>, &'static [Goal])
        ensures name { result.0.now ≡ name_of self }
        ensures start { result.1 ≡ start_of self }
        ensures goals { result.2.now ≡ goals_of self }
    {
        match self {
            Step::Eofb => ("eofb", None, &[EDGES_ON_FB]),
            Step::Eorl => ("eorl", None, &[EDGES_ON_RL]),
            Step::Eoud => ("eoud", None, &[EDGES_ON_UD]),
            Step::DrudEofb => ("drud-eofb", Some(Axis::Fb), &[dr!(Fb, Ud)]),
            Step::DrrlEofb => ("drrl-eofb", Some(Axis::Fb), &[dr!(Fb, Rl)]),
            Step::DrudEorl => ("drud-eorl", Some(Axis::Rl), &[dr!(Rl, Ud)]),
            Step::DrfbEorl => ("drfb-eorl", Some(Axis::Rl), &[dr!(Rl, Fb)]),
            Step::DrrlEoud => ("drrl-eoud", Some(Axis::Ud), &[dr!(Ud, Rl)]),
            Step::DrfbEoud => ("drfb-eoud", Some(Axis::Ud), &[dr!(Ud, Fb)]),
            Step::Eo => ("eo", None, &[EDGES_ON_FB, EDGES_ON_RL, EDGES_ON_UD]),
            Step::DrEofb => ("dr-eofb", Some(Axis::Fb), &[dr!(Fb, Ud), dr!(Fb, Rl)]),
            Step::DrEorl => ("dr-eorl", Some(Axis::Rl), &[dr!(Rl, Ud), dr!(Rl, Fb)]),
            Step::DrEoud => ("dr-eoud", Some(Axis::Ud), &[dr!(Ud, Rl), dr!(Ud, Fb)]),
        }
    }

    /// The step's name, such as `eofb` or `drud-eofb`.
    pub fn name(self) -> &'static str
        ensures { result.now ≡ name_of self }
    {
        self.row().0
    }

    /// The step of exactly this name.
    pub fn from_name(name: &[u8]) -> Option<Step>
        ensures known { IfSome result (λ step. name_of step ≡ name.now) }
        ensures unknown { IfNone result ((step : Step) → name_of step ≢ name.now) }
    {
        Step::all()
            .iter()
            .copied()
            .find(|step| step.name().as_bytes() == name)
    }

    /// The axis on which the edges must be oriented before the step; `None` if it needs nothing.
    pub fn start(self) -> Option<Axis>
        ensures { result ≡ start_of self }
    {
        self.row().1
    }

    /// The name of the step that must be reached before this one; `None` if it needs none.
    pub fn start_name(self) -> Option<&'static str>
        ensures { option_copied result ≡ start_name_of self }
    {
        let edge_step = match self.start()? {
            Axis::Ud => Step::Eoud,
            Axis::Rl => Step::Eorl,
            Axis::Fb => Step::Eofb,
        };
        Some(edge_step.name())
    }

    /// The step's turns, in turn order: all 18, or after oriented edges the 14 that keep them so.
    #[tactic(auto, unfolding(crate::specs::Steps::turns_of))]
    pub fn turns(self) -> &'static [Turn]
        ensures { result.now ≡ turns_of self }
    {
        match self.start() {
            None => turn_order(),
            Some(Axis::Ud) => &TURNS_FROM_UD,
            Some(Axis::Rl) => &TURNS_FROM_RL,
            Some(Axis::Fb) => &TURNS_FROM_FB,
        }
    }

    /// The step's alternatives: it is reached if one of them holds.
    pub fn goals(self) -> &'static [Goal]
        ensures { result.now ≡ goals_of self }
    {
        self.row().2
    }

    /// Whether the step may start on the cube.
    #[inline(never)]
    #[tactic(auto, unfolding(crate::specs::Steps::may_start))]
    pub fn may_start(self, cube: &Cube) -> bool
        ensures value { result ≡ may_start self (map_of cube.now) }
        ensures kept { IsTrue result ↔ KeepsStart (start_of self) (map_of cube.now) }
    {
        match self.start() {
            None => true,
            Some(axis) => Goal::Edges(axis).holds(cube),
        }
    }

    /// Which steps the cube has reached, as a mask: bit i is set if it has reached step i in the order of `all`.
    pub fn all_reached(cube: &Cube) -> u16
        ensures { result ≡ reached_mask (map_of cube.now) }
    {
        let mut mask = 0;
        let mut index = STEPS.len();
        while index > 0 {
            index -= 1;
            mask = 2 * mask + u16::from(STEPS[index].reached(cube));
        }
        mask
    }

    /// Whether the cube has reached the step.
    #[tactic(auto, unfolding(crate::specs::Steps::reached))]
    pub fn reached(self, cube: &Cube) -> bool
        ensures value { result ≡ reached self (map_of cube.now) }
        ensures kept { IsTrue result ↔ Any (λ goal. KeepsGoal goal (map_of cube.now)) (goals_of self) }
    {
        self.goals().iter().any(|goal| goal.holds(cube))
    }

    /// Whether a turn is idle in the step: it keeps what each of its goals keeps. So it leaves the step reached, or not
    /// reached.
    pub fn is_idle(self, turn: Turn) -> bool
        ensures { result ≡ is_idle self turn }
    {
        let mut cube = Cube::solved();
        cube.turn(turn);
        self.holds_all(&cube)
    }

    /// Whether each of its goals holds of the cube.
    fn holds_all(self, cube: &Cube) -> bool
        ensures { result ≡ list_all (λ goal. holds goal (map_of cube.now)) (goals_of self) }
    {
        self.goals().iter().all(|goal| goal.holds(cube))
    }
}

impl Goal {
    /// Whether the goal holds of the cube.
    pub fn holds(self, cube: &Cube) -> bool
        ensures value { result ≡ holds self (map_of cube.now) }
        ensures kept { IsTrue result ↔ KeepsGoal self (map_of cube.now) }
    {
        match self {
            Goal::Edges(axis) => Coordinate::Flip.is_zero(axis, cube),
            Goal::Domino { edges, axis } => {
                Coordinate::Flip.is_zero(edges, cube)
                    && Coordinate::Twist.is_zero(axis, cube)
                    && Coordinate::Slice.is_zero(axis, cube)
            }
        }
    }
}
