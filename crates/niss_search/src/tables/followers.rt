//! The turns of a step that may follow a turn.
ghost use Rattle.std.specs.Prelude.{◌≡◌, ◌<◌, length, get_or, Contains, None};
ghost use Rattle.niss_moves.specs.Canonical.{may_follow, face_may_follow};
ghost use Rattle.niss_moves.specs.Indices.{face_index};
ghost use Rattle.niss_search.specs.Names.{Face};
ghost use Rattle.niss_cube.specs.Steps.{turns_of};
ghost use Rattle.niss_search.specs.Followers.{AreFollowers};
ghost use Rattle.niss_search.specs.Moves.{turn_at};

use super::move_table::MOST_STEP_TURNS;
use arrayvec::ArrayVec;
use niss_cube::{Face, Step, Turn};
use niss_moves::{Power, allowed};
use std::marker::Model;

/// A turn of a step that may follow, with its column in the step's move tables, and whether it is idle in the step.
#[derive(Clone, Copy, Default)]
pub struct Follower {
    pub turn: Turn,
    pub column: u8,
    pub is_idle: bool,
}

/// Some of a step's turns.
type FollowerList = ArrayVec<Follower, MOST_STEP_TURNS>;

/// The turns of a step that may stand directly after the last one, in turn order.
#[tactic(auto, using(crate::proofs::Bounds::few_turns))]
fn followers_after(step: Step, last: Option<Turn>) -> FollowerList
    ensures { AreFollowers step (may_follow last) result.items }
{
    let turns = step.turns();
    let mut list = FollowerList::new();
    for column in 0..turns.len() {
        let turn = turns[column];
        if allowed(last, turn) {
            list.push(Follower {
                turn,
                column: column as u8,
                is_idle: step.is_idle(turn),
            });
        }
    }
    list
}

/// The turns of a step that may stand directly after a turn of the face.
fn followers_after_face(step: Step, face: Face) -> FollowerList
    ensures { AreFollowers step (λ t. face_may_follow face t.face) result.items }
{
    let last = Turn {
        face,
        power: Power::Quarter,
    };
    followers_after(step, Some(last))
}

/// A step with its turns, listed once by the face of the turn before them, so that a search need not test each turn.
#[derive(Drop)]
pub struct Followers {
    step: Step,
    first: FollowerList,
    after_faces: [FollowerList; 6],
    ghost first_are: { AreFollowers step (may_follow None) first.items },
    ghost after_are: { (face : Face) (none : _) →
        AreFollowers step (λ t. face_may_follow face t.face) (get_or after_faces (face_index face) none).items },
}

impl Model for Followers {
    ghost use Rattle.niss_cube.specs.declared.step.Step as steps;

    ghost Value = { steps.Step };

    ghost view = { λ s. s.step };
}

impl Followers {
    /// The turns of a step.
    pub(super) fn of(step: Step) -> Followers
        ensures { result ≡ step }
    {
        Followers {
            step,
            first: followers_after(step, None),
            after_faces: [
                followers_after_face(step, Face::U),
                followers_after_face(step, Face::D),
                followers_after_face(step, Face::R),
                followers_after_face(step, Face::L),
                followers_after_face(step, Face::F),
                followers_after_face(step, Face::B),
            ],
        }
    }

    /// The column of one of the step's turns.
    pub(super) fn column(&self, turn: Turn) -> usize
        requires { Contains (turns_of self.now) turn }
        ensures in_range { result < length (turns_of self.now) }
        ensures value { turn_at self.now result ≡ turn }
    {
        let turns = self.step.turns();
        turns.iter().position(|other| *other == turn).unwrap()
    }

    /// The step's turns that may stand directly after the last one, in turn order.
    pub(super) fn after(&self, last: Option<Turn>) -> &[Follower]
        ensures { AreFollowers self.now (may_follow last) result.now }
    {
        match last {
            Some(last) => self.after_faces[last.face as usize].as_slice(),
            None => self.first.as_slice(),
        }
    }
}
