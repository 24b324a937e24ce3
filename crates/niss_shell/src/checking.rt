//! Whether a solution solves a scramble, and how many moves it counts.
ghost use Rattle.std.specs.Prelude.{◌≡◌, ◌↔◌, ◌≤◌, IsTrue, map};
ghost use Rattle.niss_moves.specs.Effects.{effect_of_turns};
ghost use Rattle.niss_moves.specs.Places.{SameMap};
ghost use Rattle.niss_moves.specs.Rotations.{face_before, renamed_turn};
ghost use Rattle.niss_moves.specs.Solving.{Solves, solves, move_count, clean_count};
ghost use Rattle.niss_cube.specs.Map.{map_of};

use niss_cube::Cube;
use niss_moves::laws::{
    cleaned_lines, counted_by_faces, one_clean_list, rotated_is_tested, solved_by_turns,
};
use niss_moves::{Niss, Rotation, Turn, cleanup, to_faces, unniss};

/// Turns a cube that is held after a rotation.
fn turn_held(cube: &mut Cube, rotation: Rotation, turns: &[Turn])
    ensures { SameMap (map_of cube.new)
        (λ q. effect_of_turns (map (renamed_turn (face_before rotation)) turns.now) (map_of cube.old q)) }
{
    for turn in turns {
        cube.turn(Turn {
            face: rotation.face_before(turn.face),
            power: turn.power,
        });
    }
}

/// Whether the moves of a solution, made after those of a scramble, solve the cube, however it is held then.
pub fn solves(scramble: &Niss, solution: &Niss) -> bool
    ensures value { result ≡ solves scramble.now solution.now }
    ensures solved { IsTrue result ↔ Solves scramble.now solution.now }
{
    solved_by_turns();
    rotated_is_tested();
    let (turns, rotation) = to_faces(unniss(scramble).as_slice());
    let (more, _) = to_faces(unniss(solution).as_slice());
    let mut cube = Cube::solved();
    cube.apply(turns.as_slice());
    turn_held(&mut cube, rotation, more.as_slice());
    cube == Cube::solved()
}

/// How many moves a line counts as it is written: turns of faces and of outer blocks one each, slice turns two, rotations
/// none.
pub fn move_count(line: &Niss) -> usize
    ensures count { result ≡ move_count line.now }
    ensures most { result ≤ 512 }
{
    counted_by_faces();
    let (turns, _) = to_faces(unniss(line).as_slice());
    turns.len()
}

/// How many face turns the one sequence of a line has once it is cleaned.
pub fn clean_count(line: &Niss) -> usize
    ensures count { result ≡ clean_count line.now }
    ensures most { result ≤ 512 }
{
    cleaned_lines();
    one_clean_list();
    let (turns, _) = cleanup(unniss(line).as_slice());
    turns.len()
}
