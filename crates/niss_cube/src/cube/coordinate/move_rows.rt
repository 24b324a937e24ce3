//! The rows of a move table.
ghost use Rattle.std.specs.Prelude.{◌≡◌, ◌<◌, ◌≤◌, length};
ghost use Rattle.niss_cube.specs.AfterTurn.{AreMoveRows, IsMoveRow};
ghost use Rattle.niss_cube.specs.Coordinates.{count_of};

use super::Coordinate;
use niss_moves::{Axis, Turn};

/// The most turns of a move table.
const MOST_STEP_TURNS: usize = 18;

impl Coordinate {
    /// Writes the rows of a move table, one for each rank: the ranks on an axis after some turns, at most 18, of any cube that
    /// has this rank before them. They stand in the order of the turns, and each is below `count`.
    pub fn fill_move_rows(self, axis: Axis, turns: &[Turn], rows: &mut [[u16; 18]])
        requires few { length turns.now ≤ 18 }
        requires each_rank { length rows.old ≡ count_of self }
        ensures { AreMoveRows self axis turns.now rows.new }
    {
        for rank in 0..rows.len() {
            rows[rank] = self.move_row(axis, turns, rank as u16);
        }
    }

    /// The row of a rank.
    fn move_row(self, axis: Axis, turns: &[Turn], rank: u16) -> [u16; MOST_STEP_TURNS]
        requires few { length turns.now ≤ 18 }
        requires rank { rank < count_of self }
        ensures { IsMoveRow self axis turns.now rank result }
    {
        let cube = self.unrank(rank);
        let mut row = [0; MOST_STEP_TURNS];
        for column in 0..turns.len() {
            row[column] = self.standard_rank_after(&cube, self.standard_turn(axis, turns[column]));
        }
        row
    }
}
