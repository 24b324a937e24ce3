//! Where the bad pieces stand, as bits of a number.
ghost use Rattle.std.specs.Prelude.{◌≡◌, ◌<◌, ◌≤◌, EachIndex, slice_index};
ghost use Rattle.niss_cube.specs.BadPlaces.{marks_of, turned_away};
ghost use Rattle.niss_cube.specs.declared.cube.coordinate.Coordinate.TheVariants.{Flip, Twist, Slice};
ghost use lib.Lanes.{mask_l};

use niss_moves::Axis;

/// Which of its facelets each edge has in the set of the flips.
pub fn flip_marks(axis: Axis) -> &'static [u8; 12]
    ensures marks { result.now ≡ marks_of Flip axis }
    ensures low { EachIndex result.now (λ k. slice_index result.now k < 3) }
{
    match axis {
        Axis::Ud => &[1, 0, 1, 0, 1, 0, 1, 0, 1, 1, 1, 1],
        Axis::Rl => &[0, 0, 0, 0, 0, 0, 0, 0, 1, 1, 1, 1],
        Axis::Fb => &[0, 0, 0, 0, 0, 0, 0, 0, 0, 0, 0, 0],
    }
}

/// Which of its facelets each corner has in the set of the twists.
pub fn twist_marks(axis: Axis) -> &'static [u8; 8]
    ensures marks { result.now ≡ marks_of Twist axis }
    ensures low { EachIndex result.now (λ k. slice_index result.now k < 3) }
{
    match axis {
        Axis::Ud => &[0, 0, 0, 0, 0, 0, 0, 0],
        Axis::Rl => &[1, 2, 1, 2, 2, 1, 2, 1],
        Axis::Fb => &[2, 1, 2, 1, 1, 2, 1, 2],
    }
}

/// 0 for each edge of the slice, and 2 for the others.
pub fn slice_marks(axis: Axis) -> &'static [u8; 12]
    ensures marks { result.now ≡ marks_of Slice axis }
    ensures low { EachIndex result.now (λ k. slice_index result.now k < 3) }
{
    match axis {
        Axis::Ud => &[2, 2, 2, 2, 2, 2, 2, 2, 0, 0, 0, 0],
        Axis::Rl => &[2, 0, 2, 0, 2, 0, 2, 0, 2, 2, 2, 2],
        Axis::Fb => &[0, 2, 0, 2, 0, 2, 0, 2, 2, 2, 2, 2],
    }
}

/// At which places a cubie stands that is turned away: bit i is set if the mark of its home, moved on by its turns, isn't
/// the mark of place i.
pub fn mask_of_turned<const PLACES: usize, const FACELETS: u8>(
    homes: &[u8; PLACES],
    turns: &[u8; PLACES],
    marks: &[u8; PLACES],
) -> u16
    requires few { PLACES ≤ 12 }
    requires some { 0 < FACELETS }
    requires homes { EachIndex homes.now (λ k. slice_index homes.now k < PLACES) }
    requires turns { EachIndex turns.now (λ k. slice_index turns.now k < 3) }
    requires marks { EachIndex marks.now (λ k. slice_index marks.now k < 3) }
    ensures { result ≡ mask_l (turned_away FACELETS homes.now turns.now marks.now) }
{
    let mut mask = 0;
    let mut place = PLACES;
    while place > 0 {
        place -= 1;
        let mark = (marks[homes[place] as usize] + turns[place]) % FACELETS;
        mask = 2 * mask + u16::from(mark != marks[place]);
    }
    mask
}
