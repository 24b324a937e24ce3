//! The ranks of the inverse of a cube, read from the cube itself: a cubie and how it is turned say what it counts there.
ghost use Rattle.std.specs.Prelude.{◌≡◌, ◌<◌, ◌≤◌, ◌+◌, ◌%◌, ◌⊎◌, List, Bool, EachIndex, slice_index, sum_by};
ghost use Rattle.std.specs.List.{range_with_len};
ghost use Rattle.niss_cube.specs.Coordinates.{rank_places};
ghost use Rattle.niss_cube.specs.Inverses.{AreDigits, AreFour, counted_back, twist_digits, flip_digits, slice_places, slice_bit, slice_mask};

use super::renaming::{FLIPS_ABOUT_X, FLIPS_ABOUT_Y, TWISTS_ABOUT_X, TWISTS_ABOUT_Z};
use niss_moves::Axis;

/// How the orientations of the cubies of one kind make a rank on an axis.
#[derive(Clone, Copy)]
pub struct RankDigits<const PLACES: usize> {
    /// By place: which facelet there is the first one of the place to which the renaming for the axis brings it.
    pub inward: [u8; PLACES],
    /// By place: what the digit there counts, once the places are renamed.
    pub weights: [u16; PLACES],
}

pub const TWISTS_ON_UD: RankDigits<8> = RankDigits {
    inward: [0, 0, 0, 0, 0, 0, 0, 0],
    weights: [729, 243, 81, 27, 9, 3, 1, 0],
};

pub const TWISTS_ON_RL: RankDigits<8> = RankDigits {
    inward: TWISTS_ABOUT_Z,
    weights: [243, 3, 1, 81, 729, 9, 0, 27],
};

pub const TWISTS_ON_FB: RankDigits<8> = RankDigits {
    inward: TWISTS_ABOUT_X,
    weights: [27, 81, 1, 0, 729, 243, 3, 9],
};

pub const FLIPS_ON_UD: RankDigits<12> = RankDigits {
    inward: FLIPS_ABOUT_X,
    weights: [4, 32, 2, 512, 0, 8, 1, 128, 64, 16, 256, 1024],
};

pub const FLIPS_ON_RL: RankDigits<12> = RankDigits {
    inward: FLIPS_ABOUT_Y,
    weights: [512, 256, 128, 1024, 32, 16, 8, 64, 2, 1, 0, 4],
};

pub const FLIPS_ON_FB: RankDigits<12> = RankDigits {
    inward: [0, 0, 0, 0, 0, 0, 0, 0, 0, 0, 0, 0],
    weights: [1024, 512, 256, 128, 64, 32, 16, 8, 4, 2, 1, 0],
};

/// How twists make a rank on an axis.
#[inline(always)]
pub fn twist_digits(axis: Axis) -> &'static RankDigits<8>
    ensures value { result.now ≡ twist_digits axis }
    ensures are_digits { AreDigits 3 8 result.now }
{
    match axis {
        Axis::Ud => &TWISTS_ON_UD,
        Axis::Rl => &TWISTS_ON_RL,
        Axis::Fb => &TWISTS_ON_FB,
    }
}

/// How flips do.
#[inline(always)]
pub fn flip_digits(axis: Axis) -> &'static RankDigits<12>
    ensures value { result.now ≡ flip_digits axis }
    ensures are_digits { AreDigits 2 12 result.now }
{
    match axis {
        Axis::Ud => &FLIPS_ON_UD,
        Axis::Rl => &FLIPS_ON_RL,
        Axis::Fb => &FLIPS_ON_FB,
    }
}

/// The rank of the orientations of the inverse, after each cubie came from the place that `from` names and was turned by
/// what `added` names. Corners have three `FACELETS`, edges two.
#[inline(always)]
pub fn orientation_rank_back<const PLACES: usize, const FACELETS: u8>(
    homes: &[u8; PLACES],
    turns: &[u8; PLACES],
    from: &[u8; PLACES],
    added: &[u8; PLACES],
    digits: &RankDigits<PLACES>,
) -> u16
    requires few { PLACES ≤ 12 }
    requires facelets { (FACELETS ≡ 2) ⊎ (FACELETS ≡ 3) }
    requires home_range { EachIndex homes.now (λ k. slice_index homes.now k < PLACES) }
    requires turn_range { EachIndex turns.now (λ k. slice_index turns.now k < FACELETS) }
    requires from_range { EachIndex from.now (λ k. slice_index from.now k < PLACES) }
    requires added_range { EachIndex added.now (λ k. slice_index added.now k < FACELETS) }
    requires digits { AreDigits FACELETS PLACES digits.now }
    ensures { result ≡ sum_by (λ place. counted_back FACELETS digits.now
        (slice_index homes.now (slice_index from.now place))
        ((slice_index turns.now (slice_index from.now place) + slice_index added.now place) % FACELETS) place)
        (range_with_len 0 PLACES) }
{
    let mut rank = 0;
    for place in 0..PLACES {
        let old_place = from[place] as usize;
        let home = homes[old_place] as usize;
        let turned_back = 2 * FACELETS - (turns[old_place] + added[place]);
        let digit = digits.inward[place] + turned_back + (FACELETS - digits.inward[home]);
        rank += digits.weights[home] * u16::from(digit % FACELETS);
    }
    rank
}

/// Where the edges of the slice of an axis are at home, and the bit of each place once it is renamed for the axis.
#[derive(Clone, Copy)]
pub struct SlicePlaces {
    pub places: [u8; 4],
    pub bits: [u16; 12],
}

pub const SLICE_ON_UD: SlicePlaces = SlicePlaces {
    places: [8, 9, 10, 11],
    bits: [1, 2, 4, 8, 16, 32, 64, 128, 256, 512, 1024, 2048],
};

pub const SLICE_ON_RL: SlicePlaces = SlicePlaces {
    places: [1, 3, 5, 7],
    bits: [4, 512, 64, 1024, 1, 256, 16, 2048, 2, 32, 128, 8],
};

pub const SLICE_ON_FB: SlicePlaces = SlicePlaces {
    places: [0, 2, 4, 6],
    bits: [2048, 8, 1024, 128, 256, 2, 512, 32, 1, 4, 64, 16],
};

/// The slice of an axis.
#[inline(always)]
pub fn slice_places(axis: Axis) -> &'static SlicePlaces
    ensures value { result.now ≡ slice_places axis }
    ensures places { EachIndex result.now.places (λ k. slice_index result.now.places k < 12) }
    ensures bits { EachIndex result.now.bits (λ k. slice_index result.now.bits k ≤ 2048) }
{
    match axis {
        Axis::Ud => &SLICE_ON_UD,
        Axis::Rl => &SLICE_ON_RL,
        Axis::Fb => &SLICE_ON_FB,
    }
}

/// What the places from the seventh on add to the rank of four places, by their bits.
static HIGH: [u16; 64] = [
    480, 460, 440, 425, 405, 390, 375, 369, 349, 334, 319, 313, 298, 292, 286, 285, 265, 250, 235,
    229, 214, 208, 202, 201, 186, 180, 174, 173, 167, 166, 165, 165, 145, 130, 115, 109, 94, 88,
    82, 81, 66, 60, 54, 53, 47, 46, 45, 45, 30, 24, 18, 17, 11, 10, 9, 9, 3, 2, 1, 1, 0, 0, 0, 0,
];

/// What the first six add: as many of the four stand there as don't stand behind them, so their bits suffice.
static LOW: [u16; 64] = [
    0, 5, 4, 14, 3, 13, 12, 19, 2, 11, 10, 18, 9, 17, 16, 14, 1, 8, 7, 15, 6, 14, 13, 13, 5, 12,
    11, 12, 10, 11, 10, 0, 0, 4, 3, 9, 2, 8, 7, 9, 1, 6, 5, 8, 4, 7, 6, 0, 0, 3, 2, 5, 1, 4, 3, 0,
    0, 2, 1, 0, 0, 0, 0, 0,
];

/// The rank of four places, by a bit for each.
#[inline(always)]
fn rank_of_four(mask: u16) -> u16
    requires { mask < 4096 }
    ensures { (occupied : List Bool) → AreFour mask occupied → result ≡ rank_places occupied 4 }
{
    HIGH[(mask / 64) as usize] + LOW[(mask % 64) as usize]
}

/// The bit of the place from which an edge of the slice comes, after it came to a place of the slice from the one that
/// `from` names.
#[inline(always)]
fn slice_bit(homes: &[u8; 12], from: &[u8; 12], slice: &SlicePlaces, index: usize) -> u16
    requires index { index < 4 }
    requires home_range { EachIndex homes.now (λ k. slice_index homes.now k < 12) }
    requires from_range { EachIndex from.now (λ k. slice_index from.now k < 12) }
    requires place_range { EachIndex slice.now.places (λ k. slice_index slice.now.places k < 12) }
    requires bit_range { EachIndex slice.now.bits (λ k. slice_index slice.now.bits k ≤ 2048) }
    ensures value { result ≡ slice_bit slice.now homes.now from.now index }
    ensures small { result ≤ 2048 }
{
    let place = slice.places[index] as usize;
    slice.bits[homes[from[place] as usize] as usize]
}

/// The rank of the slice of the inverse, after each edge came from the place that `from` names.
#[inline(always)]
pub fn slice_rank_back(homes: &[u8; 12], from: &[u8; 12], slice: &SlicePlaces) -> u16
    requires home_range { EachIndex homes.now (λ k. slice_index homes.now k < 12) }
    requires from_range { EachIndex from.now (λ k. slice_index from.now k < 12) }
    requires place_range { EachIndex slice.now.places (λ k. slice_index slice.now.places k < 12) }
    requires bit_range { EachIndex slice.now.bits (λ k. slice_index slice.now.bits k ≤ 2048) }
    requires mask { slice_mask slice.now homes.now from.now < 4096 }
    ensures { (occupied : List Bool) → AreFour (slice_mask slice.now homes.now from.now) occupied
        → result ≡ rank_places occupied 4 }
{
    let first = slice_bit(homes, from, slice, 0) + slice_bit(homes, from, slice, 1);
    let last = slice_bit(homes, from, slice, 2) + slice_bit(homes, from, slice, 3);
    rank_of_four(first + last)
}
