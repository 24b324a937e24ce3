//! The positions of the facelet text: of which cubies they are, and from where a rotation of the whole cube brings a letter.
ghost use Rattle.std.specs.Prelude.{◌≡◌, ℕ, ◌<◌, [], get_or, slice_index};
ghost use Rattle.niss_moves.specs.Effects.{effect, moved_by};
ghost use Rattle.niss_moves.specs.Facelets.{letters};
ghost use Rattle.niss_moves.specs.Indices.{axis_index, power_index};
ghost use Rattle.niss_moves.specs.Places.{Place};
ghost use Rattle.niss_moves.specs.Rotations.{rotation_if};
ghost use Rattle.niss_moves.specs.declared.token.Token.TheVariants as token;
ghost use Rattle.niss_cube.specs.Map.{place_at};

use niss_moves::{Axis, Power};

/// The positions of the corners' facelets in the facelet text, three for each corner in the order of its facelets.
pub const CORNER_POSITIONS: [u8; 24] = [
    8, 9, 20, 6, 18, 38, 0, 36, 47, 2, 45, 11, 29, 26, 15, 27, 44, 24, 33, 53, 42, 35, 17, 51,
];

/// The same of the edges, two for each edge.
pub const EDGE_POSITIONS: [u8; 24] = [
    5, 10, 7, 19, 3, 37, 1, 46, 32, 16, 28, 25, 30, 43, 34, 52, 23, 12, 21, 41, 50, 39, 48, 14,
];

/// For each position of the facelet text: of which cubie place it is. The corners come first, then the edges, from 8 on,
/// and then the centres, from 20 on.
pub const CUBIES: [u8; 54] = [
    2, 11, 3, 10, 20, 8, 1, 9, 0, 0, 8, 3, 16, 21, 19, 4, 12, 7, 1, 9, 0, 17, 22, 16, 5, 13, 4, 5,
    13, 4, 14, 23, 12, 6, 15, 7, 2, 10, 1, 18, 24, 17, 6, 14, 5, 3, 11, 2, 19, 25, 18, 7, 15, 6,
];

/// For each position of the facelet text: which facelet of this place it is.
pub const FACELETS: [u8; 54] = [
    0, 0, 0, 0, 0, 0, 0, 0, 0, 1, 1, 2, 1, 0, 1, 2, 1, 1, 1, 1, 2, 0, 0, 0, 2, 1, 1, 0, 0, 0, 0, 0,
    0, 0, 0, 0, 1, 1, 2, 1, 0, 1, 2, 1, 1, 1, 1, 2, 0, 0, 0, 2, 1, 1,
];

/// The facelet text of the solved cube.
pub const SOLVED_TEXT: [u8; 54] = *b"UUUUUUUUURRRRRRRRRFFFFFFFFFDDDDDDDDDLLLLLLLLLBBBBBBBBB";

/// For each axis, power and position: the position from which this rotation of the whole cube brings the letter.
static BEFORE_ROTATION: [[[u8; 54]; 3]; 3] = [
    [
        // y
        [
            6, 3, 0, 7, 4, 1, 8, 5, 2, 45, 46, 47, 48, 49, 50, 51, 52, 53, 9, 10, 11, 12, 13, 14,
            15, 16, 17, 29, 32, 35, 28, 31, 34, 27, 30, 33, 18, 19, 20, 21, 22, 23, 24, 25, 26, 36,
            37, 38, 39, 40, 41, 42, 43, 44,
        ],
        // y2
        [
            8, 7, 6, 5, 4, 3, 2, 1, 0, 36, 37, 38, 39, 40, 41, 42, 43, 44, 45, 46, 47, 48, 49, 50,
            51, 52, 53, 35, 34, 33, 32, 31, 30, 29, 28, 27, 9, 10, 11, 12, 13, 14, 15, 16, 17, 18,
            19, 20, 21, 22, 23, 24, 25, 26,
        ],
        // y'
        [
            2, 5, 8, 1, 4, 7, 0, 3, 6, 18, 19, 20, 21, 22, 23, 24, 25, 26, 36, 37, 38, 39, 40, 41,
            42, 43, 44, 33, 30, 27, 34, 31, 28, 35, 32, 29, 45, 46, 47, 48, 49, 50, 51, 52, 53, 9,
            10, 11, 12, 13, 14, 15, 16, 17,
        ],
    ],
    [
        // x
        [
            18, 19, 20, 21, 22, 23, 24, 25, 26, 15, 12, 9, 16, 13, 10, 17, 14, 11, 27, 28, 29, 30,
            31, 32, 33, 34, 35, 53, 52, 51, 50, 49, 48, 47, 46, 45, 38, 41, 44, 37, 40, 43, 36, 39,
            42, 8, 7, 6, 5, 4, 3, 2, 1, 0,
        ],
        // x2
        [
            27, 28, 29, 30, 31, 32, 33, 34, 35, 17, 16, 15, 14, 13, 12, 11, 10, 9, 53, 52, 51, 50,
            49, 48, 47, 46, 45, 0, 1, 2, 3, 4, 5, 6, 7, 8, 44, 43, 42, 41, 40, 39, 38, 37, 36, 26,
            25, 24, 23, 22, 21, 20, 19, 18,
        ],
        // x'
        [
            53, 52, 51, 50, 49, 48, 47, 46, 45, 11, 14, 17, 10, 13, 16, 9, 12, 15, 0, 1, 2, 3, 4,
            5, 6, 7, 8, 18, 19, 20, 21, 22, 23, 24, 25, 26, 42, 39, 36, 43, 40, 37, 44, 41, 38, 35,
            34, 33, 32, 31, 30, 29, 28, 27,
        ],
    ],
    [
        // z
        [
            42, 39, 36, 43, 40, 37, 44, 41, 38, 6, 3, 0, 7, 4, 1, 8, 5, 2, 24, 21, 18, 25, 22, 19,
            26, 23, 20, 15, 12, 9, 16, 13, 10, 17, 14, 11, 33, 30, 27, 34, 31, 28, 35, 32, 29, 47,
            50, 53, 46, 49, 52, 45, 48, 51,
        ],
        // z2
        [
            35, 34, 33, 32, 31, 30, 29, 28, 27, 44, 43, 42, 41, 40, 39, 38, 37, 36, 26, 25, 24, 23,
            22, 21, 20, 19, 18, 8, 7, 6, 5, 4, 3, 2, 1, 0, 17, 16, 15, 14, 13, 12, 11, 10, 9, 53,
            52, 51, 50, 49, 48, 47, 46, 45,
        ],
        // z'
        [
            11, 14, 17, 10, 13, 16, 9, 12, 15, 29, 32, 35, 28, 31, 34, 27, 30, 33, 20, 23, 26, 19,
            22, 25, 18, 21, 24, 38, 41, 44, 37, 40, 43, 36, 39, 42, 2, 5, 8, 1, 4, 7, 0, 3, 6, 51,
            48, 45, 52, 49, 46, 53, 50, 47,
        ],
    ],
];

/// For each position: the position from which a rotation of the whole cube about an axis brings the letter.
fn before_rotation(axis: Axis, power: Power) -> &'static [u8; 54]
    ensures value { result.now
        ≡ get_or (get_or BEFORE_ROTATION (axis_index axis) []) (power_index power) [] }
    ensures in_range { (k : ℕ) → k < 54 → slice_index result.now k < 54 }
    ensures moves { (k : ℕ) → k < 54 →
        moved_by (token.Rotation axis power) (place_at (slice_index result.now k)) ≡ place_at k }
{
    &BEFORE_ROTATION[axis as usize][power as usize]
}

/// The facelet text after a rotation of the whole cube about an axis.
fn rotated(text: &[u8; 54], axis: Axis, power: Power) -> [u8; 54]
    ensures { (e : Place → Place) → text.now ≡ letters e →
        result ≡ letters (λ q. moved_by (token.Rotation axis power) (e q)) }
{
    let before = before_rotation(axis, power);
    let mut after = [0; 54];
    for (position, letter) in after.iter_mut().enumerate() {
        *letter = text[before[position] as usize];
    }
    after
}

/// The same if there may be no rotation.
pub fn rotated_if(text: [u8; 54], rotation: Option<(Axis, Power)>) -> [u8; 54]
    ensures { (e : Place → Place) → text ≡ letters e →
        result ≡ letters (λ q. effect (rotation_if rotation) (e q)) }
{
    match rotation {
        None => text,
        Some((axis, power)) => rotated(&text, axis, power),
    }
}
