//! Turns of the faces on cubies.
ghost use Rattle.std.specs.Prelude.{◌≡◌, ◌==◌, ◌<◌, ◌≤◌, ◌+◌, ◌-◌, ◌%◌, EachIndex, slice_index, get_or, length};
ghost use Rattle.niss_cube.specs.CubieTurns.{turn_table, IsInRange};
ghost use Rattle.niss_cube.specs.Cubies.{ArePlaced, index_in};

use niss_moves::Turn;

/// A turn of a face: for each place, from which place its cubie comes, and what is added to its twist or flip.
#[derive(Clone, Copy)]
pub struct CubieTurn {
    pub corners: [u8; 8],
    pub twists: [u8; 8],
    pub edges: [u8; 12],
    pub flips: [u8; 12],
}

// From which place the cubie of each place comes by two quarters.
macro_rules! twice {
    ($from:expr; $($place:literal)*) => { [$($from[$from[$place] as usize]),*] };
}

// The same by three.
macro_rules! thrice {
    ($from:expr; $($place:literal)*) => { [$($from[$from[$from[$place] as usize] as usize]),*] };
}

// The quarter, the half and the counter turn of a face. Two quarters add nothing to a twist or flip, so three add what one does.
macro_rules! powers {
    (corners: $corners:expr, twists: $twists:expr, edges: $edges:expr, flips: $flips:expr,) => {
        [
            CubieTurn {
                corners: $corners,
                twists: $twists,
                edges: $edges,
                flips: $flips,
            },
            CubieTurn {
                corners: twice!($corners; 0 1 2 3 4 5 6 7),
                twists: [0; 8],
                edges: twice!($edges; 0 1 2 3 4 5 6 7 8 9 10 11),
                flips: [0; 12],
            },
            CubieTurn {
                corners: thrice!($corners; 0 1 2 3 4 5 6 7),
                twists: $twists,
                edges: thrice!($edges; 0 1 2 3 4 5 6 7 8 9 10 11),
                flips: $flips,
            },
        ]
    };
}

const UP: [CubieTurn; 3] = powers! {
    corners: [3, 0, 1, 2, 4, 5, 6, 7],
    twists: [0; 8],
    edges: [3, 0, 1, 2, 4, 5, 6, 7, 8, 9, 10, 11],
    flips: [0; 12],
};

const DOWN: [CubieTurn; 3] = powers! {
    corners: [0, 1, 2, 3, 5, 6, 7, 4],
    twists: [0; 8],
    edges: [0, 1, 2, 3, 5, 6, 7, 4, 8, 9, 10, 11],
    flips: [0; 12],
};

const RIGHT: [CubieTurn; 3] = powers! {
    corners: [4, 1, 2, 0, 7, 5, 6, 3],
    twists: [2, 0, 0, 1, 1, 0, 0, 2],
    edges: [8, 1, 2, 3, 11, 5, 6, 7, 4, 9, 10, 0],
    flips: [0; 12],
};

const LEFT: [CubieTurn; 3] = powers! {
    corners: [0, 2, 6, 3, 4, 1, 5, 7],
    twists: [0, 1, 2, 0, 0, 2, 1, 0],
    edges: [0, 1, 10, 3, 4, 5, 9, 7, 8, 2, 6, 11],
    flips: [0; 12],
};

const FRONT: [CubieTurn; 3] = powers! {
    corners: [1, 5, 2, 3, 0, 4, 6, 7],
    twists: [1, 2, 0, 0, 2, 1, 0, 0],
    edges: [0, 9, 2, 3, 4, 8, 6, 7, 1, 5, 10, 11],
    flips: [0, 1, 0, 0, 0, 1, 0, 0, 1, 1, 0, 0],
};

const BACK: [CubieTurn; 3] = powers! {
    corners: [0, 1, 3, 7, 4, 5, 2, 6],
    twists: [0, 0, 1, 2, 0, 0, 2, 1],
    edges: [0, 1, 2, 11, 4, 5, 6, 10, 8, 9, 3, 7],
    flips: [0, 0, 0, 1, 0, 0, 0, 1, 0, 0, 1, 1],
};

/// The turns, by face (U, D, R, L, F, B) and by power (quarter, half, counter).
static CUBIE_TURNS: [[CubieTurn; 3]; 6] = [UP, DOWN, RIGHT, LEFT, FRONT, BACK];

/// The table of a turn.
pub fn cubie_turn(turn: Turn) -> &'static CubieTurn
    ensures value { result.now ≡ turn_table turn.face turn.power }
    ensures in_range { IsInRange result.now }
{
    &CUBIE_TURNS[turn.face as usize][turn.power as usize]
}

/// Which cubie stands at each place, after each came from the place that `from` names.
#[inline(always)]
pub fn turn_homes<const PLACES: usize>(homes: &[u8; PLACES], from: &[u8; PLACES]) -> [u8; PLACES]
    requires { EachIndex from.now (λ k. slice_index from.now k < PLACES) }
    ensures { EachIndex result (λ k. slice_index result k
        ≡ slice_index homes.now (slice_index from.now k)) }
{
    let mut turned = [0; PLACES];
    for place in 0..PLACES {
        turned[place] = homes[from[place] as usize];
    }
    turned
}

/// How the cubie at each place is twisted or flipped, after each came from the place that `from` names and was turned by
/// what `added` names. Corners have three `FACELETS`, edges two.
#[inline(always)]
pub fn turn_orientations<const PLACES: usize, const FACELETS: u8>(
    orientations: &[u8; PLACES],
    from: &[u8; PLACES],
    added: &[u8; PLACES],
) -> [u8; PLACES]
    requires facelets { FACELETS ≤ 3 }
    requires from_range { EachIndex from.now (λ k. slice_index from.now k < PLACES) }
    requires added_range { EachIndex added.now (λ k. slice_index added.now k < FACELETS) }
    requires orientation_range { EachIndex orientations.now (λ k.
        slice_index orientations.now k < FACELETS) }
    ensures { EachIndex result (λ k. slice_index result k
        ≡ (slice_index orientations.now (slice_index from.now k) + slice_index added.now k) % FACELETS) }
{
    let mut turned = [0; PLACES];
    for place in 0..PLACES {
        turned[place] = (orientations[from[place] as usize] + added[place]) % FACELETS;
    }
    turned
}

/// At which place each of the cubies stands, each at one.
pub fn places_of<const PLACES: usize>(homes: &[u8; PLACES]) -> [u8; PLACES]
    requires placed { ArePlaced PLACES homes.now }
    requires few { PLACES ≤ 12 }
    ensures value { EachIndex result (λ h. slice_index result h ≡ index_in (λ x. x == h) homes.now) }
    ensures in_range { EachIndex result (λ h. slice_index result h < PLACES) }
{
    let mut places = [0; PLACES];
    for place in 0..PLACES {
        places[homes[place] as usize] = place as u8;
    }
    places
}

/// How each cubie is turned back that stands at the place that `places` names for it. Corners have three `FACELETS`, edges two.
pub fn turned_back<const PLACES: usize, const FACELETS: u8>(
    orientations: &[u8; PLACES],
    places: &[u8; PLACES],
) -> [u8; PLACES]
    requires facelets { FACELETS ≤ 3 }
    requires some { 0 < FACELETS }
    requires place_range { EachIndex places.now (λ k. slice_index places.now k < PLACES) }
    requires orientation_range { EachIndex orientations.now (λ k. slice_index orientations.now k < FACELETS) }
    ensures { EachIndex result (λ k. slice_index result k
        ≡ (FACELETS - slice_index orientations.now (slice_index places.now k)) % FACELETS) }
{
    let mut back = [0; PLACES];
    for home in 0..PLACES {
        back[home] = (FACELETS - orientations[places[home] as usize]) % FACELETS;
    }
    back
}
