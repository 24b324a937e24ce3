//! The ranks of orientations and of the places of a slice's edges, and what has a rank.
ghost use Rattle.std.specs.Prelude.{◌≡◌, ◌<◌, ◌≤◌, ◌^◌, ◌-◌, ◌⊎◌, length, map, reverse, nat_le, cond};
ghost use Rattle.niss_cube.specs.Coordinates.{number, rank_places, orientations_of_rank, choices_with, edges_of_rank};

/// The digits as a number, the first digit the highest.
pub fn rank_digits(base: u16, digits: &[u8]) -> u16
    requires some { 0 < base }
    requires fits { number base digits.now < 2 ^ 16 }
    ensures { result ≡ number base digits.now }
{
    let mut n = 0;
    for d in digits {
        n = base * n + u16::from(*d);
    }
    n
}

/// Writes the orientations that have a rank: its digits, and a last one that makes the sum a multiple of the base.
pub fn unrank_orientations(base: u8, rank: u16, orientations: &mut [u8])
    requires some { 0 < length orientations.old }
    requires base { (base ≡ 2) ⊎ (base ≡ 3) }
    ensures { orientations.new ≡ orientations_of_rank base (length orientations.old - 1) rank }
{
    let last = orientations.len() - 1;
    let mut rest = rank;
    let mut sum = 0;
    for met in 0..last {
        let digit = (rest % u16::from(base)) as u8;
        orientations[last - 1 - met] = digit;
        sum = (sum + digit) % base;
        rest /= u16::from(base);
    }
    orientations[last] = (base - sum) % base;
}

/// At a place with a number of places below, the choices that leave the last of 0 to 4 wanted edges to it.
const CHOICES: [[u16; 5]; 12] = [
    [0, 1, 0, 0, 0],
    [0, 1, 1, 0, 0],
    [0, 1, 2, 1, 0],
    [0, 1, 3, 3, 1],
    [0, 1, 4, 6, 4],
    [0, 1, 5, 10, 10],
    [0, 1, 6, 15, 20],
    [0, 1, 7, 21, 35],
    [0, 1, 8, 28, 56],
    [0, 1, 9, 36, 84],
    [0, 1, 10, 45, 120],
    [0, 1, 11, 55, 165],
];

/// At a place with a number of places below, the choices that leave the last of the wanted edges to it.
#[inline(always)]
fn choices_with(below: usize, wanted: usize) -> u16
    requires below { below < 12 }
    requires wanted { wanted ≤ 4 }
    ensures { result ≡ choices_with below wanted }
{
    CHOICES[below][wanted]
}

/// The same choices, unless one of the edges stands at the place.
#[inline(always)]
fn choices_passed(below: usize, wanted: usize, is_there: bool) -> u16
    requires below { below < 12 }
    requires wanted { wanted ≤ 4 }
    ensures { result ≡ cond is_there 0 (choices_with below wanted) }
{
    let choices = choices_with(below, wanted);
    if is_there { 0 } else { choices }
}

/// Whether an edge is one of the slice.
#[inline(always)]
fn is_of_slice(edge: u8) -> bool
    ensures { result ≡ nat_le 8 edge }
{
    edge >= 8
}

/// The rank of the places at which one of the edges 8 to 11 stands: a numbering of this project's own. Where they stand
/// can't be foreseen, so the loop has no branch.
pub fn rank_slice(edges: &[u8; 12]) -> u16
    ensures { result ≡ rank_places (reverse (map (nat_le 8) edges.now)) 4 }
{
    let mut wanted: usize = 4;
    let mut n = 0;
    for met in 0..12 {
        let place = 11 - met;
        let is_there = is_of_slice(edges[place]);
        n += choices_passed(place, wanted, is_there);
        wanted = wanted.saturating_sub(usize::from(is_there));
    }
    n
}

/// The edges by place, those of the slice at the places that have a rank.
pub fn unrank_slice(rank: u16) -> [u8; 12]
    requires { rank < 495 }
    ensures { result ≡ edges_of_rank rank }
{
    let mut edges = [0; 12];
    let mut wanted: usize = 4;
    let mut rest = rank;
    for met in 0..12 {
        let place = 11 - met;
        let with = choices_with(place, wanted);
        if rest < with {
            wanted -= 1;
            edges[place] = (8 + wanted) as u8;
        } else {
            rest -= with;
            edges[place] = (place - wanted) as u8;
        }
    }
    edges
}
