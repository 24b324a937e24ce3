//! Where moves bring the corners of the cube.
ghost use Rattle.std.specs.Prelude.{◌≡◌, ℕ, List, ◌∷◌, [], ◌++◌, IsTrue};
ghost use Rattle.niss_moves.specs.Effects.{inverse};
ghost use Rattle.niss_moves.specs.Solving.{IsRotated};
ghost use Rattle.niss_moves.specs.declared.token.Token.{Token};
ghost use Rattle.niss_attempts.specs.Corners.{Brings, corners_after, is_one_bit};

use niss_moves::Token;

/// By the number of a corner place: that of the place to which its corner is brought. Bits 0, 1 and 2 of a number say
/// whether the place lies at R, U and F. So the numbers of opposite places differ in each bit.
#[derive(Clone, Copy, Default)]
pub struct Corners {
    pub to: [u8; 8],
}

// Where corners are brought by two quarters.
macro_rules! twice {
    ($to:expr; $($from:literal)*) => { [$($to[$to[$from] as usize]),*] };
}

// The same by three.
macro_rules! thrice {
    ($to:expr; $($from:literal)*) => { [$($to[$to[$to[$from] as usize] as usize]),*] };
}

// A quarter, a half and a quarter counterclockwise.
macro_rules! powers {
    ($to:expr) => {
        [
            Corners { to: $to },
            Corners { to: twice!($to; 0 1 2 3 4 5 6 7) },
            Corners { to: thrice!($to; 0 1 2 3 4 5 6 7) },
        ]
    };
}

/// Whether two places whose numbers differ by these bits lie side by side on an edge.
fn is_one_bit(bits: u8) -> bool
    ensures { result ≡ is_one_bit bits }
{
    bits == 1 || (bits == 2 || bits == 4)
}

/// The turns of the faces U, D, R, L, F and B, by their powers.
static TURNS: [[Corners; 3]; 6] = [
    powers!([0, 1, 3, 7, 4, 5, 2, 6]),
    powers!([4, 0, 2, 3, 5, 1, 6, 7]),
    powers!([0, 5, 2, 1, 4, 7, 6, 3]),
    powers!([2, 1, 6, 3, 0, 5, 4, 7]),
    powers!([0, 1, 2, 3, 6, 4, 7, 5]),
    powers!([1, 3, 0, 2, 4, 5, 6, 7]),
];

/// The rotations `y`, `x` and `z`, by their powers.
static ROTATIONS: [[Corners; 3]; 3] = [
    powers!([1, 5, 3, 7, 0, 4, 2, 6]),
    powers!([4, 5, 0, 1, 6, 7, 2, 3]),
    powers!([2, 0, 3, 1, 6, 4, 7, 5]),
];

impl Corners {
    /// Each corner stays.
    pub const HOME: Corners = Corners {
        to: [0, 1, 2, 3, 4, 5, 6, 7],
    };

    /// All are brought to one place, as no moves bring them.
    pub const NOWHERE: Corners = Corners { to: [0; 8] };

    /// By one move. A slice turn brings no corner anywhere, a wide turn brings them as that of its face does.
    #[inline(never)]
    fn after_move(token: Token) -> Corners
        ensures { result ≡ corners_after token }
    {
        match token {
            Token::Face(turn) => TURNS[turn.face as usize][turn.power as usize],
            Token::Wide(face, power) => TURNS[face as usize][power as usize],
            Token::Slice(_, _) => Corners::HOME,
            Token::Rotation(axis, power) => ROTATIONS[axis as usize][power as usize],
        }
    }

    /// By these moves and then others.
    #[inline(never)]
    pub fn then(&self, next: &Corners) -> Corners
        ensures { (s t : List Token) → Brings self.now.to s → Brings next.now.to t → Brings result.to (s ++ t) }
    {
        let mut to = [0; 8];
        for corner in 0..8 {
            // a place's number is below 8 already
            to[corner] = next.to[(self.to[corner] % 8) as usize];
        }
        Corners { to }
    }

    /// Whether one corner and its opposite come to opposite places by these moves and then others. It is soon told, and
    /// mostly enough.
    pub fn two_stay(&self, next: &Corners) -> bool
        ensures { (s t : List Token) → Brings self.now.to s → Brings next.now.to t → IsRotated (s ++ t) → IsTrue result }
    {
        let one = next.to[(self.to[0] % 8) as usize];
        let other = next.to[(self.to[7] % 8) as usize];
        one ^ other == 7
    }

    /// The same with moves between.
    pub fn two_stay_by(&self, between: &Corners, next: &Corners) -> bool
        ensures { (s r t : List Token) → Brings self.now.to s → Brings between.now.to r → Brings next.now.to t → IsRotated (s ++ r ++ t) →
            IsTrue result }
    {
        let one = between.to[(self.to[0] % 8) as usize];
        let other = between.to[(self.to[7] % 8) as usize];
        next.to[(one % 8) as usize] ^ next.to[(other % 8) as usize] == 7
    }

    /// By moves.
    #[inline(never)]
    pub fn after(tokens: &[Token]) -> Corners
        ensures { Brings result.to tokens.now }
    {
        let mut corners = Corners::HOME;
        for token in tokens {
            corners = corners.then(&Corners::after_move(*token));
        }
        corners
    }

    /// By the inverse of moves.
    #[inline(never)]
    pub fn after_inverse(tokens: &[Token]) -> Corners
        ensures { Brings result.to (inverse tokens.now) }
    {
        let mut corners = Corners::HOME;
        for token in tokens {
            corners = Corners::after_move(token.inverse()).then(&corners);
        }
        corners
    }

    /// Whether corners of opposite places come to opposite places, as rotations of the whole cube bring them.
    fn opposites_stay(&self) -> bool
        ensures { (s : List Token) → Brings self.now.to s → IsRotated s → IsTrue result }
    {
        self.to[0] ^ self.to[7] == 7
            && (self.to[1] ^ self.to[6] == 7
                && (self.to[2] ^ self.to[5] == 7 && self.to[3] ^ self.to[4] == 7))
    }

    /// Whether the neighbours of a corner stay beside it.
    fn neighbours_stay(&self) -> bool
        ensures { (s : List Token) → Brings self.now.to s → IsRotated s → IsTrue result }
    {
        is_one_bit(self.to[0] ^ self.to[1])
            && (is_one_bit(self.to[0] ^ self.to[2]) && is_one_bit(self.to[0] ^ self.to[4]))
    }

    /// Whether corners come where a rotation of the whole cube, or its image in a mirror, brings them.
    pub fn may_be_rotated(&self) -> bool
        ensures { (s : List Token) → Brings self.now.to s → IsRotated s → IsTrue result }
    {
        self.opposites_stay() && self.neighbours_stay()
    }
}
