//! The ways to hold the cube: where they bring the corners, and how they are written as moves.
ghost use Rattle.std.specs.Prelude.{◌≡◌, ◌<◌};
ghost use Rattle.niss_moves.specs.Rotations.{about_vertical, spelling};
ghost use Rattle.niss_attempts.specs.Corners.{Brings};
ghost use Rattle.niss_attempts.specs.TurnedCube.{hold_numbered, axis_letter, suffix_if, turned_bytes};

use crate::doubts::turn_words::suffix;
use crate::steps::cube_corners::Corners;
use niss_moves::{Axis, Face, Power, Rotation};

/// A way to hold the cube otherwise, by a rotation of the whole cube, and where that brings the corners.
#[derive(Clone, Copy)]
pub struct Hold {
    pub rotation: Rotation,
    pub corners: Corners,
}

// One of them: by the face that comes to the top, and the rotation about the vertical axis that follows.
macro_rules! hold {
    ($top:ident, $vertical:expr; $to:expr) => {
        Hold {
            rotation: Rotation {
                top: Face::$top,
                vertical: $vertical,
            },
            corners: Corners { to: $to },
        }
    };
}

/// How many there are.
pub const NUMBER_OF_HOLDS: usize = 23;

/// All of them.
static HOLDS: [Hold; NUMBER_OF_HOLDS] = [
    hold!(U, Some(Power::Quarter); [1, 5, 3, 7, 0, 4, 2, 6]),
    hold!(U, Some(Power::Half); [5, 4, 7, 6, 1, 0, 3, 2]),
    hold!(U, Some(Power::Counter); [4, 0, 6, 2, 5, 1, 7, 3]),
    hold!(F, None; [4, 5, 0, 1, 6, 7, 2, 3]),
    hold!(F, Some(Power::Quarter); [0, 4, 1, 5, 2, 6, 3, 7]),
    hold!(F, Some(Power::Half); [1, 0, 5, 4, 3, 2, 7, 6]),
    hold!(F, Some(Power::Counter); [5, 1, 4, 0, 7, 3, 6, 2]),
    hold!(D, None; [6, 7, 4, 5, 2, 3, 0, 1]),
    hold!(D, Some(Power::Quarter); [2, 6, 0, 4, 3, 7, 1, 5]),
    hold!(D, Some(Power::Half); [3, 2, 1, 0, 7, 6, 5, 4]),
    hold!(D, Some(Power::Counter); [7, 3, 5, 1, 6, 2, 4, 0]),
    hold!(B, None; [2, 3, 6, 7, 0, 1, 4, 5]),
    hold!(B, Some(Power::Quarter); [3, 7, 2, 6, 1, 5, 0, 4]),
    hold!(B, Some(Power::Half); [7, 6, 3, 2, 5, 4, 1, 0]),
    hold!(B, Some(Power::Counter); [6, 2, 7, 3, 4, 0, 5, 1]),
    hold!(L, None; [2, 0, 3, 1, 6, 4, 7, 5]),
    hold!(L, Some(Power::Quarter); [3, 1, 7, 5, 2, 0, 6, 4]),
    hold!(L, Some(Power::Half); [7, 5, 6, 4, 3, 1, 2, 0]),
    hold!(L, Some(Power::Counter); [6, 4, 2, 0, 7, 5, 3, 1]),
    hold!(R, None; [1, 3, 0, 2, 5, 7, 4, 6]),
    hold!(R, Some(Power::Quarter); [5, 7, 1, 3, 4, 6, 0, 2]),
    hold!(R, Some(Power::Half); [4, 6, 5, 7, 0, 2, 1, 3]),
    hold!(R, Some(Power::Counter); [0, 2, 4, 6, 1, 3, 5, 7]),
];

/// The one of a number.
pub fn hold_numbered(number: usize) -> Hold
    requires { number < 23 }
    ensures is { result ≡ hold_numbered number }
    ensures brings { Brings result.corners.to (spelling result.rotation) }
{
    HOLDS[number]
}

/// The letter of a rotation about an axis, or a blank.
fn axis_letter(rotation: Option<(Axis, Power)>) -> u8
    ensures { result ≡ axis_letter rotation }
{
    match rotation {
        Some((Axis::Ud, _)) => b'y',
        Some((Axis::Rl, _)) => b'x',
        Some((Axis::Fb, _)) => b'z',
        None => b' ',
    }
}

/// What stands after it, or a blank.
fn suffix_if(rotation: Option<(Axis, Power)>) -> u8
    ensures { result ≡ suffix_if rotation }
{
    match rotation {
        Some((_, power)) => suffix(power),
        None => b' ',
    }
}

/// A rotation about the vertical axis, if there is one.
fn about_vertical(vertical: Option<Power>) -> Option<(Axis, Power)>
    ensures { result ≡ about_vertical vertical }
{
    vertical.map(|power| (Axis::Ud, power))
}

/// A rotation of the whole cube as moves, between blanks.
pub fn turned_bytes(rotation: Rotation) -> [u8; 7]
    ensures { result ≡ turned_bytes rotation }
{
    let tilt = rotation.top.to_top();
    let spin = about_vertical(rotation.vertical);
    [
        b' ',
        axis_letter(tilt),
        suffix_if(tilt),
        b' ',
        axis_letter(spin),
        suffix_if(spin),
        b' ',
    ]
}
