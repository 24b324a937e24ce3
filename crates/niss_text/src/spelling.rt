//! How far letters and signs spell moves.
ghost use Rattle.std.specs.Prelude.{◌≡◌, true};
ghost use Rattle.niss_text.specs.Doubts.{is_capital, is_letter};
ghost use Rattle.niss_text.specs.Kept.{is_of_move};

use crate::sign::Kind;

/// How far a word spells moves.
#[derive(Clone, Copy, PartialEq, Eq)]
pub enum Spelling {
    Empty,
    /// Moves by capitals, up to a letter that may be a wide turn's.
    Letter,
    /// Moves by capitals.
    Moves,
    /// A move by a small letter.
    Small,
    Other,
}

impl Spelling {
    /// With one more sign, which begins with this byte.
    pub fn with(self, kind: Kind, byte: u8) -> Spelling {
        match self {
            Spelling::Empty => Spelling::begun(byte),
            Spelling::Letter | Spelling::Moves => {
                if is_capital_move(byte) {
                    Spelling::Letter
                } else if is_suffix(kind, byte) || (byte == b'w' && self == Spelling::Letter) {
                    Spelling::Moves
                } else {
                    Spelling::Other
                }
            }
            Spelling::Small if is_suffix(kind, byte) => Spelling::Small,
            _ => Spelling::Other,
        }
    }

    /// With this byte as the first.
    fn begun(byte: u8) -> Spelling {
        if is_capital_move(byte) {
            Spelling::Letter
        } else if is_small_move(byte) {
            Spelling::Small
        } else {
            Spelling::Other
        }
    }
}

/// Whether a byte is the capital of a move.
pub fn is_capital_move(byte: u8) -> bool
    ensures is { result ≡ is_of_move byte }
    ensures outer { is_capital byte ≡ true → result ≡ true }
    ensures letter { result ≡ true → is_letter byte ≡ true }
{
    matches!(
        byte,
        b'U' | b'D' | b'R' | b'L' | b'F' | b'B' | b'M' | b'E' | b'S'
    )
}

/// Whether a byte is the small letter of a move.
pub fn is_small_move(byte: u8) -> bool {
    matches!(
        byte,
        b'u' | b'd' | b'r' | b'l' | b'f' | b'b' | b'x' | b'y' | b'z'
    )
}

/// Whether a sign may stand after the letter of a move.
fn is_suffix(kind: Kind, byte: u8) -> bool {
    byte == b'2' || kind.is_prime()
}
