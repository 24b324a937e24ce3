//! What of a text isn't in the line that is written of it.
ghost use Rattle.std.specs.Prelude.{◌≡◌, ◌≤◌, if◌then◌else◌};
ghost use Rattle.niss_text.specs.LeftOut.{left_none, left_of, both, bits_of};

use crate::piece::Piece;

/// Which kinds of pieces are left out, or read as a blank.
#[derive(Clone, Copy)]
pub struct LeftOut {
    pub labels: bool,
    pub move_counts: bool,
    pub comments: bool,
    pub line_numbers: bool,
    pub commas: bool,
    pub unseen: bool,
}

/// The number if it holds, and else 0.
fn flag(holds: bool, number: u8) -> u8
    ensures value { result ≡ (if holds then number else 0) }
    ensures at_most { result ≤ number }
{
    if holds { number } else { 0 }
}

impl LeftOut {
    pub fn none() -> LeftOut
        ensures { result ≡ left_none }
    {
        LeftOut {
            labels: false,
            move_counts: false,
            comments: false,
            line_numbers: false,
            commas: false,
            unseen: false,
        }
    }

    /// What one piece leaves out.
    pub fn of(piece: Piece) -> LeftOut
        ensures { result ≡ left_of piece }
    {
        let none = LeftOut::none();
        match piece {
            Piece::Label => LeftOut {
                labels: true,
                ..none
            },
            Piece::MoveCount => LeftOut {
                move_counts: true,
                ..none
            },
            Piece::Comment => LeftOut {
                comments: true,
                ..none
            },
            Piece::LineNumber => LeftOut {
                line_numbers: true,
                ..none
            },
            Piece::Comma => LeftOut {
                commas: true,
                ..none
            },
            Piece::Unseen => LeftOut {
                unseen: true,
                ..none
            },
            _ => none,
        }
    }

    /// What one of two leaves out.
    pub fn and(self, other: LeftOut) -> LeftOut
        ensures { result ≡ both self other }
    {
        LeftOut {
            labels: self.labels || other.labels,
            move_counts: self.move_counts || other.move_counts,
            comments: self.comments || other.comments,
            line_numbers: self.line_numbers || other.line_numbers,
            commas: self.commas || other.commas,
            unseen: self.unseen || other.unseen,
        }
    }

    /// The same as bits.
    pub fn bits(self) -> u8
        ensures { result ≡ bits_of self }
    {
        let words = flag(self.labels, 1) + flag(self.move_counts, 2) + flag(self.comments, 4);
        let signs = flag(self.line_numbers, 8) + flag(self.commas, 16) + flag(self.unseen, 32);
        words + signs
    }
}
