//! How the turns of a pair are split between a head and a tail.
ghost use Rattle.std.specs.Prelude.{◌≡◌};
ghost use Rattle.niss_search.specs.BothWalk.{split_of};

/// A side of a pair.
#[derive(Clone, Copy)]
pub(super) enum Side {
    Normal,
    Inverse,
}

/// How the turns of a pair are split: so many of the head, which stands on one side, and of the tail on the other.
#[derive(Clone, Copy)]
pub(super) struct Split {
    pub side: Side,
    pub head: u8,
    pub tail: u8,
}

impl Split {
    /// The head is the shorter side, and the normal one if they are equally long.
    pub fn of(normal: u8, inverse: u8) -> Split
        ensures { result ≡ split_of normal inverse }
    {
        if normal <= inverse {
            Split {
                side: Side::Normal,
                head: normal,
                tail: inverse,
            }
        } else {
            Split {
                side: Side::Inverse,
                head: inverse,
                tail: normal,
            }
        }
    }
}
