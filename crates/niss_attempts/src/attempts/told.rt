//! What makes one doubt an attempt that was checked, and whether that counts.
ghost use Rattle.std.specs.Prelude.{◌≡◌, false, is_some};
ghost use Rattle.niss_attempts.specs.Attempts.{told, told_of_solved};
ghost use Rattle.niss_attempts.specs.Doubts.{number_if, place_of};

use crate::attempts::written::NONE;
use crate::doubts::Doubt;

/// A doubt, if there is one, and whether it counts.
#[derive(Clone, Copy)]
pub struct Told {
    pub doubt: Option<Doubt>,
    pub counts: bool,
}

impl Told {
    /// Of what is solved: what is found counts. If nothing is, the doubt is that of its reading.
    pub(crate) fn of_solved(found: Option<Doubt>, read: Option<Doubt>) -> Told
        ensures { result ≡ told_of_solved found read }
    {
        Told {
            doubt: found.or(read),
            counts: found.is_some(),
        }
    }

    /// Of what isn't: any doubt counts.
    pub(crate) fn of_unsolved(doubt: Option<Doubt>) -> Told
        ensures { result ≡ told doubt (is_some doubt) }
    {
        Told {
            doubt,
            counts: doubt.is_some(),
        }
    }

    /// Of what is at fault: none counts.
    pub(crate) fn of_fault(read: Option<Doubt>) -> Told
        ensures { result ≡ told read false }
    {
        Told {
            doubt: read,
            counts: false,
        }
    }

    /// The number of the doubt, 0 for none.
    pub(crate) fn number(self) -> u8
        ensures { result ≡ number_if self.doubt }
    {
        self.doubt.map_or(0, |doubt| doubt.reason.number())
    }

    /// The place of the doubt, if there is one.
    pub(crate) fn place(self) -> usize
        ensures { result ≡ place_of self.doubt }
    {
        self.doubt.map_or(NONE, |doubt| doubt.at)
    }
}
