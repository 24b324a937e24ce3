//! The counter of turns tried and of looks.
use std::marker::Model;
use std::mem;

/// A counter, 0 at first, of the turns that a fill tried and of the looks at positions. Only a fill and a look tick it.
#[derive(Debug, Drop)]
pub struct Meter {
    ticks: u128,
}

impl Model for Meter {
    ghost use Rattle.std.specs.Prelude.{ℕ};

    ghost Value = { ℕ };

    ghost view = { λ m. m.ticks };
}

impl Meter {
    ghost use Rattle.std.specs.Prelude.{◌≡◌, ◌+◌, ◌<◌, ◌^◌};

    /// A meter at 0.
    pub fn new() -> Meter
        ensures { result ≡ 0 }
    {
        Meter { ticks: 0 }
    }

    /// Where the meter stands.
    pub fn count(&self) -> u128
        ensures { result ≡ self.now }
    {
        self.ticks
    }

    /// Takes the meter by value: what stands in its place is at 0.
    pub(crate) fn take(&mut self) -> Meter
        ensures value { result ≡ self.old }
        ensures empty { self.new ≡ 0 }
    {
        mem::replace(self, Meter::new())
    }

    /// Adds one.
    pub(super) fn tick(&mut self)
        requires { self.old + 1 < 2 ^ 128 }
        ensures { self.new ≡ self.old + 1 }
    {
        self.ticks += 1;
    }
}
