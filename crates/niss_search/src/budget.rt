//! How many looks a search may make.
ghost use Rattle.std.specs.Prelude.{◌≡◌, ◌+◌, ◌<◌, ◌≤◌, ◌^◌, ℕ, Bool, true, false, IfErr, OnErr, OnOk};
ghost use Rattle.niss_search.specs.Budgets.{is_cut_in, IsTaken};

use crate::tables::Meter;

/// What a descent asks before it looks: whether so many looks more are within a bound on its meter. It also says what
/// the descent ends with, so that one that has no bound ends with the sink's fault and nothing else.
pub trait Budget<F> {
    /// Why a descent ended before it was done.
    type Stop;

    /// How far the meter may go.
    ghost bound: { Self → ℕ };

    /// It was cut at the bound, and not by the sink.
    ghost is_cut: { Self.Stop → Bool };

    /// So many looks more are within the bound, or the descent ends.
    fn admit(&self, meter: &Meter, looks: usize) -> Result<(), Self::Stop>
        requires meter { meter.now + looks < 2 ^ 128 }
        ensures within { OnOk result (meter.now + looks ≤ bound self.now) }
        ensures over { OnErr result (bound self.now < meter.now + looks) }
        ensures cut { IfErr result (λ stop. is_cut stop ≡ true) };

    /// What the sink said of a path.
    fn taken(said: Result<(), F>) -> Result<(), Self::Stop>
        ensures { IsTaken is_cut said result };
}

/// No bound.
#[derive(Drop)]
pub struct Unbounded;

impl<F> Budget<F> for Unbounded {
    type Stop = F;

    ghost bound = { λ b. 2 ^ 128 };

    ghost is_cut = { λ stop. false };

    #[inline(always)]
    fn admit(&self, meter: &Meter, looks: usize) -> Result<(), F> {
        Ok(())
    }

    #[inline(always)]
    fn taken(said: Result<(), F>) -> Result<(), F>
        ensures { IsTaken (λ stop. false) said result }
    {
        said
    }
}

/// Why a search within a bound ended before it was done.
#[derive(Clone, Copy, Debug, Drop, PartialEq, Eq)]
pub enum Stopped<F> {
    /// The sink refused a path.
    Refused(F),
    /// The next looks would have passed the bound.
    Cut,
}

/// A bound on the meter.
#[derive(Drop)]
pub struct UpTo {
    pub bound: u128,
}

impl<F> Budget<F> for UpTo {
    type Stop = Stopped<F>;

    ghost bound = { λ b. b.bound };

    ghost is_cut = { λ stop. is_cut_in stop };

    #[inline(always)]
    fn admit(&self, meter: &Meter, looks: usize) -> Result<(), Stopped<F>> {
        if meter.count() + looks as u128 <= self.bound {
            Ok(())
        } else {
            Err(Stopped::Cut)
        }
    }

    #[inline(always)]
    fn taken(said: Result<(), F>) -> Result<(), Stopped<F>>
        ensures { IsTaken is_cut_in said result }
    {
        match said {
            Ok(()) => Ok(()),
            Err(fault) => Err(Stopped::Refused(fault)),
        }
    }
}
