//! The two reductions after an orientation on an axis.
ghost use Rattle.std.specs.Prelude.{◌≡◌, IfSome};

use crate::following::{Following, Found};
use crate::looks::{Cut, Looks};
use crate::oriented::Oriented;
use crate::solution::Solution;
use crate::start::Start;
use crate::tables::AxisTables;
use niss_cube::{Axis, Cube};
use std::alloc::Allocator;

/// Something of each of the two.
#[derive(Drop)]
pub struct Both<T> {
    pub first: T,
    pub second: T,
}

/// The two reductions after an orientation on an axis.
#[derive(Drop)]
pub struct ReductionsAfter<'a, A: Allocator> {
    start: &'a Start,
    axis: Axis,
    pub first: Following<'a, A>,
    pub second: Following<'a, A>,
}

impl<'a, A: Allocator> ReductionsAfter<'a, A> {
    /// Those after the orientation on an axis.
    pub fn of(
        start: &'a Start,
        tables: &AxisTables<'a, A>,
        axis: Axis,
    ) -> Option<ReductionsAfter<'a, A>>
        ensures first { IfSome result (λ both. both.first.start.now ≡ start.now) }
        ensures second { IfSome result (λ both. both.second.start.now ≡ start.now) }
    {
        let first = Following::of(start, tables.first)?;
        let second = Following::of(start, tables.second)?;
        Some(ReductionsAfter {
            start,
            axis,
            first,
            second,
        })
    }

    /// At most so many moves in all there are with the best of each after an orientation or one of its twins.
    pub fn at_most(&self, class: &Solution, looks: &mut Looks) -> Result<Both<u16>, Cut>
        ensures { looks.new.most ≡ looks.old.most }
    {
        let mut least = Both {
            first: u16::MAX,
            second: u16::MAX,
        };
        let cube = class.cube_after(self.start.cube());
        for number in 0..class.twins(self.axis) {
            let after = self.oriented(class, &cube, number);
            least.first = least.first.min(self.first.at_most(&after, looks)?);
            least.second = least.second.min(self.second.at_most(&after, looks)?);
        }
        Ok(least)
    }

    /// The best of each after an orientation or one of its twins, the first with the fewest moves in all, if these are
    /// fewer than a bound.
    pub fn best(
        &self,
        class: &Solution,
        below: Both<u16>,
        looks: &mut Looks,
    ) -> Result<Both<Option<Found>>, Cut>
        ensures { looks.new.most ≡ looks.old.most }
    {
        let mut below = below;
        let mut best = Both {
            first: None,
            second: None,
        };
        let cube = class.cube_after(self.start.cube());
        for number in 0..class.twins(self.axis) {
            let after = self.oriented(class, &cube, number);
            if let Some(found) = self.first.after(&after, below.first, looks)? {
                below.first = found.total;
                best.first = Some(found);
            }
            if let Some(found) = self.second.after(&after, below.second, looks)? {
                below.second = found.total;
                best.second = Some(found);
            }
        }
        Ok(best)
    }

    /// What is after the twin of a number, by the cube after its class.
    fn oriented(&self, class: &Solution, cube: &Cube, number: u8) -> Oriented {
        let twin = class.twin(self.axis, number);
        let cube = class.cube_after_twin(self.axis, number, cube);
        Oriented::by(self.start, self.axis, twin, cube)
    }
}
