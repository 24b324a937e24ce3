//! Which lengths of a step's solutions are let in.
ghost use Rattle.std.specs.Prelude.{◌≡◌, ◌≤◌, IfOk};

use crate::looks::{Cut, Looks};
use crate::measured::Measured;
use crate::nearest::{Enough, Nearest};
use crate::solution::Solution;
use crate::start::Start;
use niss_search::{Ends, Limit, PairsWanted, Sides, Stopped, Tables};
use std::alloc::Allocator;

/// More turns than a solution has.
const NO_LENGTH: u8 = 21;

/// The least lengths of a step's solutions, on the scramble alone, on its inverse alone and over both, or 21; and by
/// how many turns those are longer at most that are let in.
#[derive(Clone, Copy)]
pub struct Admitted {
    pub from: Measured,
    both: u8,
    slack: u8,
    ghost small: { (both ≤ 21) × (slack ≤ 20) },
}

/// The least length over both sides, which is at most the least on one.
fn least_on_both<A: Allocator>(
    tables: &Tables<A>,
    start: &Start,
    on_one: u8,
    looks: &mut Looks,
) -> Result<u8, Cut>
    requires { on_one ≤ 21 }
    ensures most { looks.new.most ≡ looks.old.most }
    ensures length { IfOk result (λ length. length ≤ 21) }
{
    let nothing = Solution::of(&[], &[]);
    for length in 0..on_one {
        let Some(limit) = Limit::new(length) else {
            break;
        };
        // a solution has a twin among these, of as many turns
        let wanted = PairsWanted {
            sides: Sides::Both,
            ends: Ends::NotCounter,
            length: limit,
        };
        let mut first = Nearest::first(start, &nothing);
        match looks.search(tables, start.cube(), wanted, &mut first) {
            Ok(_) => {}
            Err(Stopped::Refused(Enough)) => return Ok(length),
            Err(Stopped::Cut) => return Err(Cut),
        }
    }
    Ok(on_one)
}

impl Admitted {
    /// Those of a step from where one stands, or none if it may not start there.
    pub fn find<A: Allocator>(
        tables: &Tables<A>,
        start: &Start,
        slack: Limit,
        looks: &mut Looks,
    ) -> Result<Option<Admitted>, Cut>
        ensures { looks.new.most ≡ looks.old.most }
    {
        let cube = start.cube();
        let Some(from) = Measured::of(tables, cube, &cube.inverse(), looks)? else {
            return Ok(None);
        };
        let both = least_on_both(tables, start, from.on_one(), looks)?;
        Ok(Some(Admitted {
            from,
            both,
            slack: slack.get(),
        }))
    }

    /// The greatest length that is let in by a least one.
    fn last(&self, least: u8) -> u8
        requires { least ≤ 21 }
        ensures { result ≤ 21 }
    {
        if least == NO_LENGTH {
            0
        } else {
            (least + self.slack).min(20)
        }
    }

    /// Whether a length is let in by a least one.
    fn lets(&self, least: u8, length: u8) -> bool
        requires { least ≤ 21 }
    {
        least <= length && length <= self.last(least)
    }

    /// Whether the solutions of a length are asked for on these sides: if it is let in over both, there alone, else on
    /// each one on which it is let in.
    pub fn asks(&self, sides: Sides, length: u8) -> bool {
        let both = self.lets(self.both, length);
        match sides {
            Sides::Both => both,
            Sides::Normal => !both && self.lets(self.from.on_normal, length),
            Sides::Inverse => !both && self.lets(self.from.on_inverse, length),
        }
    }

    /// The greatest length that is let in on some sides.
    pub fn longest(&self) -> u8
        ensures { result ≤ 21 }
    {
        let from = &self.from;
        let alone = self.last(from.on_normal).max(self.last(from.on_inverse));
        alone.max(self.last(self.both))
    }
}

/// The greatest length that is let in, 0 if none is.
pub fn longest_of(admitted: Option<Admitted>) -> u8
    ensures { result ≤ 21 }
{
    admitted.map_or(0, |lengths| lengths.longest())
}
