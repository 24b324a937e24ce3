//! How many ways have at most so many moves in all.
ghost use Rattle.std.specs.Prelude.{◌≡◌, ◌≤◌};

/// The totals that are counted.
const TOTALS: usize = 512;

/// How many ways have each total.
#[derive(Drop)]
pub struct Totals {
    counts: [u32; TOTALS],
}

impl Totals {
    /// No way.
    pub fn new() -> Totals {
        Totals {
            counts: [0; TOTALS],
        }
    }

    /// Counts a way.
    pub fn add(&mut self, total: u16) {
        let index = usize::from(total);
        if index < TOTALS {
            self.counts[index] = self.counts[index].saturating_add(1);
        }
    }

    /// The least total that so many ways have at most, or the greatest number if there aren't as many.
    pub fn that_has(&self, count: usize) -> u16 {
        let mut rest = count as u64;
        for total in 0..TOTALS {
            let ways = u64::from(self.counts[total]);
            if ways >= rest {
                return total as u16;
            }
            rest -= ways;
        }
        u16::MAX
    }
}
