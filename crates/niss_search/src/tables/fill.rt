//! The fill of a pruning table, breadth first.
ghost use Rattle.std.specs.Prelude.{◌≡◌, ◌≢◌, ℕ, ◌+◌, ◌*◌, ◌<◌, ◌≤◌, ◌^◌, ◌==◌, false, length, count_by};
ghost use Rattle.std.specs.List.{range_with_len};
ghost use Rattle.niss_cube.specs.Steps.{turns_of};
ghost use Rattle.niss_search.specs.Entries.{count_for};
ghost use Rattle.niss_search.specs.Filling.{entry_distance, goal_ticks, row_length, AreStarts, IsFilled, IsFilling, IsExtended, KeepsMet};

use super::goal_moves::{GoalMoves, Starts};
use super::meter::Meter;
use super::pruning_table::GOAL_ENTRY;
use crate::laws::entries_turn;
use crate::path::Limit;
use crate::scan::next_at;

/// A row of a pruning table. Where the turns lead it is looked up once, for all its entries.
#[derive(Drop)]
struct EntryRow<'a, M: GoalMoves> {
    moves: &'a M,
    start: usize,
    starts: Starts,
    ghost are_starts: { AreStarts (M.alternative moves.now) start starts },
}

impl<'a, M: GoalMoves> EntryRow<'a, M> {
    /// The row in which an entry stands.
    fn of(moves: &'a M, entry: usize) -> EntryRow<'a, M>
        requires { entry < count_for (M.alternative moves.now).goal }
        ensures moves { result.moves.now ≡ moves.now }
        ensures from { result.start ≤ entry }
        ensures to { entry < result.start + row_length (M.alternative moves.now).goal }
    {
        let length = moves.row_length();
        let number = entry / length;
        EntryRow {
            moves,
            start: number * length,
            starts: moves.starts(number),
        }
    }

    /// Goes on to the row of an entry, which isn't before this row.
    fn advance_to(&mut self, entry: usize)
        requires from { self.old.start ≤ entry }
        requires in_range { entry < count_for (M.alternative self.old.moves.now).goal }
        ensures moves { self.new.moves.now ≡ self.old.moves.now }
        ensures from { self.new.start ≤ entry }
        ensures to { entry < self.new.start + row_length (M.alternative self.old.moves.now).goal }
    {
        if entry - self.start >= self.moves.row_length() {
            *self = EntryRow::of(self.moves, entry);
        }
    }

    /// Tries each turn from an entry of the row at the level, and gives the next level to each entry that wasn't met before.
    fn extend(&self, entry: usize, distances: &mut [u8], level: u8, meter: &mut Meter)
        requires small { level < 20 }
        requires from { self.now.start ≤ entry }
        requires to { entry < self.now.start + row_length (M.alternative self.now.moves.now).goal }
        requires in_range { entry < count_for (M.alternative self.now.moves.now).goal }
        requires at_level { entry_distance (M.alternative self.now.moves.now) entry ≡ level }
        requires filling { IsFilling (M.alternative self.now.moves.now) level distances.old }
        requires meter { meter.old + length (turns_of (M.alternative self.now.moves.now).step) < 2 ^ 128 }
        ensures filling { IsFilling (M.alternative self.now.moves.now) level distances.new }
        ensures extended { IsExtended (M.alternative self.now.moves.now) distances.new entry }
        ensures kept { KeepsMet distances.old distances.new }
        ensures ticks { meter.new ≡ meter.old + length (turns_of (M.alternative self.now.moves.now).step) }
    {
        entries_turn();
        let places = self.moves.places(entry - self.start);
        for column in 0..self.moves.turn_count() {
            meter.tick();
            let next = self.starts[column] + places[column] as usize;
            // no branch, since the compiler makes no loop of the turns: in a loop it makes one that is often guessed wrong
            distances[next] = distances[next].min(level + 1);
        }
    }
}

/// Tries each turn from each entry of the level, and returns whether there was one.
fn extend_level<M: GoalMoves>(moves: &M, distances: &mut [u8], level: u8, meter: &mut Meter) -> bool
    requires small { level < 20 }
    requires filled { IsFilled (M.alternative moves.now) level distances.old }
    requires meter { meter.old + 18 * count_for (M.alternative moves.now).goal < 2 ^ 128 }
    ensures filled { IsFilled (M.alternative moves.now) (level + 1) distances.new }
    ensures ticks { meter.new
        ≡ meter.old
        + length (turns_of (M.alternative moves.now).step)
        * count_by (λ i. entry_distance (M.alternative moves.now) i == level)
        (range_with_len 0 (count_for (M.alternative moves.now).goal)) }
    ensures none { result ≡ false → (i : ℕ) → i < count_for (M.alternative moves.now).goal →
        entry_distance (M.alternative moves.now) i ≢ level }
{
    entries_turn();
    let mut row = EntryRow::of(moves, GOAL_ENTRY);
    let mut from = 0;
    while let Some(entry) = next_at(distances, from, level) {
        row.advance_to(entry);
        row.extend(entry, distances, level, meter);
        from = entry + 1;
    }
    from > 0
}

/// Fills a table that is 21 but at the goal, where it is 0, with the distances.
pub(super) fn fill_table<M: GoalMoves>(moves: &M, distances: &mut [u8], meter: &mut Meter)
    requires filled { IsFilled (M.alternative moves.now) 0 distances.old }
    requires meter { meter.old + 2 ^ 32 < 2 ^ 128 }
    ensures filled { IsFilled (M.alternative moves.now) 20 distances.new }
    ensures ticks { meter.new ≡ meter.old + goal_ticks (M.alternative moves.now) }
{
    entries_turn();
    // the meter is held by value meanwhile: through the borrow each tick would be written to memory
    let mut held = meter.take();
    for level in 0..Limit::MOST {
        if !extend_level(moves, distances, level, &mut held) {
            // no entry is further than a level that none has
            break;
        }
    }
    *meter = held;
}
