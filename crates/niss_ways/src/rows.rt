//! The best ways in a caller's room, in order.
ghost use Rattle.std.specs.Prelude.{◌≡◌, ◌≤◌, ◌<◌, ◌+◌, ℕ, length};
ghost use Rattle.niss_ways.specs.Order.{IsSorted, AreWithin, AreKept, AreInTurn, IsPut};
ghost use Rattle.niss_ways.specs.Truth.{AreFrom, AreStill};

use crate::way::Way;

/// Takes a way among the first ones of the room: it stands behind those that are as good, if there is place. Returns
/// how many stand there now.
pub fn take(room: &mut [Way], count: usize, way: Way) -> usize
    ensures from { AreFrom way count room.old result room.new }
    ensures sorted { IsSorted count room.old → IsSorted result room.new }
    ensures within { result ≤ length room.new }
    ensures no_fewer { count ≤ length room.old → count ≤ result }
    ensures kept { count ≤ length room.old → IsSorted count room.old → AreKept count room.old result room.new }
    ensures no_worse { (rank : ℕ) → count ≡ length room.old → AreWithin rank count room.old → AreWithin rank result room.new }
    ensures in_turn { count ≤ length room.old → IsSorted count room.old → AreInTurn count room.old result room.new }
    ensures length { length room.new ≡ length room.old }
{
    let places = room.len();
    if count < places {
        insert(room, way, count);
        return count + 1;
    }
    if places > 0 {
        let last = room[places - 1];
        if last.rank() > way.rank() {
            insert(room, way, places - 1);
        }
    }
    places
}

/// Puts a way among the first ones, behind those that are as good, and moves the later ones one place back.
fn insert(room: &mut [Way], way: Way, count: usize)
    requires { count < length room.old }
    ensures from { AreFrom way count room.old (count + 1) room.new }
    ensures still { AreStill count room.old (count + 1) room.new }
    ensures sorted { IsSorted count room.old → IsSorted (count + 1) room.new }
    ensures put { IsPut way count room.old room.new }
    ensures length { length room.new ≡ length room.old }
{
    let rank = way.rank();
    let mut at = count;
    while at > 0 {
        let before = room[at - 1];
        if before.rank() <= rank {
            break;
        }
        room[at] = before;
        at -= 1;
    }
    room[at] = way;
}
