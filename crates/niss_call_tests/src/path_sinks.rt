//! Sinks that compare what they are handed, or what a heap has given meanwhile.
use linked_list_allocator::LocalHeap;
use niss_moves::{LineText, put_faces};
use niss_search::{PairSink, Sink, TurnPath};

/// Its path was one too many.
#[derive(Clone, Copy, Debug, PartialEq, Eq)]
pub struct Refused;

/// Takes the paths that are wanted, compares them with these, and refuses all paths after them.
#[derive(Drop)]
pub struct Comparison<'a> {
    wanted: &'a [&'a str],
    taken: usize,
    is_same: bool,
}

impl<'a> Comparison<'a> {
    /// Nothing was taken yet.
    pub fn new(wanted: &'a [&'a str]) -> Comparison<'a> {
        Comparison {
            wanted,
            taken: 0,
            is_same: true,
        }
    }

    /// Whether all wanted paths were taken, and none but these.
    pub fn took_all(&self) -> bool {
        self.is_same && self.taken == self.wanted.len()
    }
}

impl Sink for Comparison<'_> {
    ghost use Rattle.std.specs.Prelude.{◌≡◌, ◌+◌};

    type Fault = Refused;

    ghost took = { λ old path new. new.taken ≡ old.taken + 1 };

    ghost refused = { λ old path new. new ≡ old };

    fn take(&mut self, path: &TurnPath) -> Result<(), Refused> {
        let Some(wanted) = self.wanted.get(self.taken) else {
            return Err(Refused);
        };
        let is_wanted = is_written(path, wanted);
        self.is_same = self.is_same && is_wanted;
        self.taken += 1;
        Ok(())
    }
}

/// The same of pairs: each has its turns on the normal side, and those on the inverse.
#[derive(Drop)]
pub struct PairComparison<'a> {
    wanted: &'a [(&'a str, &'a str)],
    taken: usize,
    is_same: bool,
}

impl<'a> PairComparison<'a> {
    /// Nothing was taken yet.
    pub fn new(wanted: &'a [(&'a str, &'a str)]) -> PairComparison<'a> {
        PairComparison {
            wanted,
            taken: 0,
            is_same: true,
        }
    }

    /// Whether all wanted pairs were taken, and none but these.
    pub fn took_all(&self) -> bool {
        self.is_same && self.taken == self.wanted.len()
    }
}

impl PairSink for PairComparison<'_> {
    ghost use Rattle.std.specs.Prelude.{◌≡◌, ◌+◌};

    type Fault = Refused;

    ghost took = { λ old pair new. new.taken ≡ old.taken + 1 };

    ghost refused = { λ old pair new. new ≡ old };

    fn take(&mut self, normal: &TurnPath, inverse: &TurnPath) -> Result<(), Refused> {
        let Some((on_normal, on_inverse)) = self.wanted.get(self.taken) else {
            return Err(Refused);
        };
        let is_wanted = is_written(normal, on_normal) && is_written(inverse, on_inverse);
        self.is_same = self.is_same && is_wanted;
        self.taken += 1;
        Ok(())
    }
}

/// Whether a path is written so.
fn is_written(path: &TurnPath, wanted: &str) -> bool {
    let mut text = LineText::new();
    put_faces(path.turns(), &mut text);
    wanted.as_bytes() == text.as_slice()
}

/// Compares at each path what a heap has given with what it had given before the search.
#[derive(Drop)]
pub struct HeapWatch<'a> {
    pub heap: &'a LocalHeap,
    pub used: usize,
    pub is_same: bool,
}

impl Sink for HeapWatch<'_> {
    type Fault = Refused;

    ghost took = { λ old path new. Unit {0} };

    ghost refused = { λ old path new. Unit {0} };

    fn take(&mut self, _path: &TurnPath) -> Result<(), Refused> {
        self.is_same = self.is_same && self.heap.used() == self.used;
        Ok(())
    }
}

/// Takes all paths.
#[derive(Drop)]
pub struct All;

impl Sink for All {
    type Fault = Refused;

    ghost took = { λ old path new. Unit {0} };

    ghost refused = { λ old path new. Unit {0} };

    fn take(&mut self, _path: &TurnPath) -> Result<(), Refused> {
        Ok(())
    }
}
