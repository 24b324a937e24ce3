//! The looks of a call, within a bound.
ghost use Rattle.std.specs.Prelude.{◌≡◌, ◌+◌, ◌≤◌, IfOk, IsTrue};
ghost use Rattle.niss_cube.specs.Map.{map_of};
ghost use Rattle.niss_search.specs.Budgets.{is_cut_in};
ghost use Rattle.niss_cube.specs.Steps.{may_start};
ghost use Rattle.niss_search.specs.BothSides.{pairs_with, looks_with};
ghost use Rattle.niss_search.specs.Cubes.{distance_of};
ghost use Rattle.niss_ways.specs.Searched.{Searched};

use niss_cube::Cube;
use niss_search::{
    Meter, PairSink, PairsWanted, StepFrom, Stopped, Tables, search_pairs_of_length,
};
use std::alloc::Allocator;

/// The call would look more often than it may.
#[derive(Clone, Copy, Debug, PartialEq, Eq)]
pub struct Cut;

/// How often was looked, and how often may be.
#[derive(Drop)]
pub struct Looks {
    meter: Meter,
    most: u64,
    ghost within: { meter ≤ most },
}

impl Looks {
    /// No look yet, and at most so many.
    pub fn new(most: u64) -> Looks
        ensures { result.most ≡ most }
    {
        Looks {
            meter: Meter::new(),
            most,
        }
    }

    /// How many were made.
    pub fn count(&self) -> u64
        ensures value { result ≡ self.now.meter }
        ensures within { result ≤ self.now.most }
    {
        let most = self.most;
        self.meter.count().min(u128::from(most)) as u64
    }

    /// How many may still be made.
    pub fn left(&self) -> u64
        ensures { result + self.now.meter ≡ self.now.most }
    {
        self.most - self.count()
    }

    /// The least length of a step from a cube on which it may start, or 21 if it is more than 20.
    #[inline(never)]
    pub fn distance<A: Allocator>(&mut self, tables: &Tables<A>, cube: &Cube) -> Result<u8, Cut>
        requires { IsTrue (may_start tables.now (map_of cube.now)) }
        ensures most { self.new.most ≡ self.old.most }
        ensures length { IfOk result (λ length. length ≤ 21) }
        ensures value { IfOk result (λ length. length ≡ distance_of tables.now (map_of cube.now)) }
    {
        let most = self.most;
        if self.meter.count() >= u128::from(most) {
            return Err(Cut);
        }
        Ok(tables.look(&tables.position(cube), &mut self.meter))
    }

    /// Hands out the wanted solutions, and returns how many they are: none if the step may not start on the cube.
    pub fn search<K: PairSink, A: Allocator>(
        &mut self,
        tables: &Tables<A>,
        cube: &Cube,
        wanted: PairsWanted,
        sink: &mut K,
    ) -> Result<u128, Stopped<K::Fault>>
        ensures most { self.new.most ≡ self.old.most }
        ensures solutions { Searched K.took K.refused (may_start tables.now (map_of cube.now))
            (pairs_with tables.now (map_of cube.now) wanted.ends wanted.sides wanted.length)
            (looks_with tables.now (map_of cube.now) wanted.ends wanted.sides wanted.length)
            self.old.meter self.new.meter sink.old sink.new is_cut_in (λ count. count) result }
    {
        if !tables.step().may_start(cube) {
            return Ok(0);
        }
        self.search_from(tables, cube, wanted, sink)
    }

    /// The same from a cube on which the step may start.
    pub fn search_from<K: PairSink, A: Allocator>(
        &mut self,
        tables: &Tables<A>,
        cube: &Cube,
        wanted: PairsWanted,
        sink: &mut K,
    ) -> Result<u128, Stopped<K::Fault>>
        requires { IsTrue (may_start tables.now (map_of cube.now)) }
        ensures most { self.new.most ≡ self.old.most }
        ensures solutions { Searched K.took K.refused (may_start tables.now (map_of cube.now))
            (pairs_with tables.now (map_of cube.now) wanted.ends wanted.sides wanted.length)
            (looks_with tables.now (map_of cube.now) wanted.ends wanted.sides wanted.length)
            self.old.meter self.new.meter sink.old sink.new is_cut_in (λ count. count) result }
    {
        let most = self.most;
        let left = u128::from(most) - self.meter.count();
        let from = StepFrom { tables, cube };
        search_pairs_of_length(&from, wanted, &mut self.meter, sink, left)
    }
}
