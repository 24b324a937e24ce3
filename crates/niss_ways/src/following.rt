//! The reductions after orientations.
ghost use Rattle.std.specs.Prelude.{◌≡◌, ◌≤◌, [], ◌∷◌, IfSome, IfOk, OnOk};
ghost use Rattle.niss_cube.specs.BadPlaces.{bad_count};
ghost use Rattle.niss_cube.specs.Map.{map_of};
ghost use Rattle.niss_cube.specs.declared.cube.coordinate.Coordinate.TheVariants.{Twist, Slice};
ghost use Rattle.niss_cube.specs.Steps.{goals_of, edge_step_on};
ghost use Rattle.niss_cube.specs.declared.step.Goal.TheVariants.{Domino};
ghost use Rattle.niss_ways.specs.Truth.{IsWay, IsReduction};

use crate::looks::{Cut, Looks};
use crate::made::Made;
use crate::measured::Measured;
use crate::nearest::{Nearest, total_after};
use crate::oriented::Oriented;
use crate::solution::Solution;
use crate::start::Start;
use crate::way::{Part, Way, rank_by};
use niss_cube::{Axis, Coordinate, Cube, Step};
use niss_search::{Limit, PairsWanted, Sides, Stopped, Tables};
use std::alloc::Allocator;

/// The axis of the orientation that a reduction keeps, and its own.
#[derive(Clone, Copy, Debug, PartialEq, Eq)]
pub struct DominoAxes {
    pub edges: Axis,
    pub domino: Axis,
}

impl DominoAxes {
    /// Those of a step, if it is a reduction on one axis.
    pub fn of(step: Step) -> Option<DominoAxes>
        ensures { IfSome result (λ axes. goals_of step ≡ Domino axes.edges axes.domino ∷ []) }
    {
        let (edges, domino) = match step {
            Step::DrudEofb => (Axis::Fb, Axis::Ud),
            Step::DrrlEofb => (Axis::Fb, Axis::Rl),
            Step::DrudEorl => (Axis::Rl, Axis::Ud),
            Step::DrfbEorl => (Axis::Rl, Axis::Fb),
            Step::DrrlEoud => (Axis::Ud, Axis::Rl),
            Step::DrfbEoud => (Axis::Ud, Axis::Fb),
            _ => return None,
        };
        Some(DominoAxes { edges, domino })
    }

    /// The axis that is neither.
    pub fn third(self) -> Axis {
        match (self.edges, self.domino) {
            (Axis::Fb, Axis::Ud) | (Axis::Ud, Axis::Fb) => Axis::Rl,
            (Axis::Fb, Axis::Rl) | (Axis::Rl, Axis::Fb) => Axis::Ud,
            _ => Axis::Fb,
        }
    }
}

/// The case of a reduction on an axis: the bad corners, and the edges on the wrong side of the slice.
fn case_of(axis: Axis, cube: &Cube) -> (u16, u16)
    ensures corners { result.0 ≡ bad_count Twist axis (map_of cube.now) }
    ensures edges { result.1 ≡ bad_count Slice axis (map_of cube.now) }
    ensures few_corners { result.0 ≤ 12 }
    ensures few_edges { result.1 ≤ 12 }
{
    let corners = Coordinate::Twist.bad_places(axis, cube).count_ones();
    let edges = Coordinate::Slice.bad_places(axis, cube).count_ones();
    (corners as u16, edges as u16)
}

/// The step that orients the edges on an axis.
pub fn edge_step_on(axis: Axis) -> Step
    ensures { result ≡ edge_step_on axis }
{
    match axis {
        Axis::Fb => Step::Eofb,
        Axis::Rl => Step::Eorl,
        Axis::Ud => Step::Eoud,
    }
}

/// An orientation, a reduction after it, the cube between them, and the moves in all.
#[derive(Drop)]
pub struct Found {
    pub total: u16,
    orientation: Solution,
    reduction: Solution,
    from: Measured,
}

/// A reduction that is looked for after orientations.
#[derive(Drop)]
pub struct Following<'a, A: Allocator> {
    pub start: &'a Start,
    pub tables: &'a Tables<A>,
    pub axes: DominoAxes,
    ghost of_step: { goals_of tables.now ≡ Domino axes.edges axes.domino ∷ [] },
}

/// A cube after an orientation, on which a reduction may start, and what is made with the orientation.
#[derive(Drop)]
struct Between<'a, A: Allocator> {
    tables: &'a Tables<A>,
    made: Made,
    from: Measured,
    ghost of_step: { from.step ≡ tables.now },
    ghost small: { (made.count ≤ 1024) × (made.saving ≤ 2056) },
}

impl<'a, A: Allocator> Between<'a, A> {
    /// That of an orientation, if the reduction may start there.
    fn of(
        tables: &'a Tables<A>,
        after: &'a Oriented,
        looks: &mut Looks,
    ) -> Result<Option<Between<'a, A>>, Cut>
        ensures { looks.new.most ≡ looks.old.most }
    {
        let Some(from) = Measured::of(tables, &after.cube, &after.inverse, looks)? else {
            return Ok(None);
        };
        let made = after.made;
        Ok(Some(Between { tables, made, from }))
    }

    /// Searches for reductions on each side alone, and then over both.
    fn search_all(&self, nearest: &mut Nearest, looks: &mut Looks) -> Result<(), Cut>
        ensures { looks.new.most ≡ looks.old.most }
    {
        self.search(Sides::Normal, self.from.on_normal, nearest, looks)?;
        self.search(Sides::Inverse, self.from.on_inverse, nearest, looks)?;
        self.search_both(nearest, looks)
    }

    /// Searches for reductions of exactly so many turns, if they may come to fewer moves in all.
    fn search(
        &self,
        sides: Sides,
        length: u8,
        nearest: &mut Nearest,
        looks: &mut Looks,
    ) -> Result<(), Cut>
        ensures { looks.new.most ≡ looks.old.most }
    {
        let made = self.made;
        if made.count + u16::from(length) >= nearest.below.saturating_add(made.saving) {
            return Ok(());
        }
        let Some(length) = Limit::new(length) else {
            return Ok(());
        };
        let wanted = PairsWanted {
            sides,
            ends: nearest.ends(),
            length,
        };
        match looks.search_from(self.tables, &self.from.cube, wanted, nearest) {
            Err(Stopped::Cut) => Err(Cut),
            _ => Ok(()),
        }
    }

    /// Searches for the shortest reductions over both sides. If nothing merges, those that have all turns on one side
    /// were searched for already.
    fn search_both(&self, nearest: &mut Nearest, looks: &mut Looks) -> Result<(), Cut>
        ensures { looks.new.most ≡ looks.old.most }
    {
        let on_one = self.from.on_one();
        let end = if nearest.is_plain { on_one } else { on_one + 1 };
        nearest.is_seen = false;
        for length in 1..end {
            if !nearest.is_seen {
                self.search(Sides::Both, length, nearest, looks)?;
            }
        }
        Ok(())
    }
}

impl<'a, A: Allocator> Following<'a, A> {
    /// That of a reduction, if the tables are those of one.
    pub fn of(start: &'a Start, tables: &'a Tables<A>) -> Option<Following<'a, A>>
        ensures { IfSome result (λ following. following.start.now ≡ start.now) }
    {
        let axes = DominoAxes::of(tables.step())?;
        Some(Following {
            start,
            tables,
            axes,
        })
    }

    /// Whether a way with as many moves in all as another comes before it, if it begins with an orientation or one of its
    /// twins. The case is looked at only if their first steps are equally long.
    pub fn comes_before(&self, class: &Solution, other: &Way) -> bool {
        let length = u16::from(class.len());
        let rank = other.rank();
        if rank_by(other.total, length + 1, 0, 0) <= rank {
            return true;
        }
        if rank < rank_by(other.total, length, 0, 0) {
            return false;
        }
        let cube = class.cube_after(self.start.cube());
        let (corners, edges) = case_of(self.axes.domino, &cube);
        let step = edge_step_on(self.axes.edges) as u8;
        rank_by(other.total, length, corners + edges, step) < rank
    }

    /// At most so many moves there are in all with the best reduction after an orientation.
    pub fn at_most(&self, after: &Oriented, looks: &mut Looks) -> Result<u16, Cut>
        ensures { looks.new.most ≡ looks.old.most }
    {
        match Between::of(self.tables, after, looks)? {
            Some(between) => Ok(after.made.count + u16::from(between.from.on_one())),
            None => Ok(u16::MAX),
        }
    }

    /// The best reduction after an orientation, if it has fewer moves in all than a bound.
    pub fn after(
        &self,
        after: &Oriented,
        below: u16,
        looks: &mut Looks,
    ) -> Result<Option<Found>, Cut>
        ensures { looks.new.most ≡ looks.old.most }
    {
        let Some(between) = Between::of(self.tables, after, looks)? else {
            return Ok(None);
        };
        let mut nearest = Nearest {
            start: self.start,
            orientation: &after.solution,
            below,
            is_plain: after.made.saving == 0,
            is_seen: false,
            found: None,
        };
        between.search_all(&mut nearest, looks)?;
        let total = nearest.below;
        let Some(reduction) = nearest.found else {
            return Ok(None);
        };
        Ok(Some(Found {
            total,
            orientation: Solution::of(after.solution.normal(), after.solution.inverse()),
            reduction,
            from: between.from,
        }))
    }

    /// The row of an orientation and a reduction that were found. What it tells is tested once more, so a row is true
    /// whatever came before.
    pub fn row(&self, found: &Found) -> Option<Way>
        ensures { IfSome result (λ way. IsWay self.now.start.now way) }
    {
        let (orientation, cube) = (&found.orientation, self.start.cube());
        let step = edge_step_on(self.axes.edges);
        let between = orientation.cube_after(cube);
        let is_measured = found.from.is_of(self.tables.step(), &between);
        if !is_measured || !orientation.first_reaches(step, cube) {
            return None;
        }
        let eo = Part::of(self.start.names(), step, orientation);
        self.reduced(eo, orientation, &found.from, &found.reduction)
    }

    /// The row of a reduction if the orientation holds already.
    pub fn row_of_reduction(&self, reduction: &Solution, from: &Measured) -> Option<Way>
        ensures { IfSome result (λ way. IsWay self.now.start.now way) }
    {
        let cube = self.start.cube();
        if !edge_step_on(self.axes.edges).reached(cube) || !from.is_of(self.tables.step(), cube) {
            return None;
        }
        let nothing = Solution::of(&[], &[]);
        self.reduced(Part::none(), &nothing, from, reduction)
    }

    /// The row of a reduction after first moves, from the cube after these.
    fn reduced(
        &self,
        eo: Part,
        first: &Solution,
        from: &Measured,
        reduction: &Solution,
    ) -> Option<Way>
        requires { from.now.step ≡ self.now.tables.now }
        ensures eo { IfSome result (λ way. way.eo ≡ eo) }
        ensures reduction { IfSome result (λ way. IsReduction self.now.start.now self.now.axes.edges first.now from.now.cube way) }
    {
        let step = self.tables.step();
        if !reduction.first_reaches(step, &from.cube) {
            return None;
        }
        let total = total_after(self.start, first, reduction.normal(), reduction.inverse());
        let (corners, edges) = case_of(self.axes.domino, &from.cube);
        Some(Way {
            total,
            corners: corners as u8,
            edges: edges as u8,
            on_normal: from.on_normal,
            on_inverse: from.on_inverse,
            eo,
            dr: Part::of(self.start.names(), step, reduction),
        })
    }
}
