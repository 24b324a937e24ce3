//! The tables of the nine steps on an axis.
ghost use Rattle.std.specs.Prelude.{◌≡◌, IfSome, MatchOption};
ghost use Rattle.niss_cube.specs.declared.step.Step as steps;
ghost use Rattle.niss_cube.specs.declared.step.Step.TheVariants.{Eofb, Eorl, Eoud, DrudEofb, DrrlEofb, DrudEorl, DrfbEorl, DrrlEoud, DrfbEoud};
ghost use Rattle.niss_ways.specs.HeldTables.{AreThree, AreTables, AreOf, AreAsked};

use niss_cube::{Axis, Step};
use niss_search::Tables;
use std::alloc::Allocator;

/// The tables of the orientation on an axis, and of the two reductions after it.
#[derive(Drop)]
pub struct AxisTables<'a, A: Allocator> {
    pub orientation: &'a Tables<A>,
    pub first: &'a Tables<A>,
    pub second: &'a Tables<A>,
}

/// The tables of each axis that is asked for. If one is of another step, ways are missing, and those that are there are
/// true.
#[derive(Drop)]
pub struct WayTables<'a, A: Allocator> {
    pub fb: Option<AxisTables<'a, A>>,
    pub rl: Option<AxisTables<'a, A>>,
    pub ud: Option<AxisTables<'a, A>>,
}

impl<'a, A: Allocator> WayTables<'a, A> {
    /// Those of an axis.
    pub(crate) fn on(&self, axis: Axis) -> Option<&AxisTables<'a, A>> {
        match axis {
            Axis::Fb => self.fb.as_ref(),
            Axis::Rl => self.rl.as_ref(),
            Axis::Ud => self.ud.as_ref(),
        }
    }

    /// Those of some axis.
    pub(crate) fn some(&self) -> Option<&AxisTables<'a, A>> {
        self.fb.as_ref().or(self.rl.as_ref()).or(self.ud.as_ref())
    }
}

/// What holds the tables of a step, or none.
pub trait HoldsTables {
    /// The memory that the tables are in.
    type Alloc: Allocator;

    /// There are tables, and of this step.
    ghost is_table: { Self → steps.Step → Type 0 };

    /// The tables, if they are those of this step.
    fn tables_of<'a>(&'a self, step: Step) -> Option<&'a Tables<Self::Alloc>>
        ensures held { MatchOption result (is_table self.now step → ⊥) (λ tables. is_table self.now step) }
        ensures of_step { IfSome result (λ tables. tables.now ≡ step) };
}

/// The tables on the axis of F and B, if they are these.
fn tables_on_fb<'a, H: HoldsTables>(held: &'a [H; 9]) -> Option<AxisTables<'a, H::Alloc>>
    ensures held { MatchOption result (AreThree H.is_table held.now 0 3 4 Eofb DrudEofb DrrlEofb → ⊥)
        (λ tables. AreThree H.is_table held.now 0 3 4 Eofb DrudEofb DrrlEofb) }
    ensures of_steps { IfSome result (λ tables. AreOf tables Eofb DrudEofb DrrlEofb) }
{
    Some(AxisTables {
        orientation: held[0].tables_of(Step::Eofb)?,
        first: held[3].tables_of(Step::DrudEofb)?,
        second: held[4].tables_of(Step::DrrlEofb)?,
    })
}

/// Those on the axis of R and L.
fn tables_on_rl<'a, H: HoldsTables>(held: &'a [H; 9]) -> Option<AxisTables<'a, H::Alloc>>
    ensures held { MatchOption result (AreThree H.is_table held.now 1 5 6 Eorl DrudEorl DrfbEorl → ⊥)
        (λ tables. AreThree H.is_table held.now 1 5 6 Eorl DrudEorl DrfbEorl) }
    ensures of_steps { IfSome result (λ tables. AreOf tables Eorl DrudEorl DrfbEorl) }
{
    Some(AxisTables {
        orientation: held[1].tables_of(Step::Eorl)?,
        first: held[5].tables_of(Step::DrudEorl)?,
        second: held[6].tables_of(Step::DrfbEorl)?,
    })
}

/// Those on the axis of U and D.
fn tables_on_ud<'a, H: HoldsTables>(held: &'a [H; 9]) -> Option<AxisTables<'a, H::Alloc>>
    ensures held { MatchOption result (AreThree H.is_table held.now 2 7 8 Eoud DrrlEoud DrfbEoud → ⊥)
        (λ tables. AreThree H.is_table held.now 2 7 8 Eoud DrrlEoud DrfbEoud) }
    ensures of_steps { IfSome result (λ tables. AreOf tables Eoud DrrlEoud DrfbEoud) }
{
    Some(AxisTables {
        orientation: held[2].tables_of(Step::Eoud)?,
        first: held[7].tables_of(Step::DrrlEoud)?,
        second: held[8].tables_of(Step::DrfbEoud)?,
    })
}

/// The tables of some axes, if they are there, in the order of the steps; the axes are 1 F and B, 2 R and L, and 4 U and D,
/// added.
pub fn tables_on<'a, H: HoldsTables>(held: &'a [H; 9], axes: u8) -> Option<WayTables<'a, H::Alloc>>
    ensures held { MatchOption result (AreTables H.is_table axes held.now → ⊥)
        (λ tables. AreTables H.is_table axes held.now) }
    ensures asked { IfSome result (AreAsked axes) }
{
    let mut tables = WayTables {
        fb: None,
        rl: None,
        ud: None,
    };
    if axes % 2 == 1 {
        tables.fb = Some(tables_on_fb(held)?);
    }
    if axes / 2 % 2 == 1 {
        tables.rl = Some(tables_on_rl(held)?);
    }
    if axes / 4 % 2 == 1 {
        tables.ud = Some(tables_on_ud(held)?);
    }
    Some(tables)
}
