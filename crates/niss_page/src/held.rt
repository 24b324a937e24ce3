//! What a host holds: tables in memory that was lent for good, or none, and their pointer.
ghost use Rattle.std.specs.Prelude.{◌≡◌, Bool, true, false, MatchOption};
ghost use Rattle.niss_page.specs.Ownership.{TheStep, step_coded, kept_owns};

use crate::arena::{Arena, LentTables, arena_in, tables_in};
use crate::room::Room;
use niss_cube::Step;
use niss_ways::HoldsTables;
use std::marker::Model;
use std::ptr::null_mut;

/// The pointer of tables that stay. If it isn't full it points to nothing.
#[repr(C)]
#[derive(Drop)]
pub struct Kept {
    at: *mut u8,
    pub ghost full: { Bool },
    pub ghost step: { TheStep } by { step_coded },
}

impl Model for Kept {
    ghost also_owns = { λ l. kept_owns l.full l.at l.step };
}

impl Kept {
    /// No tables.
    fn none() -> Kept
        ensures { result.full ≡ false }
    {
        Kept { at: null_mut() }
    }

    /// These tables.
    fn of(tables: &'static LentTables) -> Kept
        ensures { (result.full ≡ true) × (result.step ≡ tables.now) }
    {
        Kept {
            at: tables as *const LentTables as *mut u8,
        }
    }

    /// The tables.
    fn get(&self) -> &'static LentTables
        requires { self.now.full ≡ true }
        ensures { result.now ≡ self.now.step }
    {
        unsafe { &*(self.at as *const LentTables) }
    }
}

/// Tables of a step, or none. All zeros are none. A copy of it is as good as itself.
#[repr(C)]
#[derive(Drop)]
pub struct Held {
    pub kept: Kept,
    pub built: bool,
    ghost agrees: { kept.full ≡ built },
}

impl Held {
    /// No tables.
    pub(crate) fn none() -> Held
        ensures { result.built ≡ false }
    {
        Held {
            kept: Kept::none(),
            built: false,
        }
    }

    /// Tables that stay.
    fn of(tables: &'static LentTables) -> Held
        ensures { (result.built ≡ true) × (result.kept.step ≡ tables.now) }
    {
        Held {
            kept: Kept::of(tables),
            built: true,
        }
    }

    /// The tables, if there are some.
    pub(crate) fn tables(&self) -> Option<&'static LentTables>
        ensures { MatchOption result (self.now.built ≡ false)
            (λ tables. (self.now.built ≡ true) × (tables.now ≡ self.now.kept.step)) }
    {
        if self.built {
            Some(self.kept.get())
        } else {
            None
        }
    }

    /// Tables of a step, built in two rooms, which they keep for good; or none, if a room is too small.
    pub(crate) fn build(small: Room, large: Room, step: Step) -> Held
        ensures { result.built ≡ true → result.kept.step ≡ step }
    {
        let Some(arena) = arena_in(small, large) else {
            return Held::none();
        };
        match tables_in(arena, step) {
            Some(tables) => Held::of(tables),
            None => Held::none(),
        }
    }
}

impl HoldsTables for Held {
    ghost use Rattle.niss_page.specs.IsTable.{IsTable};

    type Alloc = &'static Arena;

    ghost is_table = { IsTable };

    fn tables_of<'a>(&'a self, step: Step) -> Option<&'a LentTables> {
        let tables = self.tables()?;
        if tables.step() == step {
            Some(tables)
        } else {
            None
        }
    }
}
