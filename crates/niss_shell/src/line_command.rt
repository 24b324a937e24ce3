//! What is done with each line: it is rewritten, or searched from its cube for solutions, which are written as they are found
//! or counted.
ghost use Rattle.std.specs.Prelude.{◌≡◌, ◌+◌, ◌≤◌, ◌^◌, ◌∷◌, ◌++◌, [], true, false, MatchOption, MatchResult, OnErr};
ghost use Rattle.niss_moves.specs.Effects.{effect};
ghost use Rattle.niss_moves.specs.Facelets.{letters};
ghost use Rattle.niss_moves.specs.Line.{joined_moves};
ghost use Rattle.niss_moves.specs.Places.{Place, SameMap};
ghost use Rattle.niss_moves.specs.Rotations.{spelling};
ghost use Rattle.niss_cube.specs.Map.{map_of};
ghost use Rattle.niss_cube.specs.Steps.{may_start, turns_of};
ghost use Rattle.niss_search.specs.Cubes.{IsPosition, HasPosition, near_looks_of};
ghost use Rattle.niss_search.specs.Solutions.{look_bound};
ghost use Rattle.niss_shell.specs.Lines.{line_feed};
ghost use Rattle.niss_shell.specs.Output.{Finds, home, limit_of, line_text, searched};
ghost use Rattle.niss_shell.specs.Words.{has_step};
ghost use Rattle.niss_shell.specs.Engine.{Reports};

use crate::command::Rewriting;
use crate::device::{DeviceFault, Target};
use crate::output::Output;
use crate::text::{put_text, set_count, set_end};
use niss_cube::laws::steps_see_places;
use niss_cube::{Cube, OutOfMemory, Rotation, Step};
use niss_moves::laws::same_letters;
use niss_moves::{LineText, Niss, put_inverted, put_niss_clean, put_unniss, to_faces, unniss};
use niss_search::{Limit, Meter, Outcome, Position, Sink, Tables, TurnPath, search};
use std::alloc::Allocator;
use std::convert::Infallible;

/// What is asked of a search.
#[derive(Clone, Copy)]
pub enum Query {
    /// Each solution of at most so many turns (the first limit), and of at most so many more than the shortest (the second).
    Solutions(Limit, Limit),
    /// The length of the shortest solutions of at most so many turns, how many they are, and how often the search looks at a
    /// position.
    Counts(Limit),
}

/// What is done with each line. `S` is the step of a search, or its tables.
#[derive(Drop)]
pub enum LineCommand<S> {
    Rewrite(Rewriting),
    Search(S, Query),
}

impl LineCommand<Step> {
    /// The same with the tables of the step.
    pub fn with_tables<A: Allocator + Copy>(
        self,
        alloc: A,
    ) -> Result<LineCommand<Tables<A>>, OutOfMemory>
        ensures { MatchResult result (λ ready. ready ≡ self) (λ _. has_step self ≡ true) }
    {
        match self {
            LineCommand::Rewrite(rewriting) => Ok(LineCommand::Rewrite(rewriting)),
            LineCommand::Search(step, query) => {
                // what fills the tables is no look at a line
                let tables = Tables::build_in(alloc, step, &mut Meter::new())?;
                Ok(LineCommand::Search(tables, query))
            }
        }
    }
}

/// The cube of a line's face turns, whose centres are home, and the rotation that is left.
pub fn cube_of(line: &Niss) -> (Cube, Rotation)
    ensures cube { SameMap (map_of result.0) (home line.now) }
    ensures rotated { SameMap (λ q. effect (spelling result.1) (map_of result.0 q))
        (effect (joined_moves line.now)) }
{
    let (turns, rotation) = to_faces(unniss(line).as_slice());
    let mut cube = Cube::solved();
    cube.apply(turns.as_slice());
    (cube, rotation)
}

/// The facelet text of a line.
fn facelets_of(line: &Niss) -> [u8; 54]
    ensures { result ≡ letters (effect (joined_moves line.now)) }
{
    same_letters();
    let (cube, rotation) = cube_of(line);
    cube.facelets(rotation)
}

/// Sets the text to what is written for a line without a search.
pub fn rewrite(rewriting: Rewriting, line: &Niss, text: &mut LineText)
    ensures { text.new.items ≡ line_text rewriting line.now ++ line_feed ∷ [] }
{
    text.clear();
    match rewriting {
        Rewriting::Invert => put_inverted(line, text),
        Rewriting::Unniss => put_unniss(line, text),
        Rewriting::Cleanup => put_niss_clean(line, text),
        Rewriting::Print => put_text(&facelets_of(line), text),
    }
    text.push(b'\n');
}

/// The position of a line's cube, if the step may start there.
pub fn start_position<A: Allocator>(tables: &Tables<A>, line: &Niss) -> Option<Position>
    ensures { MatchOption result
        (may_start tables.now (home line.now) ≡ false)
        (λ position. HasPosition tables.now (home line.now) position) }
{
    steps_see_places();
    let (cube, _) = cube_of(line);
    if tables.step().may_start(&cube) {
        Some(tables.position(&cube))
    } else {
        None
    }
}

/// Lets each solution go.
#[derive(Drop)]
struct Uncollected;

impl Sink for Uncollected {
    type Fault = Infallible;

    ghost took = { λ old path new. Unit {0} };

    ghost refused = { λ old path new. ⊥ };

    fn take(&mut self, _path: &TurnPath) -> Result<(), Infallible> {
        Ok(())
    }
}

/// Counts the solutions from a position, and its looks.
pub fn count_solutions<A: Allocator + Copy>(
    tables: &Tables<A>,
    position: &Position,
    limit: Limit,
    slack: Limit,
    looks: &mut Meter,
) -> Outcome
    requires position { IsPosition tables.now position.now }
    requires meter { looks.old ≤ 2 ^ 127 }
    ensures found { (e : Place → Place) → HasPosition tables.now e position.now →
        Finds tables.now limit slack e result }
    ensures looked { (e : Place → Place) → HasPosition tables.now e position.now →
        looks.new ≡ looks.old + near_looks_of tables.now e limit slack }
    ensures bound { looks.new ≤ looks.old + look_bound (turns_of tables.now) limit }
{
    let mut path = TurnPath::new(limit);
    let sink = &mut Uncollected;
    match search(tables, position, slack, &mut path, looks, sink) {
        Ok(outcome) => outcome,
        Err(never) => match never {},
    }
}

impl Query {
    /// The most turns of a solution.
    pub fn limit(self) -> Limit
        ensures { result ≡ limit_of self }
    {
        match self {
            Query::Solutions(limit, _) | Query::Counts(limit) => limit,
        }
    }

    /// Takes what is written of the search from a position. Each solution is written as it is found; that there are none, the
    /// empty line, and the counts wait.
    pub fn answer<A: Allocator + Copy, W: Target>(
        self,
        tables: &Tables<A>,
        position: &Position,
        output: &mut Output<W>,
        looks: &mut Meter,
    ) -> Result<(), DeviceFault>
        requires position { IsPosition tables.now position.now }
        requires meter { looks.old ≤ 2 ^ 127 }
        ensures empty { OnErr result (output.new.pending.items ≡ []) }
        ensures reports { (e : Place → Place) → HasPosition tables.now e position.now →
            Reports W.call result (searched tables.now self e) output.old output.new looks.old looks.new }
        ensures bound { looks.new ≤ looks.old + look_bound (turns_of tables.now) (limit_of self) }
    {
        match self {
            Query::Solutions(limit, slack) => {
                let mut path = TurnPath::new(limit);
                let outcome = search(tables, position, slack, &mut path, looks, output)?;
                set_end(outcome.solutions, limit, &mut output.next);
                output.put()
            }
            Query::Counts(limit) => {
                let before = looks.count();
                let outcome = count_solutions(tables, position, limit, Limit::ZERO, looks);
                set_count(outcome, looks.count() - before, &mut output.next);
                output.put()
            }
        }
    }
}
