//! What steps of an attempt do to the corners of the cube.
ghost use Rattle.std.specs.Prelude.{◌≡◌, ◌<◌, ◌≤◌, ◌+◌, ◌-◌, ℕ, not, true, false, List, [], ◌++◌, ◌&&◌, ◌||◌, Ok, map, IfSome, length};
ghost use Rattle.niss_moves.specs.Effects.{inverse};
ghost use Rattle.niss_moves.specs.Line.{Moves, joined_moves};
ghost use Rattle.niss_moves.specs.Reader.{read_line};
ghost use Rattle.niss_attempts.specs.Corners.{Brings, Reads, has_bracket, AreBounds, AreSteps, IsAround, IsAroundPart, IsAttempt, IsTail, AreTails};
ghost use Rattle.niss_attempts.specs.DeadSteps.{AreParted, IsParted, Rests, StandsNowhere, StaysDead};
ghost use Rattle.niss_attempts.specs.Parts.{read_byte, arranged, bare_step, repeated, solves_line, solves_part, solves_so_often, steps_line, part, in_brackets_if, most_step_bytes, most_bounds, most_steps};
ghost use Rattle.niss_attempts.specs.declared.steps.reading.Reading.TheVariants.{AsWritten};

use crate::steps::bounds::{MOST_BOUNDS, MOST_STEPS};
use crate::steps::cube_corners::Corners;
use crate::steps::dead::{are_parted, stands_nowhere};
use crate::steps::parts::How;
use crate::steps::reading::{Reading, feed};
use crate::steps::sets::StepSet;
use crate::stretch::stretch;
use arrayvec::ArrayVec;
use niss_lines::has_brackets;
use niss_moves::laws::{line_is_read, one_reading, rotated_is_tested};
use niss_moves::{LineReader, Niss, unniss};

/// Whether both hold.
fn both(one: bool, other: bool) -> bool
    ensures { result ≡ (one && other) }
{
    one && other
}

/// Whether one holds.
fn either(one: bool, other: bool) -> bool
    ensures { result ≡ (one || other) }
{
    one || other
}

/// What bytes of a line do to the corners.
#[derive(Clone, Copy, Default)]
pub struct StepCorners {
    /// Their moves outside brackets.
    pub normal: Corners,
    /// The inverse of these.
    pub undone: Corners,
    /// The inverse of those in brackets.
    pub inverse: Corners,
    /// Whether no bracket opens there.
    pub plain: bool,
    /// Whether no line of steps can be read in which they stand. They aren't plain then.
    pub is_dead: bool,
}

impl StepCorners {
    /// No bytes do nothing.
    #[inline(never)]
    pub fn nothing() -> StepCorners
        ensures { Reads [] result }
    {
        StepCorners {
            normal: Corners::HOME,
            undone: Corners::HOME,
            inverse: Corners::HOME,
            plain: true,
            is_dead: false,
        }
    }

    /// Bytes that can't be read.
    #[inline(never)]
    fn dead() -> StepCorners
        ensures { (bytes : List ℕ) → StandsNowhere bytes → Reads bytes result }
    {
        StepCorners {
            normal: Corners::NOWHERE,
            undone: Corners::NOWHERE,
            inverse: Corners::NOWHERE,
            plain: false,
            is_dead: true,
        }
    }

    /// The moves of a line do this.
    #[inline(never)]
    fn of(line: &Niss, plain: bool) -> StepCorners
        ensures normal { Brings result.normal.to line.now.normal }
        ensures undone { Brings result.undone.to (inverse line.now.normal) }
        ensures inverse { Brings result.inverse.to (inverse line.now.bracketed) }
        ensures plain { result.plain ≡ plain }
        ensures lives { result.is_dead ≡ false }
    {
        StepCorners {
            normal: Corners::after(line.normal()),
            undone: Corners::after_inverse(line.normal()),
            inverse: Corners::after_inverse(line.inverse()),
            plain,
            is_dead: false,
        }
    }

    /// These bytes and then others.
    #[inline(never)]
    pub fn then(&self, next: &StepCorners) -> StepCorners
        ensures { (bytes more : List ℕ) → Reads bytes self.now → Reads more next.now → StaysDead bytes more → Reads (bytes ++ more) result }
    {
        StepCorners {
            normal: self.normal.then(&next.normal),
            undone: next.undone.then(&self.undone),
            inverse: next.inverse.then(&self.inverse),
            plain: both(self.plain, next.plain),
            is_dead: either(self.is_dead, next.is_dead),
        }
    }

    /// The moves of this step and of later ones outside brackets, and then the inverse of those inside. The step stands in
    /// brackets or not; if it has some, none stand around it.
    #[inline(never)]
    pub fn with_later(&self, later: &Corners, in_brackets: bool) -> Corners
        ensures { (bytes more : List ℕ) → Reads bytes self.now → IsTail more later.now.to → StaysDead bytes more →
            IsTail (in_brackets_if in_brackets bytes ++ more) result.to }
    {
        if self.is_dead {
            return Corners::NOWHERE;
        }
        if !in_brackets {
            return self.normal.then(&later.then(&self.inverse));
        }
        if !self.plain {
            return Corners::NOWHERE;
        }
        later.then(&self.undone)
    }

    /// The same of moves that are made twice or three times.
    fn repeated(&self, later: &Corners, thrice: bool) -> Corners
        ensures { (bytes more : List ℕ) → Reads bytes self.now → IsTail more later.now.to → IsParted bytes more →
            IsTail (repeated thrice bytes ++ more) result.to }
    {
        let twice = self.with_later(&self.with_later(later, false), false);
        if !thrice {
            return twice;
        }
        self.with_later(&twice, false)
    }
}

/// Whether no bracket opens in a step once it is read.
fn is_plain(step: &[u8], reading: Reading) -> bool
    ensures { result ≡ not (has_bracket (map (read_byte reading) step.now)) }
{
    match reading {
        Reading::AsWritten => !has_brackets(step),
        Reading::WithoutBrackets => true,
        Reading::InCapitals => !has_brackets(step),
    }
}

/// What a step does, if it is a line by itself, or in none.
#[inline(never)]
pub fn corners_of_step(step: &[u8], reading: Reading) -> Option<StepCorners>
    requires room { length step.now ≤ most_step_bytes }
    ensures { IfSome result (λ corners. Reads (map (read_byte reading) step.now) corners) }
{
    line_is_read();
    let mut reader = LineReader::new();
    feed(&mut reader, step, reading);
    match reader.end() {
        Ok(()) => Some(StepCorners::of(reader.moves(), is_plain(step, reading))),
        Err(_) if stands_nowhere(step, reading) => Some(StepCorners::dead()),
        Err(_) => None,
    }
}

/// Adds what each step does, and says whether each is a line by itself, or in none.
fn are_lines(text: &[u8], bounds: &[usize], steps: &mut ArrayVec<StepCorners, MOST_STEPS>) -> bool
    requires room { length text.now ≤ most_step_bytes }
    requires few { (0 < length bounds.now) × (length bounds.now ≤ most_bounds) }
    requires bounds { AreBounds bounds.now }
    requires none { steps.old.items ≡ [] }
    ensures number { length bounds.now ≡ length steps.new.items + 1 }
    ensures are { result ≡ true → AreSteps text.now bounds.now steps.new.items }
{
    let mut all = true;
    for at in 1..bounds.len() {
        match corners_of_step(
            stretch(text, bounds[at - 1], bounds[at]),
            Reading::AsWritten,
        ) {
            Some(step) => steps.push(step),
            None => {
                steps.push(StepCorners::nothing());
                all = false;
            }
        }
    }
    all
}

/// Works out anew what the steps from each one on do, of the first so many, if some stand in brackets.
#[inline(never)]
pub fn renew(steps: &[StepCorners], tails: &mut [Corners; MOST_BOUNDS], set: StepSet, count: usize)
    requires { (count ≤ length steps.now) × (length steps.now ≤ most_steps) }
    ensures { (text bounds : List ℕ) → AreSteps text bounds steps.now → AreParted text bounds → AreTails text bounds set count tails.old →
        AreTails text bounds set 0 tails.new }
{
    for step in (0..count).rev() {
        tails[step] = steps[step].with_later(&tails[step + 1], set.has(step));
    }
}

/// Whether a line whose moves bring corners so may solve a scramble: whether all together only turn the whole cube.
#[inline(never)]
fn corners_may_solve(scramble: &Corners, line: &Corners) -> bool
    ensures { (moves : Moves) (bytes : List ℕ) → Brings scramble.now.to (joined_moves moves) → IsTail bytes line.now.to →
        result ≡ false → solves_line (Ok moves) (read_line bytes) ≡ false }
{
    line_is_read();
    one_reading();
    rotated_is_tested();
    scramble.two_stay(line) && scramble.then(line).may_be_rotated()
}

/// What a scramble and the steps of an attempt do to the corners.
#[derive(Drop)]
pub struct AttemptCorners {
    pub scramble: Corners,
    pub steps: ArrayVec<StepCorners, MOST_STEPS>,
    /// The steps from each one on, as they stand.
    pub tails: [Corners; MOST_BOUNDS],
    /// Whether each step is a line by itself, or in none. Else nothing is known of them.
    pub are_lines: bool,
}

impl AttemptCorners {
    /// Of steps that begin and end at these places.
    pub fn of(scramble: &Niss, text: &[u8], bounds: &[usize]) -> AttemptCorners
        requires room { length text.now ≤ most_step_bytes }
        requires few { (0 < length bounds.now) × (length bounds.now ≤ most_bounds) }
        requires bounds { AreBounds bounds.now }
        ensures { IsAttempt result scramble.now text.now bounds.now }
    {
        let mut steps = ArrayVec::new();
        let are_lines = both(
            are_lines(text, bounds, &mut steps),
            are_parted(text, bounds),
        );
        let count = steps.len();
        let mut tails = [Corners::NOWHERE; MOST_BOUNDS];
        tails[count] = Corners::HOME;
        renew(steps.as_slice(), &mut tails, StepSet::EMPTY, count);
        AttemptCorners {
            scramble: Corners::after(unniss(scramble).as_slice()),
            steps,
            tails,
            are_lines,
        }
    }

    /// Whether a line whose moves bring corners so may solve the scramble.
    #[inline(never)]
    pub fn may_solve(&self, line: &Corners) -> bool
        ensures { (scramble : Moves) (bytes : List ℕ) → Brings self.now.scramble.to (joined_moves scramble) →
            (self.now.are_lines ≡ true → IsTail bytes line.now.to) → result ≡ false → solves_line (Ok scramble) (read_line bytes) ≡ false }
    {
        !self.are_lines || corners_may_solve(&self.scramble, line)
    }
}

/// What the steps before some do to the corners, these, and all after them.
#[derive(Clone, Copy)]
pub struct Around<'a> {
    pub attempt: &'a AttemptCorners,
    pub before: StepCorners,
    pub own: StepCorners,
    pub after: Corners,
}

impl<'a> Around<'a> {
    /// No steps, before all.
    #[inline(never)]
    pub fn begin(attempt: &'a AttemptCorners) -> Around<'a>
        ensures { (scramble : Moves) (text bounds : List ℕ) → IsAttempt attempt.now scramble text bounds → IsAroundPart scramble text bounds 0 0 result }
    {
        Around {
            attempt,
            before: StepCorners::nothing(),
            own: StepCorners::nothing(),
            after: attempt.tails[0],
        }
    }

    /// One step more, which has this number.
    #[inline(never)]
    pub fn longer(&self, step: usize) -> Around<'a>
        requires { step < length self.now.attempt.now.steps.items }
        ensures { (scramble : Moves) (text bounds : List ℕ) (first : ℕ) → IsAroundPart scramble text bounds first step self.now →
            IsAroundPart scramble text bounds first (step + 1) result }
    {
        Around {
            own: self.own.then(&self.attempt.steps[step]),
            after: self.attempt.tails[step + 1],
            ..*self
        }
    }

    /// No steps, after these.
    #[inline(never)]
    pub fn passed(&self) -> Around<'a>
        ensures { (scramble : Moves) (text bounds : List ℕ) (first end : ℕ) → IsAroundPart scramble text bounds first end self.now →
            IsAroundPart scramble text bounds end end result }
    {
        Around {
            before: self.before.then(&self.own),
            own: StepCorners::nothing(),
            ..*self
        }
    }

    /// Where the moves of the line that is made so bring the corners.
    fn line(&self, how: How) -> Corners
        ensures { (before own after : List ℕ) → IsAround self.now before own after → IsParted before (own ++ after) → IsParted own after →
            IsTail (arranged how before own after) result.to }
    {
        match how {
            How::Alone => self.own.with_later(&Corners::HOME, false),
            How::LeftOut => self.before.with_later(&self.after, false),
            How::InBrackets => {
                let later = self.own.with_later(&self.after, true);
                self.before.with_later(&later, false)
            }
        }
    }

    /// Whether that line may solve the scramble.
    #[inline(never)]
    pub fn may_arrange(&self, how: How) -> bool
        ensures { (scramble : Moves) (text bounds : List ℕ) (first end : ℕ) → IsAroundPart scramble text bounds first end self.now →
            result ≡ false → solves_part (Ok scramble) text bounds (part how first end) ≡ false }
    {
        self.attempt.may_solve(&self.line(how))
    }

    /// Whether all steps may solve the scramble with bytes that do this between them, where none of them stands.
    #[inline(never)]
    pub fn may_insert(&self, own: &StepCorners) -> bool
        ensures { (scramble : Moves) (text bounds : List ℕ) (number : ℕ) (bytes : List ℕ) → IsAroundPart scramble text bounds number number self.now →
            number + 1 < length bounds → Reads bytes own.now → Rests bytes → result ≡ false →
            solves_line (Ok scramble) (read_line (steps_line text bounds 0 number ++ bytes ++ steps_line text bounds number (length bounds - 1))) ≡ false }
    {
        let later = own.with_later(&self.after, false);
        self.attempt
            .may_solve(&self.before.with_later(&later, false))
    }

    /// Whether all steps may solve the scramble if their own one does this without its brackets, and is made so often.
    #[inline(never)]
    pub fn may_repeat(&self, bare: &StepCorners, thrice: bool) -> bool
        ensures { (scramble : Moves) (text bounds : List ℕ) (step : ℕ) → IsAroundPart scramble text bounds step (step + 1) self.now →
            Reads (bare_step text bounds step) bare.now → result ≡ false → solves_so_often (Ok scramble) text bounds step thrice ≡ false }
    {
        let later = bare.repeated(&self.after, thrice);
        self.attempt
            .may_solve(&self.before.with_later(&later, false))
    }
}
