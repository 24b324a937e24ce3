//! Where the answers of a run go.
ghost use Rattle.std.specs.Prelude.{◌≡◌, true, false, [], OnErr};
ghost use Rattle.niss_shell.specs.Engine.{Delivers, TakesLine, FlushesLast};
ghost use Rattle.niss_shell.specs.Output.{solution_line};

use crate::device::{DeviceFault, Target};
use crate::stop::Stop;
use crate::text::{put_text, set_solution};
use crate::writing::write_all;
use niss_moves::LineText;
use niss_search::{Sink, TurnPath};

/// A target, and the answers that wait to be written to it.
#[derive(Drop)]
pub struct Output<'a, W> {
    target: &'a mut W,
    pending: LineText,
    /// The text that is put next. One serves all, since a new one would be zeroed for each.
    pub next: LineText,
}

impl<'a, W: Target> Output<'a, W> {
    /// The output to this target. No answer waits.
    pub fn new(target: &'a mut W) -> Output<'a, W>
        ensures same_target { result.target.ghost_name ≡ target.entry.ghost_name }
        ensures unchanged { result.target.now ≡ target.old }
        ensures empty { result.pending.items ≡ [] }
    {
        Output {
            target,
            pending: LineText::new(),
            next: LineText::new(),
        }
    }

    /// Writes what waits.
    #[inline(never)]
    pub fn send(&mut self) -> Result<(), DeviceFault>
        ensures same_target { self.new.target.ghost_name ≡ self.old.target.ghost_name }
        ensures sent { Delivers W.call result [] self.old self.new }
        ensures empty { self.new.pending.items ≡ [] }
        ensures next { self.new.next ≡ self.old.next }
    {
        let sent = write_all(self.target, self.pending.as_slice());
        self.pending.clear();
        sent
    }

    /// Takes the next text after what waits. If there is no room for it, what waits is written first.
    pub fn put(&mut self) -> Result<(), DeviceFault>
        ensures same_target { self.new.target.ghost_name ≡ self.old.target.ghost_name }
        ensures taken { Delivers W.call result self.old.next.items self.old self.new }
        ensures empty { OnErr result (self.new.pending.items ≡ []) }
    {
        if self.next.len() > self.pending.remaining_capacity() {
            self.send()?;
        }
        put_text(self.next.as_slice(), &mut self.pending);
        Ok(())
    }

    /// Writes what waits, and the next text after it.
    pub fn write(&mut self) -> Result<(), DeviceFault>
        ensures written { Delivers W.call result self.old.next.items self.old self.new }
        ensures empty { self.new.pending.items ≡ [] }
    {
        self.put()?;
        self.send()
    }

    /// Ends a run by its last flush. If that is refused, a good run ends with a fault.
    pub fn finish(&mut self, answered: Result<(), Stop>) -> Result<(), Stop>
        ensures same_target { self.new.target.ghost_name ≡ self.old.target.ghost_name }
        ensures flushes { FlushesLast W.call answered result
            self.old.target.now self.new.target.now }
    {
        // a run that was stopped is flushed too
        let flushed = self.target.flush();
        answered?;
        Ok(flushed?)
    }
}

impl<'a, W: Target> Sink for Output<'a, W> {
    type Fault = DeviceFault;

    ghost took = { λ old path new. TakesLine W.call false (solution_line path.turns) old new };

    ghost refused = { λ old path new. TakesLine W.call true (solution_line path.turns) old new };

    fn take(&mut self, path: &TurnPath) -> Result<(), DeviceFault> {
        set_solution(path, &mut self.next);
        self.write()
    }
}
