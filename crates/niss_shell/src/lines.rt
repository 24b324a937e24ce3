//! The lines of a run, and how each is answered.
ghost use Rattle.std.specs.Prelude.{◌≡◌, slice_index, ◌+◌, ◌^◌, ◌<◌, ◌≤◌, false, Err, [], length, take, OnOk, OnErr, IfOk};
ghost use Rattle.niss_shell.specs.Device.{Calls, End};
ghost use Rattle.niss_moves.specs.Reader.{IsFed};
ghost use Rattle.niss_shell.specs.Lines.{line_feed, HasNo};
ghost use Rattle.niss_shell.specs.Words.{most_bytes};

use crate::device::{Source, Target};
use crate::line_command::{LineCommand, rewrite, start_position};
use crate::output::Output;
use crate::stop::{LineFault, Stop};
use niss_moves::LineReader;
use niss_search::laws::counts_and_bounds;
use niss_search::{Meter, Tables};
use std::alloc::Allocator;

/// The most bytes of input, and so of a line.
pub const MOST_BYTES: usize = 16_777_216;

/// How many bytes a read asks for.
const BLOCK: usize = 4096;

/// How many bytes come before the first line feed, or all if there is none.
fn line_length(bytes: &[u8]) -> usize
    ensures within { result ≤ length bytes.now }
    ensures inside { HasNo line_feed (take result bytes.now) }
    ensures ends { result < length bytes.now → slice_index bytes.now result ≡ line_feed }
{
    match bytes.iter().position(|byte| *byte == b'\n') {
        Some(length) => length,
        None => bytes.len(),
    }
}

/// The lines of a run: what is done with each, the looks, and the line that is being read, with its number.
#[derive(Drop)]
pub struct Lines<'a, A: Allocator> {
    command: &'a LineCommand<Tables<A>>,
    looks: &'a mut Meter,
    reader: LineReader,
    line: u32,
}

impl<'a, A: Allocator + Copy> Lines<'a, A> {
    ghost use Rattle.niss_moves.specs.Reader.{moves_of};
    ghost use Rattle.niss_shell.specs.Engine.{MayBegin, Answers, AnswersSource, HasRoom, piece_of, only_stop};
    ghost use Rattle.niss_shell.specs.Output.{answer_lines, answer_to, fault_answer};
    ghost use Rattle.niss_shell.specs.Engine.{Keeps, MayTake, Rises, IsFirst, AnswersOpenLine, Takes, Ends};
    ghost use Rattle.niss_shell.specs.Engine.{answers_of, lines_state, progress_of};

    /// The first line, of which nothing was read.
    pub fn new(command: &'a LineCommand<Tables<A>>, looks: &'a mut Meter) -> Lines<'a, A>
        ensures command { result.command.now ≡ command.now }
        ensures same_meter { result.looks.ghost_name ≡ looks.entry.ghost_name }
        ensures looks { result.looks.now ≡ looks.old }
        ensures first { IsFirst (progress_of result) }
    {
        Lines {
            command,
            looks,
            reader: LineReader::new(),
            line: 1,
        }
    }

    /// Writes what waits, and returns what stops the run: the fault of the line, or the refused write.
    fn refuse<W: Target>(&self, fault: LineFault, output: &mut Output<W>) -> Stop
        ensures refused { Answers W.call (fault_answer self.now.line fault) (Err result)
            (lines_state output.old self.now) (lines_state output.new self.now) }
        ensures empty { output.new.pending.items ≡ [] }
    {
        if let Err(refusal) = output.send() {
            return Stop::from(refusal);
        }
        Stop::Line {
            line: self.line,
            fault,
        }
    }

    /// Takes the answer to the moves that were read after what waits. Without a search, and for its counts, it waits too;
    /// each solution is written as it is found.
    fn answer<W: Target>(&mut self, output: &mut Output<W>) -> Result<(), Stop>
        requires meter { self.old.looks.now ≤ 2 ^ 127 }
        ensures keeps { Keeps self.old self.new }
        ensures answers { Answers W.call
            (answer_to self.old.command.now self.old.line (Ok (moves_of self.old.reader))) result
            (lines_state output.old self.old) (lines_state output.new self.new) }
        ensures empty { OnErr result (output.new.pending.items ≡ []) }
        ensures meter { self.new.looks.now ≤ self.old.looks.now + 2 ^ 93 }
        ensures reader { self.new.reader ≡ self.old.reader }
        ensures line { self.new.line ≡ self.old.line }
    {
        match self.command {
            LineCommand::Rewrite(rewriting) => {
                rewrite(*rewriting, self.reader.moves(), &mut output.next);
                Ok(output.put()?)
            }
            LineCommand::Search(tables, query) => {
                counts_and_bounds();
                // this call shows that the limit is at most 20, which bounds the looks
                let _at_most_20 = query.limit().get();
                let Some(position) = start_position(tables, self.reader.moves()) else {
                    return Err(self.refuse(LineFault::NoStart(tables.step()), output));
                };
                Ok(query.answer(tables, &position, output, self.looks)?)
            }
        }
    }

    /// Takes the answer to the line after what waits, and begins the next one.
    fn end_line<W: Target>(&mut self, output: &mut Output<W>) -> Result<(), Stop>
        requires ready { MayTake 0 self.old }
        ensures keeps { Keeps self.old self.new }
        ensures answers { AnswersOpenLine W.call result self.old
            (lines_state output.old self.old) (lines_state output.new self.new) }
        ensures empty { OnErr result (output.new.pending.items ≡ []) }
        ensures reader { OnOk result (IsFed self.new.reader []) }
        ensures line { OnOk result (self.new.line ≡ self.old.line + 1) }
        ensures meter { OnOk result (HasRoom self.new.line self.new.looks.now) }
    {
        if let Err(fault) = self.reader.end() {
            return Err(self.refuse(LineFault::Unread(fault), output));
        }
        self.answer(output)?;
        self.reader.clear();
        self.line += 1;
        Ok(())
    }

    /// Takes what comes before the next line feed, or that line feed, and returns how many bytes these are.
    #[tactic(auto, using(crate::proofs::EngineLemmas::inside_taken))]
    fn take_piece<W: Target>(&mut self, bytes: &[u8], output: &mut Output<W>) -> Result<usize, Stop>
        requires some { 0 < length bytes.now }
        requires ready { MayTake (length bytes.now) self.old }
        ensures keeps { Keeps self.old self.new }
        ensures count { IfOk result (λ n. (0 < n) × (n ≤ length bytes.now)) }
        ensures takes { Takes W.call (take (piece_of result) bytes.now) (only_stop result) self.old self.new
            (lines_state output.old self.old) (lines_state output.new self.new) }
        ensures empty { OnErr result (output.new.pending.items ≡ []) }
        ensures rises { IfOk result (λ n. Rises n self.old self.new) }
    {
        if bytes[0] == b'\n' {
            self.end_line(output)?;
            return Ok(1);
        }
        // a line is judged at its end
        let count = line_length(bytes);
        self.reader.feed_all(&bytes[..count]);
        Ok(count)
    }

    /// Takes the next bytes of the input, and writes the answers to the lines that they end.
    fn take_block<W: Target>(&mut self, bytes: &[u8], output: &mut Output<W>) -> Result<(), Stop>
        requires ready { MayTake (length bytes.now) self.old }
        ensures keeps { Keeps self.old self.new }
        ensures takes { Takes W.call bytes.now result self.old self.new
            (lines_state output.old self.old) (lines_state output.new self.new) }
        ensures empty { output.new.pending.items ≡ [] }
        ensures rises { OnOk result (Rises (length bytes.now) self.old self.new) }
    {
        let mut index = 0;
        while index < bytes.len() {
            index += self.take_piece(&bytes[index..], output)?;
        }
        Ok(output.send()?)
    }

    /// Takes the end of the input. A last line counts if it has a byte.
    #[tactic(auto, using(crate::proofs::EngineLemmas::no_last, crate::proofs::EngineLemmas::last_line))]
    fn take_end<W: Target>(&mut self, output: &mut Output<W>) -> Result<(), Stop>
        requires empty { output.old.pending.items ≡ [] }
        requires ready { MayTake 0 self.old }
        ensures keeps { Keeps self.old self.new }
        ensures ends { Ends W.call result self.old
            (lines_state output.old self.old) (lines_state output.new self.new) }
        ensures empty { output.new.pending.items ≡ [] }
    {
        if self.reader.fed() == 0 {
            return Ok(());
        }
        self.end_line(output)?;
        Ok(output.send()?)
    }

    /// Reads the source from the first line on, and writes the answer to each line.
    pub fn read<S: Source, W: Target>(
        &mut self,
        source: &mut S,
        output: &mut Output<W>,
    ) -> Result<(), Stop>
        requires begins { MayBegin (S.state source.old) (lines_state output.old self.old) }
        requires first { IsFirst (progress_of self.old) }
        ensures keeps { Keeps self.old self.new }
        ensures answers { AnswersSource W.call (answers_of self.old) result
            (Calls S.call source.old source.new)
            (lines_state output.old self.old) (lines_state output.new self.new) }
        ensures empty { output.new.pending.items ≡ [] }
    {
        let mut block = [0u8; BLOCK];
        let mut count = 0usize;
        loop {
            let Ok(given) = source.read(&mut block) else {
                return Err(Stop::CannotRead);
            };
            if given == 0 {
                return self.take_end(output);
            }
            let room = MOST_BYTES - count;
            if given > room {
                self.take_block(&block[..room], output)?;
                return Err(Stop::InputTooLong);
            }
            self.take_block(&block[..given], output)?;
            count += given;
        }
    }

    /// Writes the answer to each line of a text, from the first line on.
    #[tactic(auto, using(crate::proofs::AnswerLemmas::text_laws))]
    pub fn take_text<W: Target>(&mut self, text: &[u8], output: &mut Output<W>) -> Result<(), Stop>
        requires fits { length text.now ≤ most_bytes }
        requires first { IsFirst (progress_of self.old) }
        requires meter { self.old.looks.now ≤ 2 ^ 64 }
        ensures keeps { Keeps self.old self.new }
        ensures answers { Answers W.call (answer_lines (answers_of self.old) text.now End) result
            (lines_state output.old self.old) (lines_state output.new self.new) }
        ensures empty { output.new.pending.items ≡ [] }
    {
        self.take_block(text, output)?;
        self.take_end(output)
    }
}
