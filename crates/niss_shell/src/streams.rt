//! Devices over the readers and writers of `std::io`.
ghost use Rattle.std.specs.Prelude.{◌≡◌, ◌≤◌, ◌||◌, false, length, Ok, is_ok, is_err, IfOk, IsErr, MatchResult};
ghost use Rattle.niss_shell.specs.Device.{ReadShows, CallShows, Write, Flush, read_call, is_end, is_refused, source_state};
ghost use Rattle.niss_shell.specs.Device.{target_state};

use crate::device::{DeviceFault, Source, Target};
use std::io;

/// A source over a reader, whose bytes it shows.
#[derive(Drop)]
pub struct FromReader<R> {
    reader: R,
    failed: bool,
    ended: bool,
}

impl<R: io::Read> FromReader<R> {
    /// The source of the bytes that the reader will give. No flag is set.
    pub fn new(reader: R) -> FromReader<R>
        ensures { ⟦<FromReader<R> as Source>⟧.state result ≡ source_state (R.remaining reader) false false }
    {
        FromReader {
            reader,
            failed: false,
            ended: false,
        }
    }

    /// Sets the flags by what the reader returned for a request for the bytes of `buf`: every error is a failure, and none
    /// of some bytes the end.
    fn judge(&mut self, answer: io::Result<usize>, buf: &[u8]) -> Result<usize, DeviceFault>
        ensures answer { MatchResult result (λ count. answer ≡ Ok count) (λ _. IsErr answer) }
        ensures failed { self.new.failed ≡ (self.old.failed || is_err answer) }
        ensures ended { self.new.ended ≡ (self.old.ended || is_end (read_call result buf.now)) }
        ensures reader { self.new.reader ≡ self.old.reader }
    {
        match answer {
            Ok(count) => {
                if count == 0 && !buf.is_empty() {
                    self.ended = true;
                }
                Ok(count)
            }
            Err(_) => {
                self.failed = true;
                Err(DeviceFault)
            }
        }
    }
}

impl<R: io::Read> Source for FromReader<R> {
    ghost call = { λ s c t. ReadShows c (source_state (R.remaining s.reader) s.failed s.ended)
        (source_state (R.remaining t.reader) t.failed t.ended) };

    ghost state = { λ s. source_state (R.remaining s.reader) s.failed s.ended };

    fn read(&mut self, buf: &mut [u8]) -> Result<usize, DeviceFault> {
        let answer = self.reader.read(buf);
        self.judge(answer, buf)
    }

    fn failed(&self) -> bool {
        self.failed
    }

    fn ended(&self) -> bool {
        self.ended
    }

    ghost shown = { λ old new c did. did };
}

/// A target over a writer, whose bytes it shows.
#[derive(Drop)]
pub struct ToWriter<W> {
    writer: W,
    failed: bool,
}

impl<W: io::Write> ToWriter<W> {
    /// The target that holds what the writer does, without a fault.
    pub fn new(writer: W) -> ToWriter<W>
        ensures { ⟦<ToWriter<W> as Target>⟧.state result ≡ target_state (W.contents writer) false }
    {
        ToWriter {
            writer,
            failed: false,
        }
    }

    /// Sets the flag by what the writer returned for the piece: every error is a failure, and so is to take none of some
    /// bytes, as in the standard library's `write_all`.
    fn judge_write(&mut self, answer: io::Result<usize>, piece: &[u8]) -> Result<usize, DeviceFault>
        ensures answer { MatchResult result (λ count. answer ≡ Ok count) (λ _. IsErr answer) }
        ensures failed { self.new.failed ≡ (self.old.failed || is_refused result piece.now) }
        ensures writer { self.new.writer ≡ self.old.writer }
    {
        match answer {
            Ok(count) => {
                if count == 0 && !piece.is_empty() {
                    self.failed = true;
                }
                Ok(count)
            }
            Err(_) => {
                self.failed = true;
                Err(DeviceFault)
            }
        }
    }

    /// Sets the flag by what the writer returned for a flush: every error is a failure.
    fn judge_flush(&mut self, answer: io::Result<()>) -> Result<(), DeviceFault>
        ensures answer { is_ok result ≡ is_ok answer }
        ensures failed { self.new.failed ≡ (self.old.failed || is_err result) }
        ensures writer { self.new.writer ≡ self.old.writer }
    {
        match answer {
            Ok(()) => Ok(()),
            Err(_) => {
                self.failed = true;
                Err(DeviceFault)
            }
        }
    }
}

impl<W: io::Write> Target for ToWriter<W> {
    ghost call = { λ s c t. CallShows c (target_state (W.contents s.writer) s.failed)
        (target_state (W.contents t.writer) t.failed) };

    ghost state = { λ t. target_state (W.contents t.writer) t.failed };

    fn write(&mut self, piece: &[u8]) -> Result<usize, DeviceFault> {
        let answer = self.writer.write(piece);
        self.judge_write(answer, piece)
    }

    fn flush(&mut self) -> Result<(), DeviceFault> {
        let answer = self.writer.flush();
        self.judge_flush(answer)
    }

    fn failed(&self) -> bool {
        self.failed
    }

    ghost shown = { λ old new c did. did };
}
