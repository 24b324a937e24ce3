//! Devices in memory, which fail where a test says.
ghost use Rattle.std.specs.Prelude.{◌≡◌, ◌≤◌, false, Some, IfOk, length};
ghost use Rattle.niss_shell.specs.Device.{ReadShows, CallShows, read_call, source_state, target_state};

use crate::refusing::Refusing;
use linked_list_allocator::LocalHeap;
use niss_shell::{DeviceFault, Source, Target};
use std::alloc::Global;
use std::cell::Cell;
use std::io;

/// How many bytes the devices of a run move at most in a call, and which of their calls fails, by its number from 1.
#[derive(Clone, Copy)]
pub struct Devices<'a> {
    pub most_read: usize,
    pub failed_read: Option<usize>,
    pub most_written: usize,
    pub failed_write: Option<usize>,
    pub flush_fails: bool,
    pub most_reported: usize,
    pub failed_report: Option<usize>,
    /// The error of a failed call, if the run is given them as streams of `std::io`.
    pub stream_error: Option<io::ErrorKind>,
    /// What the run takes its memory of, if that isn't ample.
    pub memory: Option<&'a Refusing<&'a LocalHeap>>,
    /// What calls of both targets are numbered by, if they are.
    pub clock: Option<&'a Cell<usize>>,
}

/// Reads of a byte, all is taken, and no call fails.
pub const FAULTLESS: Devices<'static> = Devices {
    most_read: 1,
    failed_read: None,
    most_written: usize::MAX,
    failed_write: None,
    flush_fails: false,
    most_reported: usize::MAX,
    failed_report: None,
    stream_error: None,
    memory: None,
    clock: None,
};

/// Few bytes in each call: so lines, moves and answers are cut anywhere.
pub const FEW: Devices<'static> = Devices {
    most_read: 3,
    most_written: 5,
    most_reported: 1,
    ..FAULTLESS
};

impl<'a> Devices<'a> {
    /// The source of this input.
    pub fn source<'b>(&self, input: &'b [u8]) -> Bytes<'b>
        ensures works { result.failed ≡ false }
        ensures goes_on { result.ended ≡ false }
    {
        Bytes {
            rest: input,
            most: self.most_read,
            fails_at: self.failed_read,
            error: self.stream_error.unwrap_or(io::ErrorKind::Other),
            reads: 0,
            least_asked: usize::MAX,
            most_asked: 0,
            failed: false,
            ended: false,
        }
    }

    /// What the output goes to.
    pub fn target(&self, alloc: Global) -> Held<'a> {
        Held {
            bytes: Vec::new(alloc),
            most: self.most_written,
            fails_at: self.failed_write,
            flush_fails: self.flush_fails,
            error: self.stream_error.unwrap_or(io::ErrorKind::Other),
            writes: 0,
            least_brought: usize::MAX,
            flushes: 0,
            failed: false,
            flush_tried: false,
            clock: self.clock,
            last: 0,
        }
    }
}

/// A source of bytes in memory, which notes the least and the most that a read asked for. After a read that failed it goes
/// on as if that hadn't been.
#[derive(Drop)]
pub struct Bytes<'a> {
    rest: &'a [u8],
    most: usize,
    fails_at: Option<usize>,
    error: io::ErrorKind,
    pub reads: usize,
    pub least_asked: usize,
    pub most_asked: usize,
    failed: bool,
    ended: bool,
}

impl Bytes<'_> {
    fn give(&mut self, buf: &mut [u8]) -> Result<usize, DeviceFault>
        ensures bound { IfOk result (λ count. count ≤ length buf.new) }
        ensures made { ReadShows (read_call result buf.new)
            (source_state (Some self.old.rest.now) self.old.failed self.old.ended)
            (source_state (Some self.new.rest.now) self.new.failed self.new.ended) }
    {
        self.reads = self.reads.saturating_add(1);
        self.least_asked = self.least_asked.min(buf.len());
        self.most_asked = self.most_asked.max(buf.len());
        if self.fails_at == Some(self.reads) {
            self.failed = true;
            return Err(DeviceFault);
        }
        let all = self.rest;
        let count = all.len().min(buf.len()).min(self.most.max(1));
        if count == 0 && !buf.is_empty() {
            self.ended = true;
        }
        buf[..count].copy_from_slice(&all[..count]);
        self.rest = &all[count..];
        Ok(count)
    }
}

impl Source for Bytes<'_> {
    ghost call = { λ s c t. ReadShows c (source_state (Some s.rest.now) s.failed s.ended)
        (source_state (Some t.rest.now) t.failed t.ended) };

    ghost state = { λ s. source_state (Some s.rest.now) s.failed s.ended };

    fn read(&mut self, buf: &mut [u8]) -> Result<usize, DeviceFault> {
        self.give(buf)
    }

    fn failed(&self) -> bool {
        self.failed
    }

    fn ended(&self) -> bool {
        self.ended
    }

    ghost shown = { λ old new c did. did };
}

impl io::Read for Bytes<'_> {
    fn read(&mut self, buf: &mut [u8]) -> io::Result<usize> {
        match self.give(buf) {
            Ok(count) => Ok(count),
            Err(DeviceFault) => Err(io::Error::from(self.error)),
        }
    }
}

/// A target in memory, which notes the least that a write brought. After a write that failed it takes what later ones
/// bring.
#[derive(Drop)]
pub struct Held<'a> {
    pub bytes: Vec<u8>,
    most: usize,
    fails_at: Option<usize>,
    flush_fails: bool,
    error: io::ErrorKind,
    pub writes: usize,
    pub least_brought: usize,
    pub flushes: usize,
    failed: bool,
    /// Whether a flush came after the last write.
    pub flush_tried: bool,
    clock: Option<&'a Cell<usize>>,
    /// The number of its last call.
    pub last: usize,
}

/// The number of a call by a clock, or 0 if there is none.
fn ticked(clock: Option<&Cell<usize>>) -> usize {
    let Some(clock) = clock else { return 0 };
    let number = clock.get().saturating_add(1);
    clock.set(number);
    number
}

impl Target for Held<'_> {
    ghost call = { λ s c t. CallShows c (target_state (Some s.bytes.items) s.failed)
        (target_state (Some t.bytes.items) t.failed) };

    ghost state = { λ t. target_state (Some t.bytes.items) t.failed };

    fn write(&mut self, piece: &[u8]) -> Result<usize, DeviceFault> {
        self.last = ticked(self.clock);
        self.writes = self.writes.saturating_add(1);
        self.least_brought = self.least_brought.min(piece.len());
        self.flush_tried = false;
        if self.fails_at == Some(self.writes) {
            self.failed = true;
            return Err(DeviceFault);
        }
        let count = piece.len().min(self.most);
        if count == 0 && !piece.is_empty() {
            self.failed = true;
        }
        match self.bytes.extend_from_slice(&piece[..count]) {
            Ok(()) => Ok(count),
            Err(_) => {
                self.failed = true;
                Err(DeviceFault)
            }
        }
    }

    fn flush(&mut self) -> Result<(), DeviceFault> {
        self.last = ticked(self.clock);
        self.flushes = self.flushes.saturating_add(1);
        self.flush_tried = true;
        if self.flush_fails {
            self.failed = true;
            return Err(DeviceFault);
        }
        Ok(())
    }

    fn failed(&self) -> bool {
        self.failed
    }

    ghost shown = { λ old new c did. did };
}

impl io::Write for Held<'_> {
    fn write(&mut self, buf: &[u8]) -> io::Result<usize> {
        match Target::write(self, buf) {
            Ok(count) => Ok(count),
            Err(DeviceFault) => Err(io::Error::from(self.error)),
        }
    }

    fn flush(&mut self) -> io::Result<()> {
        match Target::flush(self) {
            Ok(()) => Ok(()),
            Err(DeviceFault) => Err(io::Error::from(self.error)),
        }
    }
}
