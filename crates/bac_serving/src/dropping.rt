//! A writer that never waits: a line for which there is no room is dropped and counted, and that is told once there is room again.
ghost use Rattle.std.specs.Prelude.{◌≡◌, length};

use crate::fault_lines::{FaultTime, print_fault_objects};
use crate::gap::{Gap, ends_line, piece_of};
use bac_driver::Clock;
use bac_environment::StandardError;
use bac_server::LogFormat;
use bac_value::NoMemory;
use std::alloc::Global;
use std::io;
use std::io::{ErrorKind, Write};

/// Standard error of a machine, for a server that must not wait for who reads it. A line of more than 4,096 octets may be written in part; then the next one begins
/// on a line of its own.
#[derive(Drop)]
pub(crate) struct Dropping<'e, M, C, E> {
    alloc: Global,
    machine: &'e M,
    /// Tells when lines were dropped; None where there is no clock.
    clock: Option<C>,
    /// The form of what is told.
    format: LogFormat,
    err: &'e mut E,
    gap: Gap,
}

impl<'e, M: StandardError, C: Clock + Drop, E: Write> Dropping<'e, M, C, E> {
    /// Standard error of a machine, of which nothing was dropped. How many lines were, is told in that form, at the moments of a clock.
    pub(crate) fn new(
        alloc: Global,
        machine: &'e M,
        clock: Option<C>,
        format: LogFormat,
        err: &'e mut E,
    ) -> Dropping<'e, M, C, E> {
        Dropping {
            alloc,
            machine,
            clock,
            format,
            err,
            gap: Gap::NONE,
        }
    }

    /// The moment, in milliseconds; 0 where there is no clock.
    fn now(&mut self) -> u64
        ensures { self.new.gap ≡ self.old.gap }
    {
        match &mut self.clock {
            Some(clock) => clock.now(),
            None => 0,
        }
    }

    /// How many lines were dropped, in the form of the log.
    fn note(&mut self) -> Result<Vec<u8>, NoMemory>
        ensures { self.new.gap ≡ self.old.gap }
    {
        let lines = self.gap.lines;
        let noun = if lines == 1 { "line" } else { "lines" };
        let mut note = Vec::new(self.alloc);
        if self.gap.is_cut {
            note.push(b'\n')?;
        }
        let text = format!(in self.alloc; "log: {lines} {noun} dropped\n")?;
        match self.format {
            LogFormat::Lines => note.extend_from_slice(text.as_bytes())?,
            LogFormat::Objects { epoch } => {
                let moment = self.now();
                let at = FaultTime { moment, epoch };
                print_fault_objects(self.alloc, at, text.as_bytes(), &mut note);
            }
        }
        Ok(note)
    }

    /// Tells how many lines were dropped. Where memory is refused, that is told later.
    fn tell(&mut self) -> io::Result<()> {
        let Ok(note) = self.note() else {
            return Ok(());
        };
        self.err.write_all(&note)?;
        self.gap.tell();
        Ok(())
    }

    /// Whether there is room for the next piece, behind what is told of dropped lines.
    fn has_room(&mut self) -> io::Result<bool> {
        // the rest of a line of which something was dropped is dropped too
        if self.gap.is_open() || !self.machine.has_room() {
            return Ok(false);
        }
        if !self.gap.is_untold() {
            return Ok(true);
        }
        self.tell()?;
        Ok(self.machine.has_room())
    }

    /// Drops a piece; how many octets that are.
    fn drop_piece(&mut self, piece: &[u8]) -> usize
        ensures { result ≡ length piece.now }
    {
        self.gap.drop_piece(ends_line(piece));
        piece.len()
    }

    /// Tells at the end how many lines were dropped, if there is room.
    pub(crate) fn end(mut self) {
        if self.gap.is_untold() && self.machine.has_room() {
            // if that fails, nothing is printed
            let _ = self.tell();
        }
    }
}

impl<M: StandardError, C: Clock + Drop, E: Write> Write for Dropping<'_, M, C, E> {
    fn write(&mut self, octets: &[u8]) -> io::Result<usize> {
        let piece = piece_of(octets);
        if !self.has_room()? {
            return Ok(self.drop_piece(piece));
        }
        match self.err.write(piece) {
            Ok(count) => {
                self.gap.write(ends_line(&piece[..count]));
                Ok(count)
            }
            // the room has gone since
            Err(error) if error.kind() == ErrorKind::WouldBlock => Ok(self.drop_piece(piece)),
            Err(error) => Err(error),
        }
    }

    fn flush(&mut self) -> io::Result<()> {
        self.err.flush()
    }
}
