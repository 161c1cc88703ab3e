//! Command lines whose output fails.
use crate::command::Command;
use crate::files::Files;
use crate::sink::Sink;
use std::alloc::Global;
use std::io::ErrorKind;

/// What is complained of where a write or a flush fails.
const FULL: &str = "cannot write\nstandard output: permission denied\n";

/// A command line beside files, whose output fails.
#[derive(Clone, Copy)]
pub(crate) struct Failing<'a> {
    pub alloc: Global,
    pub command: &'a Command<'a>,
    pub files: &'a Files<'a>,
}

impl Failing<'_> {
    /// Whether a command line with such an output has that status and that complaint.
    fn ends_so(&self, mut out: Sink, code: u8, complaint: &str) -> bool {
        let mut err = Sink::new(self.alloc);
        let ended = self.command.run(self.files, &mut out, &mut err);
        ended.code == code && err.octets.as_slice() == complaint.as_bytes()
    }

    /// Whether a failed write is told: as such, and as want of memory.
    fn is_told(&self, writes: u32) -> bool {
        let full = Sink::weak(self.alloc, writes, ErrorKind::PermissionDenied);
        let starved = Sink::weak(self.alloc, writes, ErrorKind::OutOfMemory);
        self.ends_so(full, 3, FULL) && self.ends_so(starved, 4, "no memory\n")
    }

    /// Whether so many writes are enough, and the output is flushed behind them.
    fn is_enough(&self, writes: u32, code: u8) -> bool {
        let mut out = Sink::weak(self.alloc, writes, ErrorKind::PermissionDenied);
        let mut err = Sink::new(self.alloc);
        let ended = self.command.run(self.files, &mut out, &mut err);
        ended.code == code && err.octets.is_empty() && out.is_flushed
    }

    /// Whether it makes so many writes at least, and each fewer is told.
    fn tells_fewer(&self, least: u32, code: u8) -> bool {
        for writes in 0..100u32 {
            if self.is_enough(writes, code) {
                return writes >= least;
            }
            if !self.is_told(writes) {
                return false;
            }
        }
        false
    }

    /// An output that takes all, and can't be flushed.
    fn full(&self, fault: ErrorKind) -> Sink {
        let mut out = Sink::weak(self.alloc, 100, fault);
        out.can_flush = false;
        out
    }

    /// Whether a flush that fails is told: as such, and as want of memory.
    fn is_flush_told(&self) -> bool {
        let full = self.full(ErrorKind::PermissionDenied);
        let starved = self.full(ErrorKind::OutOfMemory);
        self.ends_so(full, 3, FULL) && self.ends_so(starved, 4, "no memory\n")
    }

    /// Whether that is so of what a line `writes` says.
    pub(crate) fn holds(&self, words: &str, code: u8) -> Option<bool> {
        let are_told = match words {
            "endless" => (0..30u32).all(|writes| self.is_told(writes)),
            least => self.tells_fewer(least.parse::<u32>().ok()?, code),
        };
        Some(are_told && self.is_flush_told())
    }
}
