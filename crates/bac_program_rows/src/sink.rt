//! Writers that keep what is written, and may fail.
use std::alloc::Global;
use std::io;
use std::io::{ErrorKind, Write};

/// A writer that takes some writes, fails at some, and then takes all.
#[derive(Drop)]
pub(crate) struct Sink {
    pub octets: Vec<u8>,
    /// How many writes it takes before it fails.
    pub passes: u32,
    /// At how many writes it fails after these.
    pub failures: u32,
    pub fault: ErrorKind,
    pub can_flush: bool,
    pub is_flushed: bool,
}

impl Sink {
    /// One that takes all.
    pub(crate) fn new(alloc: Global) -> Sink {
        Sink {
            octets: Vec::new(alloc),
            passes: 0,
            failures: 0,
            fault: ErrorKind::PermissionDenied,
            can_flush: true,
            is_flushed: false,
        }
    }

    /// One that takes so many writes and then fails.
    pub(crate) fn weak(alloc: Global, passes: u32, fault: ErrorKind) -> Sink {
        let mut sink = Sink::new(alloc);
        sink.passes = passes;
        sink.failures = u32::MAX;
        sink.fault = fault;
        sink
    }

    /// Whether this write fails.
    fn fails(&mut self) -> bool {
        if self.failures == 0 {
            return false;
        }
        if self.passes > 0 {
            self.passes -= 1;
            return false;
        }
        self.failures -= 1;
        true
    }
}

impl Write for Sink {
    fn write(&mut self, octets: &[u8]) -> io::Result<usize> {
        if self.fails() {
            return Err(io::Error::from(self.fault));
        }
        self.octets.extend_from_slice(octets)?;
        Ok(octets.len())
    }

    fn flush(&mut self) -> io::Result<()> {
        if !self.can_flush {
            return Err(io::Error::from(self.fault));
        }
        self.is_flushed = true;
        Ok(())
    }
}
