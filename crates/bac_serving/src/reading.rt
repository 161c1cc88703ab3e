//! A file that is read step by step.
ghost use Rattle.std.specs.Prelude.{◌≡◌, ◌≤◌, ◌+◌, IfOk, length};

use std::alloc::Global;
use std::io;
use std::io::{ErrorKind, Read};

/// How many octets are read in a step at the most.
const STEP: usize = 65_536;

/// How often a step reads at the most.
const READS: usize = 64;

/// An open file, and what has been read of it.
#[derive(Drop)]
pub(crate) struct Reading<R> {
    file: R,
    octets: Vec<u8>,
    /// Where what is read next comes.
    buffer: Vec<u8>,
}

impl<R: Read + Drop> Reading<R> {
    /// An open file, of which nothing has been read.
    pub(crate) fn new(alloc: Global, file: R) -> io::Result<Reading<R>> {
        let mut buffer = Vec::new(alloc);
        buffer.resize(STEP, 0)?;
        Ok(Reading {
            file,
            octets: Vec::new(alloc),
            buffer,
        })
    }

    /// Reads once. Returns how many octets came, which are none only at the end of the file.
    fn read_once(&mut self) -> io::Result<usize>
        ensures { IfOk result (λ count. length self.new.octets.items ≡ length self.old.octets.items + count) }
    {
        let count = self.file.read(&mut self.buffer)?;
        self.octets.extend_from_slice(&self.buffer[..count])?;
        Ok(count)
    }

    /// Reads on by a step. Returns whether the file has ended.
    ///
    /// Returns `FileTooLarge` if it has more than so many octets.
    pub(crate) fn read_step(&mut self, most: u64) -> io::Result<bool> {
        let begin = self.octets.len();
        for _ in 0..READS {
            match self.read_once() {
                Ok(0) => return Ok(true),
                Ok(_) => {}
                Err(error) if error.kind() == ErrorKind::Interrupted => {}
                Err(error) => return Err(error),
            }
            if self.octets.len() as u64 > most {
                return Err(io::Error::from(ErrorKind::FileTooLarge));
            }
            // enough for one step: the node serves between steps
            if self.octets.len().saturating_sub(begin) >= STEP {
                return Ok(false);
            }
        }
        Ok(false)
    }

    /// What was read.
    pub(crate) fn into_octets(self) -> Vec<u8>
        ensures { result.items ≡ self.octets.items }
    {
        let Reading {
            file: _,
            octets,
            buffer: _,
        } = self;
        octets
    }
}
