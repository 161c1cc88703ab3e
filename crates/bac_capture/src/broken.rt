//! An input whose reads all fail.
use std::io;
use std::io::{BufRead, ErrorKind, Read};

/// An input whose reads all fail with the same kind of error.
#[derive(Clone, Copy, Drop)]
pub(crate) struct Broken {
    pub kind: ErrorKind,
}

impl Read for Broken {
    fn read(&mut self, _octets: &mut [u8]) -> io::Result<usize> {
        Err(io::Error::from(self.kind))
    }
}

impl BufRead for Broken {
    fn fill_buf(&mut self) -> io::Result<&[u8]> {
        Err(io::Error::from(self.kind))
    }

    fn consume(&mut self, _amount: usize) {}
}
