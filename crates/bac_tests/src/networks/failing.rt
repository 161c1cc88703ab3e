//! Readers and writers that fail.
use super::*;
use bac_simulate::simulate_over;
use std::io;
use std::io::{ErrorKind, Read, Write};

/// What a script gives whose every line prints something.
const SCRIPT: &str = "nodes 2\nask 0 1 read 0:5 85\ndeliver 0\ntick 0\ndeliver 9\n";

/// What it prints.
const LINES: &str = "\
asked 0 id 0
sent 0 0>1 810A001101040275000C0C000000051955
performed 0
sent 1 1>0 810A0017010030000C0C0000000519553E444290999A3F
nothing
line 5: fault 2
";

/// A writer that keeps so many writes and then fails; it may fail where it is flushed.
#[derive(Drop)]
struct Weak {
    taken: Vec<u8>,
    writes: usize,
    can_flush: bool,
    fault: ErrorKind,
}

impl Write for Weak {
    fn write(&mut self, octets: &[u8]) -> io::Result<usize> {
        if self.writes == 0 {
            return Err(io::Error::from(self.fault));
        }
        self.writes -= 1;
        self.taken.extend_from_slice(octets)?;
        Ok(octets.len())
    }

    fn flush(&mut self) -> io::Result<()> {
        if self.can_flush {
            Ok(())
        } else {
            Err(io::Error::from(self.fault))
        }
    }
}

/// How the script ends where the output takes so many writes, with what it took and what is complained of.
fn ends(alloc: Global, writes: usize, can_flush: bool, fault: ErrorKind) -> Printed {
    let mut input = SCRIPT.as_bytes();
    let mut err = Vec::new(alloc);
    let mut out = Weak {
        taken: Vec::new(alloc),
        writes,
        can_flush,
        fault,
    };
    let status = simulate_over(alloc, &mut input, &mut out, &mut err).code();
    Printed {
        out: out.taken,
        err,
        status,
    }
}

/// Whether so many writes took a front of what the script prints; each takes an octet at least.
fn is_front(out: &[u8], writes: usize) -> bool {
    LINES.as_bytes().starts_with(out) && out.len() >= writes
}

/// How many writes the script makes, where each number of writes below takes a front and ends it with that status; None beyond a thousand.
fn writes_of(alloc: Global, fault: ErrorKind, status: u8) -> Option<usize> {
    for writes in 0..1_000usize {
        let ended = ends(alloc, writes, true, fault);
        if ended.status == 1 && ended.out.as_slice() == LINES.as_bytes() {
            return Some(writes);
        }
        if ended.status != status || !is_front(&ended.out, writes) {
            return None;
        }
    }
    None
}

/// Whether the script prints all of it where only flushing fails, and ends with status 3.
fn tells_of_flush(alloc: Global) -> bool {
    let ended = ends(alloc, 1_000, false, ErrorKind::PermissionDenied);
    ended.status == 3
        && ended.err.as_slice() == b"cannot write\nstandard output: permission denied\n".as_slice()
        && ended.out.as_slice() == LINES.as_bytes()
}

/// Whether an output without memory for the first write is complained of.
fn tells_of_memory(alloc: Global) -> bool {
    let ended = ends(alloc, 0, true, ErrorKind::OutOfMemory);
    ended.status == 4 && ended.err.as_slice() == b"no memory\n".as_slice() && ended.out.is_empty()
}

/// The output fails at each write, where it has no room or memory is refused, and where it is flushed; what could be written before stays.
#[test]
fn tells_that_output_failed(rt: HostRuntime) {
    let writes = writes_of(rt.alloc(), ErrorKind::PermissionDenied, 3).unwrap_or(0);
    assert!(rt; writes >= 6);
    assert!(rt; writes_of(rt.alloc(), ErrorKind::OutOfMemory, 4) == Some(writes));
    assert!(rt; tells_of_flush(rt.alloc()));
    assert!(rt; tells_of_memory(rt.alloc()));
}

/// A file that gives a good first line and then fails.
#[derive(Drop)]
struct Broken {
    has_given: bool,
    fault: ErrorKind,
}

impl Read for Broken {
    fn read(&mut self, octets: &mut [u8]) -> io::Result<usize> {
        let line = b"nodes 2\n";
        if self.has_given || octets.len() < line.len() {
            return Err(io::Error::from(self.fault));
        }
        octets[..line.len()].copy_from_slice(line);
        self.has_given = true;
        Ok(line.len())
    }
}

/// Whether an input that fails is told, by whether memory was refused, and nothing is printed.
fn ends_unread(alloc: Global, fault: ErrorKind, complaint: &str, status: u8) -> bool {
    let mut input = Broken {
        has_given: false,
        fault,
    };
    let mut out = Vec::new(alloc);
    let mut err = Vec::new(alloc);
    let ended = simulate_over(alloc, &mut input, &mut out, &mut err).code();
    ended == status && out.is_empty() && err.as_slice() == complaint.as_bytes()
}

#[test]
fn tells_that_input_failed(rt: HostRuntime) {
    assert!(rt; ends_unread(rt.alloc(), ErrorKind::PermissionDenied, "cannot read\n", 2));
    assert!(rt; ends_unread(rt.alloc(), ErrorKind::OutOfMemory, "no memory\n", 4));
}
