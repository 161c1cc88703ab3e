//! Output that fails, input that fails, and memory that is refused for either.
use super::holds;
use bac_text::{Status, check_over, decode_over};
use std::alloc::Global;
use std::io;
use std::io::{BufReader, ErrorKind, Read, Write};
use std::test::Fail;

/// What is complained of where an output is too short.
const FULL: &str = "cannot write\nstandard output: failed to write whole buffer\n";

/// Whether decoding tells that an output of 3 octets is too short, and nothing more.
fn fails_to_decode(alloc: Global) -> bool {
    let mut room = [0u8; 3];
    let mut out = room.as_mut_slice();
    let mut err = Vec::new(alloc);
    decode_over(alloc, "", &mut out, &mut err).code() == 3 && err.as_slice() == FULL.as_bytes()
}

/// Whether a check tells that an output of 30 octets is too short, and nothing more.
fn fails_to_check(alloc: Global) -> bool {
    let mut input: &[u8] = b"x\n";
    let mut room = [0u8; 30];
    let mut out = room.as_mut_slice();
    let mut err = Vec::new(alloc);
    check_over(alloc, &mut input, &mut out, &mut err).code() == 3
        && err.as_slice() == FULL.as_bytes()
}

#[test]
fn tells_that_output_failed(rt: HostRuntime) -> Result<(), Fail> {
    holds(fails_to_decode(rt.alloc()), "decode")?;
    holds(fails_to_check(rt.alloc()), "check")
}

/// A file that gives one line, or has given it, and then fails.
#[derive(Drop)]
struct Broken {
    has_given: bool,
    fault: ErrorKind,
}

impl Read for Broken {
    fn read(&mut self, octets: &mut [u8]) -> io::Result<usize> {
        let line = b"x\n";
        if self.has_given || octets.len() < line.len() {
            return Err(io::Error::from(self.fault));
        }
        self.has_given = true;
        octets[..line.len()].copy_from_slice(line);
        Ok(line.len())
    }
}

/// Whether the file has given its line, how it fails, the status, what is printed before, and what is complained of.
const INPUTS: &[(bool, ErrorKind, u8, &str, &str)] = &[
    (true, ErrorKind::PermissionDenied, 2, "", "cannot read\n"),
    (
        false,
        ErrorKind::PermissionDenied,
        2,
        "line 1: not a capture line\n",
        "cannot read\n",
    ),
    (
        false,
        ErrorKind::OutOfMemory,
        4,
        "line 1: not a capture line\n",
        "no memory\n",
    ),
];

fn ends_so(
    alloc: Global,
    (has_given, fault, code, lines, complaint): &(bool, ErrorKind, u8, &str, &str),
) -> Result<bool, Fail> {
    let file = Broken {
        has_given: *has_given,
        fault: *fault,
    };
    let mut input = BufReader::new(alloc, file)?;
    let mut out = Vec::new(alloc);
    let mut err = Vec::new(alloc);
    let status = check_over(alloc, &mut input, &mut out, &mut err);
    Ok(
        status.code() == *code
            && out.as_slice() == lines.as_bytes()
            && err.as_slice() == complaint.as_bytes(),
    )
}

/// What was found before the input failed, or lacked memory, is printed, without the counts.
#[test]
fn tells_that_the_input_failed(rt: HostRuntime) -> Result<(), Fail> {
    for row in INPUTS {
        holds(ends_so(rt.alloc(), row)?, row.4)?;
    }
    Ok(())
}

/// A writer that takes so many writes, and then fails; it may fail where it is flushed.
#[derive(Drop)]
struct Weak {
    writes: u32,
    can_flush: bool,
    fault: ErrorKind,
    flushed: u32,
}

impl Write for Weak {
    fn write(&mut self, octets: &[u8]) -> io::Result<usize> {
        if self.writes == 0 {
            return Err(io::Error::from(self.fault));
        }
        self.writes -= 1;
        Ok(octets.len())
    }

    fn flush(&mut self) -> io::Result<()> {
        if !self.can_flush {
            return Err(io::Error::from(self.fault));
        }
        self.flushed = self.flushed.saturating_add(1);
        Ok(())
    }
}

/// What is read, and printed.
#[derive(Clone, Copy)]
enum Text {
    Datagram(&'static str),
    Capture(&'static [u8]),
}

fn ended(alloc: Global, text: Text, out: &mut Weak, err: &mut Vec<u8>) -> Status {
    match text {
        Text::Datagram(datagram) => decode_over(alloc, datagram, out, err),
        Text::Capture(capture) => {
            let mut input = capture;
            check_over(alloc, &mut input, out, err)
        }
    }
}

fn lacks_memory(alloc: Global) -> bool {
    let mut out = Weak {
        writes: 0,
        can_flush: true,
        fault: ErrorKind::OutOfMemory,
        flushed: 0,
    };
    let mut err = Vec::new(alloc);
    let status = ended(alloc, Text::Datagram(""), &mut out, &mut err);
    status == Status::Memory && err.as_slice() == b"no memory\n".as_slice()
}

#[test]
fn tells_that_the_output_lacks_memory(rt: HostRuntime) -> Result<(), Fail> {
    holds(lacks_memory(rt.alloc()), "decode")
}

/// What a text ends with where the output takes so many writes, and whether it was flushed.
fn ended_at(alloc: Global, text: Text, writes: u32, can_flush: bool) -> (u8, bool) {
    let mut err = Vec::new(alloc);
    let mut out = Weak {
        writes,
        can_flush,
        fault: ErrorKind::PermissionDenied,
        flushed: 0,
    };
    let status = ended(alloc, text, &mut out, &mut err);
    (status.code(), out.flushed > 0)
}

/// Whether an end without a failed write or flush is flushed, with this status or the one of failed output.
fn is_flushed(end: (u8, bool), code: u8) -> bool {
    end.1 && (end.0 == 3 || end.0 == code)
}

/// The fewest writes that a text ends well with, where each number below them fails, and more don't.
fn fewest_writes(alloc: Global, text: Text, code: u8) -> Result<u32, Fail> {
    let mut fewest = 0;
    for writes in 0..100u32 {
        let end = ended_at(alloc, text, writes, true);
        if ended_at(alloc, text, writes, false) != (3, false) || !is_flushed(end, code) {
            return Err(Fail::from(writes));
        }
        if end.0 == 3 {
            holds(writes == fewest, "more writes fail")?;
            fewest = writes + 1;
        }
    }
    Ok(fewest)
}

/// What is read, and the status where no write fails.
const TEXTS: &[(Text, u8)] = &[
    (Text::Datagram("810A000F0122FFFF009C10643B6B04"), 0),
    (Text::Capture(b"x\n1 7F000001BAC1 7F000001BAC0 00\n"), 1),
];

/// Whichever write fails, and where the flush fails, the status tells it; with enough writes it does not, and the output is flushed.
#[test]
fn tells_each_failure_of_the_output(rt: HostRuntime) -> Result<(), Fail> {
    for (text, code) in TEXTS {
        holds(fewest_writes(rt.alloc(), *text, *code)? < 100, "writes")?;
    }
    Ok(())
}
