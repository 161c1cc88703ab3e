//! Files in memory.
ghost use Rattle.std.specs.Prelude.{◌≤◌, length, ⊤};

use crate::lines::{Heading, of_block};
use crate::scene::Setup;
use crate::spelling::put_line;
use bac_environment::{OpenFiles, RegularFiles};
use std::alloc::Global;
use std::cell::Cell;
use std::io;
use std::io::{ErrorKind, Read};

/// Copies the octets to the front of a buffer, as far as they fit; how many that are.
pub(crate) fn copy_front(octets: &[u8], buffer: &mut [u8]) -> usize
    ensures within { result ≤ length buffer.new }
    ensures there { result ≤ length octets.now }
{
    let len = octets.len().min(buffer.len());
    buffer[..len].copy_from_slice(&octets[..len]);
    len
}

/// A file that is read. Where its octets end it ends too, or it fails.
#[derive(Drop)]
pub(crate) struct OpenedFile {
    octets: Vec<u8>,
    read: usize,
    fault: Option<ErrorKind>,
    /// Whether it stands for a pipe.
    is_pipe: bool,
}

impl Read for OpenedFile {
    fn read(&mut self, buffer: &mut [u8]) -> io::Result<usize> {
        let len = match self.octets.get(self.read..) {
            Some(rest) => copy_front(rest, buffer),
            None => 0,
        };
        self.read = self.read.saturating_add(len);
        match self.fault {
            Some(fault) if len == 0 => Err(io::Error::from(fault)),
            _ => Ok(len),
        }
    }
}

/// Appends the octets of the block at the front of a text: of lines.
pub(crate) fn put_block(alloc: Global, text: &str, out: &mut Vec<u8>) -> Option<()> {
    for line in text.lines() {
        match of_block(line) {
            Some(line) => put_line(alloc, line, out)?,
            None => return Some(()),
        }
    }
    Some(())
}

/// Appends the octets of a line of hexadecimal.
fn put_digits(alloc: Global, line: &str, out: &mut Vec<u8>) -> Option<()> {
    for digits in line.split(' ') {
        let octets = hex::decode(alloc, digits).ok()?;
        out.extend_from_slice(&octets).ok()?;
    }
    Some(())
}

/// Appends the octets of a block of hexadecimal.
fn put_hex_block(alloc: Global, text: &str, out: &mut Vec<u8>) -> Option<()> {
    for line in text.lines() {
        match of_block(line) {
            Some(line) => put_digits(alloc, line, out)?,
            None => return Some(()),
        }
    }
    Some(())
}

/// A file that was written.
#[derive(Drop)]
struct WrittenFile {
    path: String,
    octets: Vec<u8>,
}

/// The files of a scene, and those that are written.
#[derive(Drop)]
pub(crate) struct Files<'a> {
    alloc: Global,
    setup: Setup<'a>,
    /// How many files were opened.
    opened: Cell<usize>,
    written: Cell<Vec<WrittenFile>>,
}

impl<'a> Files<'a> {
    /// The files of a setup, of which none was opened or written.
    pub(crate) fn new(alloc: Global, setup: Setup<'a>) -> Files<'a> {
        Files {
            alloc,
            setup,
            opened: Cell::new(0),
            written: Cell::new(Vec::new(alloc)),
        }
    }

    /// The octets that a file has now: what was written last, or those of the scene.
    pub(crate) fn octets_at(&self, path: &str) -> Option<Vec<u8>> {
        if let Some(octets) = self.written_at(path) {
            return Some(octets);
        }
        let mut octets = Vec::new(self.alloc);
        self.read(path, 0, &mut octets)?;
        Some(octets)
    }

    /// The octets of a file that was written.
    fn written_at(&self, path: &str) -> Option<Vec<u8>> {
        let files = self.written.replace(Vec::new(self.alloc));
        let found = match files.iter().rev().find(|file| file.path.as_str() == path) {
            Some(file) => Vec::from_slice(self.alloc, &file.octets).ok(),
            None => None,
        };
        self.written.set(files);
        found
    }

    /// Keeps a file that is written.
    fn keep(&self, path: &str, octets: &[u8]) -> io::Result<()> {
        let path = String::from_str(self.alloc, path)?;
        let octets = Vec::from_slice(self.alloc, octets)?;
        let mut files = self.written.replace(Vec::new(self.alloc));
        let pushed = files.push(WrittenFile { path, octets });
        self.written.set(files);
        match pushed {
            Ok(()) => Ok(()),
            Err(_) => Err(io::Error::from(ErrorKind::OutOfMemory)),
        }
    }

    /// The line of a file of the scene, opened the time of that number; its octets are appended.
    fn read(&self, path: &str, number: usize, octets: &mut Vec<u8>) -> Option<Heading<'a>> {
        if let Some(heading) = self.setup.named("file", path, number) {
            put_block(self.alloc, heading.below, octets)?;
            return Some(heading);
        }
        let heading = self.setup.named("hex", path, 0)?;
        put_hex_block(self.alloc, heading.below, octets)?;
        Some(heading)
    }

    /// A file of the scene, opened the next time.
    fn described(&self, path: &str) -> io::Result<OpenedFile> {
        let number = self.opened.get();
        self.opened.set(number.saturating_add(1));
        let mut octets = Vec::new(self.alloc);
        match self.read(path, number, &mut octets) {
            Some(heading) => opened(octets, heading.words),
            None => Err(io::Error::from(ErrorKind::NotFound)),
        }
    }
}

/// A file that fails as a word says.
fn opened(octets: Vec<u8>, word: &str) -> io::Result<OpenedFile> {
    let fault = match word {
        "denied" => Some(ErrorKind::PermissionDenied),
        "memory" => Some(ErrorKind::OutOfMemory),
        "unopened" => return Err(io::Error::from(ErrorKind::OutOfMemory)),
        _ => None,
    };
    Ok(OpenedFile {
        octets,
        read: 0,
        fault,
        is_pipe: word == "pipe",
    })
}

impl RegularFiles for Files<'_> {
    fn open_regular(&self, path: &str, most: u64) -> io::Result<OpenedFile> {
        let file = self.open(path)?;
        if file.is_pipe {
            return Err(io::Error::new(ErrorKind::InvalidInput, "not a regular file"));
        }
        if file.octets.len() as u64 > most {
            return Err(io::Error::from(ErrorKind::FileTooLarge));
        }
        Ok(file)
    }
}

impl OpenFiles for Files<'_> {
    type File = OpenedFile;

    ghost is_file = { λ _ _. ⊤ };

    fn open(&self, path: &str) -> io::Result<OpenedFile> {
        match self.written_at(path) {
            Some(octets) => opened(octets, ""),
            None => self.described(path),
        }
    }

    fn write(&self, path: &str, octets: &[u8]) -> io::Result<()> {
        let Some(Heading { words: full, .. }) = self.setup.line("disk") else {
            return Err(io::Error::from(ErrorKind::Unsupported));
        };
        let (name, is_told) = match full.strip_prefix("silent ") {
            Some(name) => (name, false),
            None => (full, true),
        };
        if name.is_empty() || !path.starts_with(name) {
            return self.keep(path, octets);
        }
        self.keep(path, &octets[..octets.len() / 2])?;
        if is_told {
            Err(io::Error::from(ErrorKind::StorageFull))
        } else {
            Ok(())
        }
    }

    fn rename(&self, from: &str, to: &str) -> io::Result<()> {
        match self.written_at(from) {
            Some(octets) => self.keep(to, &octets),
            None => Err(io::Error::from(ErrorKind::NotFound)),
        }
    }

    fn make_folder(&self, _path: &str) -> io::Result<()> {
        if self.setup.has("disk") {
            Ok(())
        } else {
            Err(io::Error::from(ErrorKind::Unsupported))
        }
    }
}
