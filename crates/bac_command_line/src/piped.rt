//! A writer whose reader may end, as that of a pipe does.
ghost use Rattle.std.specs.Prelude.{◌≡◌, ◌||◌, false};
ghost use Rattle.std.specs.Io.{WritesAtMost};
ghost use Rattle.std.specs.Io.KnownBytes.{Keeps, WriteAppends};
ghost use Rattle.bac_command_line.specs.Outputs.{failed_unread, has_reader_ended, piped_contents};

use std::io;
use std::io::{ErrorKind, Write};

/// A writer that remembers whether what reads it has ended.
#[derive(Drop)]
pub struct Piped<W: Write> {
    below: W,
    has_reader_ended: bool,
}

/// Whether a call failed because nobody reads what is written any more.
fn failed_unread<T>(done: &io::Result<T>) -> bool
    ensures { result ≡ failed_unread done.now }
{
    match done {
        Ok(_) => false,
        Err(error) => matches!(error.kind(), ErrorKind::BrokenPipe),
    }
}

impl<W: Write> Piped<W> {
    /// Nothing has been written yet.
    pub fn new(below: W) -> Piped<W>
        ensures contents { piped_contents W.contents result ≡ W.contents below }
        ensures reader { has_reader_ended result ≡ false }
    {
        Piped {
            below,
            has_reader_ended: false,
        }
    }

    /// Whether a write or a flush failed because nobody reads what is written any more.
    pub fn has_reader_ended(&self) -> bool
        ensures { result ≡ has_reader_ended self.now }
    {
        self.has_reader_ended
    }

    /// Notes why a call failed, where it did.
    fn note<T>(&mut self, done: io::Result<T>) -> io::Result<T>
        ensures same { result ≡ done }
        ensures below { self.new.below ≡ self.old.below }
        ensures noted { has_reader_ended self.new ≡ (has_reader_ended self.old || failed_unread done) }
    {
        self.has_reader_ended |= failed_unread(&done);
        done
    }
}

impl<W: Write> Write for Piped<W> {
    ghost contents = { piped_contents W.contents };

    fn write(&mut self, octets: &[u8]) -> io::Result<usize>
        ensures bound { WritesAtMost result octets.now }
        ensures bytes { WriteAppends (piped_contents W.contents self.old) (piped_contents W.contents self.new) result octets.now }
        ensures noted { has_reader_ended self.new ≡ (has_reader_ended self.old || failed_unread result) }
    {
        let done = self.below.write(octets);
        self.note(done)
    }

    fn flush(&mut self) -> io::Result<()>
        ensures bytes { Keeps (piped_contents W.contents self.old) (piped_contents W.contents self.new) }
        ensures noted { has_reader_ended self.new ≡ (has_reader_ended self.old || failed_unread result) }
    {
        let done = self.below.flush();
        self.note(done)
    }
}
