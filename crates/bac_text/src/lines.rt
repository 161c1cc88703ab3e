//! The lines of an input, one after the other, in memory that does not grow with it.
ghost use Rattle.std.specs.Prelude.{◌≡◌, ◌≤◌, ◌+◌, ◌++◌, ◌↔◌, true, length, take, IfOk, OnOk};
ghost use Rattle.std.specs.IoError.{error_kind};
ghost use Rattle.std.specs.declared.io.ErrorKind.TheVariants.{Interrupted};
ghost use Rattle.std.specs.List.{position};
ghost use Rattle.std.specs.Io.KnownBytes.{Keeps};
ghost use Rattle.bac_text.specs.Lines.{LINE_LIMIT, is_line_end, line_in};
ghost use Rattle.bac_text.specs.NextLine.{IsEmptyInput, IsLook, IsPart, IsLine, IsNextLine};

use memchr::memchr;
use std::io;
use std::io::{BufRead, ErrorKind};

/// Most octets of a line, without its end. The longest datagram of a BVLL has 131,070 digits, and what stands before it 47.
pub const LINE_LIMIT: usize = 132_000;

/// The place of the first end of a line.
fn end_in(octets: &[u8]) -> Option<usize>
    ensures { result ≡ position is_line_end octets.now }
{
    memchr(b'\n', octets)
}

/// How many octets stand before the first end of a line, or in all where there is none.
fn line_len(octets: &[u8]) -> usize
    ensures is { result ≡ length (line_in octets.now) }
    ensures within { result ≤ length octets.now }
{
    match end_in(octets) {
        Some(len) => len,
        None => octets.len(),
    }
}

/// Appends octets to what is kept of a line: of an overlong one no more than one octet above the limit.
fn keep(line: &mut Vec<u8>, octets: &[u8]) -> io::Result<()>
    requires { length line.old.items ≤ LINE_LIMIT + 1 }
    ensures { OnOk result (line.new.items ≡ take (LINE_LIMIT + 1) (line.old.items ++ octets.now)) }
{
    // one octet above the limit tells that the line is too long
    let room = LINE_LIMIT + 1 - line.len();
    let len = octets.len().min(room);
    line.extend_from_slice(&octets[..len])?;
    Ok(())
}

/// Whether a signal interrupted a read, which may then be tried again: the error is of the kind `Interrupted`, and no other.
pub fn is_interrupted(error: &io::Error) -> bool
    ensures { result ≡ true ↔ error_kind error.now ≡ Interrupted }
{
    error.kind() == ErrorKind::Interrupted
}

/// Whether the input is at its end; None where a signal came in between.
fn look<R: BufRead>(input: &mut R) -> io::Result<Option<bool>>
    ensures looks { IfOk result (IsLook (R.remaining input.old)) }
    ensures keeps { Keeps (R.remaining input.old) (R.remaining input.new) }
{
    match input.fill_buf() {
        Ok(available) => Ok(Some(available.is_empty())),
        Err(error) if is_interrupted(&error) => Ok(None),
        Err(error) => Err(error),
    }
}

/// Whether the input is at its end.
fn is_at_end<R: BufRead>(input: &mut R) -> io::Result<bool>
    ensures is { IfOk result (IsEmptyInput (R.remaining input.old)) }
    ensures keeps { Keeps (R.remaining input.old) (R.remaining input.new) }
{
    for _ in 0..u64::MAX {
        if let Some(is_empty) = look(input)? {
            return Ok(is_empty);
        }
    }
    Err(io::Error::from(ErrorKind::TimedOut))
}

/// Takes what the reader has at hand of a line, and its end; whether that was all of the line.
fn take_part<R: BufRead>(input: &mut R, line: &mut Vec<u8>) -> io::Result<bool>
    requires { length line.old.items ≤ LINE_LIMIT + 1 }
    ensures part { IfOk result (IsPart (R.remaining input.old) (R.remaining input.new) line.old.items line.new.items) }
    ensures short { OnOk result (length line.new.items ≤ LINE_LIMIT + 1) }
{
    let available = match input.fill_buf() {
        Ok(available) => available,
        Err(error) => {
            return if is_interrupted(&error) {
                Ok(false)
            } else {
                Err(error)
            };
        }
    };
    let len = line_len(available);
    keep(line, &available[..len])?;
    if len < available.len() {
        input.consume(len + 1);
        return Ok(true);
    }
    input.consume(len);
    // nothing at hand: the input has ended
    Ok(len == 0)
}

/// Reads a line without its end.
fn read_line<R: BufRead>(input: &mut R, line: &mut Vec<u8>) -> io::Result<()>
    ensures { OnOk result (IsLine (R.remaining input.old) (R.remaining input.new) line.new.items) }
{
    line.clear();
    for _ in 0..u64::MAX {
        if take_part(input, line)? {
            return Ok(());
        }
    }
    Err(io::Error::from(ErrorKind::TimedOut))
}

/// Reads the next line without its end into `line`; false at the end of the input. Of an overlong line the front is kept, of one
/// octet more than the limit.
pub fn next_line<R: BufRead>(input: &mut R, line: &mut Vec<u8>) -> io::Result<bool>
    ensures { IfOk result (IsNextLine (R.remaining input.old) (R.remaining input.new) line.new.items) }
{
    if is_at_end(input)? {
        return Ok(false);
    }
    read_line(input, line)?;
    Ok(true)
}
