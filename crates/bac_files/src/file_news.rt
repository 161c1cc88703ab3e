//! What `backup`, `restore`, `get` and `put` print of a file.
ghost use Rattle.std.specs.Prelude.{IfErr};
ghost use Rattle.bac_text.specs.Statuses.{IsStop};

use crate::peer_file::end_words;
use crate::whole_reading::Got;
use crate::whole_writing::{Put, Uncut};
use bac_text::{Status, no_memory, output_failed};
use bac_value::ObjectIdentifier;
use bac_value_text::object_text;
use std::alloc::{AllocError, Global};
use std::io;
use std::io::Write;

/// What came of saving a file, or of restoring it.
#[derive(Clone, Copy)]
pub(crate) enum FileNews<'a> {
    /// The folder has its octets, so many.
    Saved(u64),
    /// The peer has the octets of the folder, so many.
    Restored(usize),
    /// So many octets were put, and the peer has so many, of which the first are those.
    Longer(usize, usize),
    /// So many octets were put, and the peer has so many others.
    Differs(usize, usize),
    /// The file of that name in the folder does not have the octets of the manifest.
    Damaged(&'a str),
    /// So many octets were read, and not all, for that reason.
    NotRead(usize, &'a [u8]),
    /// So many octets of so many were put, for that reason.
    NotPut(usize, usize, &'a [u8]),
    /// The peer has more octets than were to be put, and was not emptied, for that reason: what became of them.
    NotCut(Uncut, &'a [u8]),
    /// The peer refused access, with that answer, and says that the file is read-only.
    ReadOnly(&'a [u8]),
}

/// What is said of a file that is read-only.
pub(crate) const READ_ONLY: &str = "is read-only on the device, and nothing was written";

/// Writes what came of it, without the reason that may stand behind.
fn write_news<O: Write>(news: &FileNews<'_>, out: &mut O) -> io::Result<()> {
    match news {
        FileNews::Saved(count) => write!(out, "{count} octets saved"),
        FileNews::Restored(count) => write!(out, "{count} octets restored"),
        FileNews::Longer(count, there) => write!(
            out,
            "remains longer: {there} octets, of which the first {count} were written"
        ),
        FileNews::Differs(count, there) => {
            write!(out, "differs: wrote {count} octets, read back {there}")
        }
        FileNews::Damaged(name) => write!(out, "{name} does not match the manifest"),
        FileNews::NotRead(count, _) => { write!(out, "read stopped after {count} octets: ") }
        FileNews::NotPut(written, count, _) => {
            write!(out, "{written} of {count} octets were written: ")
        }
        FileNews::NotCut(uncut, _) => {
            write_uncut(*uncut, out)?;
            out.write_all(b": ")
        }
        FileNews::ReadOnly(_) => write!(out, "{READ_ONLY}: "),
    }
}

/// Writes what became of a file that was not emptied.
pub(crate) fn write_uncut<O: Write>(uncut: Uncut, out: &mut O) -> io::Result<()> {
    match uncut {
        Uncut::Stays(there) => write!(
            out,
            "stays as it is: it has {there} octets, and the device does not let its length be changed"
        ),
        Uncut::MaybeEmpty => {
            out.write_all(b"may be empty now, as the request to empty it failed")
        }
    }
}

/// The reason that stands behind.
fn reason_of<'a>(news: &FileNews<'a>) -> &'a [u8] {
    match news {
        FileNews::NotRead(_, why) => *why,
        FileNews::NotPut(_, _, why) => *why,
        FileNews::NotCut(_, why) => *why,
        FileNews::ReadOnly(why) => *why,
        _ => &[],
    }
}

fn write_line<O: Write>(
    alloc: Global,
    object: ObjectIdentifier,
    news: &FileNews<'_>,
    out: &mut O,
) -> io::Result<()> {
    let name = object_text(alloc, object)?;
    out.write_all(name.as_slice())?;
    out.write_all(b" ")?;
    write_news(news, out)?;
    out.write_all(reason_of(news))?;
    out.write_all(b"\n")?;
    out.flush()
}

/// Prints what came of a file, behind its name. Where that fails, `err` and the status say so.
pub(crate) fn print_news<O: Write, E: Write>(
    alloc: Global,
    object: ObjectIdentifier,
    news: &FileNews<'_>,
    out: &mut O,
    err: &mut E,
) -> Result<(), Status>
    ensures told { IfErr result IsStop }
{
    match write_line(alloc, object, news, out) {
        Ok(()) => Ok(()),
        Err(error) => Err(output_failed(err, &error)),
    }
}

/// Tells on `err` what came of a file, behind its name.
pub(crate) fn tell_news<E: Write>(
    alloc: Global,
    object: ObjectIdentifier,
    news: &FileNews<'_>,
    err: &mut E,
) {
    // if that fails too, only the status is left
    let _ = write_line(alloc, object, news, err);
}

/// What came of so many octets that were not put as a whole, for that reason.
pub(crate) fn news_of_unput<'a>(count: usize, put: &Put, why: &'a [u8]) -> FileNews<'a> {
    if put.is_read_only {
        return FileNews::ReadOnly(why);
    }
    match put.uncut {
        Some(uncut) => FileNews::NotCut(uncut, why),
        None => FileNews::NotPut(put.count, count, why),
    }
}

/// Why a file was not read to its end: what was wrong with its last part, or how the last read ended.
fn reason_in(alloc: Global, got: &Got) -> Result<Vec<u8>, AllocError> {
    match got.fault {
        Some(fault) => {
            let text = format!(in alloc; "{fault}")?;
            Ok(text.into_bytes())
        }
        None => end_words(alloc, &got.last),
    }
}

/// Prints that a file was not read to its end, and why.
pub(crate) fn print_not_read<O: Write, E: Write>(
    alloc: Global,
    object: ObjectIdentifier,
    got: &Got,
    out: &mut O,
    err: &mut E,
) -> Result<(), Status>
    ensures told { IfErr result IsStop }
{
    let Ok(why) = reason_in(alloc, got) else {
        return Err(no_memory(err));
    };
    let count = got.octets.len();
    print_news(alloc, object, &FileNews::NotRead(count, &why), out, err)
}

/// Tells on `err` that a file was not read to its end, and why.
pub(crate) fn tell_not_read<E: Write>(
    alloc: Global,
    object: ObjectIdentifier,
    got: &Got,
    err: &mut E,
) -> Result<(), Status>
    ensures told { IfErr result IsStop }
{
    let Ok(why) = reason_in(alloc, got) else {
        return Err(no_memory(err));
    };
    let count = got.octets.len();
    tell_news(alloc, object, &FileNews::NotRead(count, &why), err);
    Ok(())
}
