//! Files, opened for reading: what is read of them is what they contain.
ghost use Rattle.std.specs.Prelude.{IfOk, IfErr};
ghost use Rattle.std.specs.Io.Buffered.{reader_remaining};
ghost use Rattle.bac_text.specs.Statuses.{IsStop};
ghost use Rattle.bac_environment.specs.Files.{OnFile};

use crate::digit_lines::DigitLines;
use crate::watched::Watched;
use bac_environment::{OpenFiles, opened};
use bac_text::{Status, no_memory};
use std::alloc::Global;
use std::io::{BufReader, Write};

/// How many octets of a file are read at once.
const READ_AT_ONCE: usize = 65_536;

/// A file, opened for reading, that remembers why a read failed, and looks at those lines, if there are any. Where it cannot be opened, `err` and the status say so.
pub(crate) fn watched_of<F: OpenFiles, E: Write>(
    files: &F,
    path: &str,
    lines: Option<DigitLines>,
    err: &mut E,
) -> Result<Watched<F::File>, Status>
    ensures opened { IfOk result (λ w. F.is_file path.now w.file) }
    ensures told { IfErr result IsStop }
{
    let file = opened(files, path, err)?;
    Ok(Watched::new(file, lines))
}

/// The same with a buffer. Where memory is refused, `err` and the status say so too.
fn buffered_of<F: OpenFiles, E: Write>(
    alloc: Global,
    files: &F,
    path: &str,
    lines: Option<DigitLines>,
    err: &mut E,
) -> Result<BufReader<Watched<F::File>>, Status>
    ensures at { IfOk result (λ r. OnFile F.is_file F.File.remaining path.now (reader_remaining (λ w. F.File.remaining w.file) r)) }
    ensures told { IfErr result IsStop }
{
    let file = watched_of(files, path, lines, err)?;
    match BufReader::with_capacity(alloc, READ_AT_ONCE, file) {
        Ok(reader) => Ok(reader),
        Err(_) => Err(no_memory(err)),
    }
}

/// A file, opened for reading, with a buffer; it remembers why a read failed. Where it cannot be opened, or memory is refused, `err` and the status say so.
pub(crate) fn reader_of<F: OpenFiles, E: Write>(
    alloc: Global,
    files: &F,
    path: &str,
    err: &mut E,
) -> Result<BufReader<Watched<F::File>>, Status>
    ensures at { IfOk result (λ r. OnFile F.is_file F.File.remaining path.now (reader_remaining (λ w. F.File.remaining w.file) r)) }
    ensures told { IfErr result IsStop }
{
    buffered_of(alloc, files, path, None, err)
}

/// The same, which looks for the first line that is no hexadecimal.
pub(crate) fn digits_of<F: OpenFiles, E: Write>(
    alloc: Global,
    files: &F,
    path: &str,
    err: &mut E,
) -> Result<BufReader<Watched<F::File>>, Status>
    ensures at { IfOk result (λ r. OnFile F.is_file F.File.remaining path.now (reader_remaining (λ w. F.File.remaining w.file) r)) }
    ensures told { IfErr result IsStop }
{
    buffered_of(alloc, files, path, Some(DigitLines::new(alloc)), err)
}
