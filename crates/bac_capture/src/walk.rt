//! Passing over a capture file, record by record and block by block.
ghost use Rattle.std.specs.Prelude.{◌≡◌, OnOk, IfOk, length};
ghost use Rattle.bac_capture.specs.BlockViews.{layout_view, block_view};
ghost use Rattle.bac_capture.specs.Blocks.{block_at};
ghost use Rattle.bac_capture.specs.Files.{head_len_of};
ghost use Rattle.bac_capture.specs.Reports.{AreWalked, IsBroken, IsFileWalked, IsStep, IsTaken, IsWholeTaken};

use crate::report::FileReport;
use crate::{Block, FileFault, FileSignature, Layout, Ports};
use bac_text::CheckError;
use std::alloc::Global;
use std::io;
use std::io::{BufRead, ErrorKind, Write};

/// The result of reading the next record or block.
#[derive(Clone, Copy)]
enum Step {
    /// The file ends.
    Ended,
    /// The file cannot be read further.
    Broken,
    /// A record or block was handled.
    Taken,
}

/// Handles the content of a record or block: the report sees a frame.
fn take<W: Write, V: FileReport<W>>(
    layout: &mut Layout,
    block: Block<'_>,
    ports: Ports,
    report: &mut V,
    out: &mut W,
) -> Result<(), CheckError>
    ensures { OnOk result (IsTaken V.State (V.Visits ports.also) (layout_view layout.old) (layout_view layout.new) (block_view block.entry)
        (W.contents out.old) (W.contents out.new) (V.state report.old) (V.state report.new)) }
{
    if let Block::Frame(frame) = block {
        return report.visit_frame(frame, ports, out);
    }
    match layout.take_in(block) {
        Ok(()) => Ok(()),
        Err(_) => Err(CheckError::Memory),
    }
}

/// Reports that the file cannot be read further.
fn break_off<W: Write, V: FileReport<W>>(
    fault: FileFault,
    report: &mut V,
    out: &mut W,
) -> Result<Step, CheckError>
    ensures { IfOk result (IsBroken V.State V.Breaks fault (W.contents out.old) (W.contents out.new) (V.state report.old) (V.state report.new)) }
{
    match report.break_off(fault, out) {
        Ok(()) => Ok(Step::Broken),
        Err(error) => Err(error),
    }
}

/// Handles a record or a block with this head and this body.
fn take_whole<W: Write, V: FileReport<W>>(
    layout: &mut Layout,
    head: &[u8],
    body: &[u8],
    ports: Ports,
    report: &mut V,
    out: &mut W,
) -> Result<Step, CheckError>
    requires { length head.now ≡ head_len_of (layout_view layout.old).form }
    ensures { IfOk result (IsWholeTaken V.State (V.Visits ports.also) V.Breaks (layout_view layout.old) (layout_view layout.new)
        (block_at (layout_view layout.old) head.now body.now) (W.contents out.old) (W.contents out.new) (V.state report.old) (V.state report.new)) }
{
    let block = match layout.block(head, body) {
        Ok(block) => block,
        Err(fault) => return break_off(fault, report, out),
    };
    match take(layout, block, ports, report, out) {
        Ok(()) => Ok(Step::Taken),
        Err(error) => Err(error),
    }
}

/// The buffers for records and blocks, which are reused.
#[derive(Drop)]
struct Buffers {
    head: Vec<u8>,
    body: Vec<u8>,
}

/// Reads and handles the next record or block.
fn take_next<R: BufRead, W: Write, V: FileReport<W>>(
    layout: &mut Layout,
    input: &mut R,
    buffers: &mut Buffers,
    ports: Ports,
    report: &mut V,
    out: &mut W,
) -> Result<Step, CheckError>
    ensures { IfOk result (IsStep V.State (V.Visits ports.also) V.Breaks (layout_view layout.old) (layout_view layout.new)
        (R.remaining input.old) (R.remaining input.new) (W.contents out.old) (W.contents out.new) (V.state report.old) (V.state report.new)) }
{
    match layout.read(input, &mut buffers.head, &mut buffers.body) {
        Ok(Ok(true)) => take_whole(layout, &buffers.head, &buffers.body, ports, report, out),
        Ok(Ok(false)) => Ok(Step::Ended),
        Ok(Err(fault)) => break_off(fault, report, out),
        Err(error) => Err(CheckError::Input(error)),
    }
}

/// Reads and handles the remaining records or blocks.
fn walk_records<R: BufRead, W: Write, V: FileReport<W>>(
    alloc: Global,
    layout: &mut Layout,
    input: &mut R,
    ports: Ports,
    report: &mut V,
    out: &mut W,
) -> Result<(), CheckError>
    ensures { OnOk result (AreWalked V.State (V.Visits ports.also) V.Breaks (layout_view layout.old) (R.remaining input.old)
        (W.contents out.old) (W.contents out.new) (V.state report.old) (V.state report.new)) }
{
    let mut buffers = Buffers {
        head: Vec::new(alloc),
        body: Vec::new(alloc),
    };
    for _ in 0..u64::MAX {
        match take_next(layout, input, &mut buffers, ports, report, out)? {
            Step::Ended => return Ok(()),
            Step::Broken => return Ok(()),
            Step::Taken => {}
        }
    }
    Err(CheckError::Input(io::Error::from(ErrorKind::TimedOut)))
}

/// Passes over a capture file with this signature: the report sees each frame in the order of the file, up to its end or to where it
/// cannot be read further. Memory does not grow with the file.
pub(crate) fn walk_file<R: BufRead, W: Write, V: FileReport<W>>(
    alloc: Global,
    signature: FileSignature,
    input: &mut R,
    ports: Ports,
    report: &mut V,
    out: &mut W,
) -> Result<(), CheckError>
    ensures { OnOk result (IsFileWalked V.State (V.Visits ports.also) V.Breaks signature (R.remaining input.old)
        (W.contents out.old) (W.contents out.new) (V.state report.old) (V.state report.new)) }
{
    match Layout::begin(alloc, signature, input) {
        Ok(Ok(mut layout)) => walk_records(alloc, &mut layout, input, ports, report, out),
        Ok(Err(fault)) => report.break_off(fault, out),
        Err(error) => Err(CheckError::Input(error)),
    }
}
