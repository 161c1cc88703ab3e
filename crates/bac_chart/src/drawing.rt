//! Marks, drawn one after the other.
ghost use Rattle.std.specs.Prelude.{◌≡◌, ◌<◌, map, length, slice_get, string_bytes, IfOk, OnOk};
ghost use Rattle.std.specs.Io.KnownBytes.{Appends};
ghost use Rattle.bac_chart.specs.Drawings.{drawing_text, ends_text, line_text, mark_text, mermaid_text};
ghost use Rattle.bac_chart.specs.Views.{line_view, mark_view};

use crate::head::head_text;
use crate::line::{Line, line_of};
use crate::mark::Mark;
use crate::row::row_text;
use std::alloc::{AllocError, Global};
use std::io;
use std::io::Write;

/// What marks are drawn as.
#[derive(Clone, Copy, Debug, PartialEq, Eq)]
pub enum ChartFormat {
    /// Text for a terminal: a column for each node, 41 characters wide.
    Chart,
    /// A `sequenceDiagram` of Mermaid.
    Mermaid,
}

/// The ends of a statement of Mermaid: an arrow, one that is lost, or a note over one node.
fn ends_text(alloc: Global, line: &Line) -> Result<String, AllocError>
    ensures { IfOk result (λ t. string_bytes t ≡ ends_text (line_view line.now)) }
{
    let from = line.from;
    let to = line.to;
    if from == to {
        format!(in alloc; "    Note over n{from}")
    } else if line.is_lost {
        format!(in alloc; "    n{from}-xn{to}")
    } else {
        format!(in alloc; "    n{from}->>n{to}")
    }
}

fn mermaid_text(alloc: Global, line: &Line) -> Result<Vec<u8>, AllocError>
    ensures { IfOk result (λ t. t.items ≡ mermaid_text (line_view line.now)) }
{
    let ends = ends_text(alloc, line)?;
    let moment = line.moment;
    let mut text = format!(in alloc; "{ends}: {moment} ms: ")?.into_bytes();
    text.extend_from_slice(&line.words)?;
    text.push(b'\n')?;
    Ok(text)
}

/// The text of a line, where there are so many nodes: a row of a chart, or a statement of Mermaid.
pub fn line_text(
    alloc: Global,
    form: ChartFormat,
    nodes: u64,
    line: &Line,
) -> Result<Vec<u8>, AllocError>
    ensures { IfOk result (λ t. t.items ≡ line_text form nodes (line_view line.now)) }
{
    match form {
        ChartFormat::Chart => row_text(alloc, nodes, line),
        ChartFormat::Mermaid => mermaid_text(alloc, line),
    }
}

/// The text of the mark at a place.
fn mark_text(
    alloc: Global,
    form: ChartFormat,
    nodes: u64,
    marks: &[Mark],
    place: usize,
) -> Result<Vec<u8>, AllocError>
    requires { place < length marks.now }
    ensures { IfOk result (λ t. t.items ≡ mark_text form nodes (map mark_view marks.now) place (slice_get (map mark_view marks.now) place)) }
{
    match line_of(alloc, &marks[..place], &marks[place], &marks[place + 1..])? {
        Some(line) => line_text(alloc, form, nodes, &line),
        None => Ok(Vec::new(alloc)),
    }
}

/// Draws marks, oldest first, of nodes numbered from 0, of which there are so many. A datagram is drawn where it comes, each time that it does; one that never
/// comes is drawn where it was sent, as lost. Fails where memory is refused, by the kind of the error, or where the output does.
pub fn print_drawing<W: Write>(
    alloc: Global,
    form: ChartFormat,
    nodes: u64,
    marks: &[Mark],
    out: &mut W,
) -> io::Result<()>
    ensures { OnOk result (Appends (W.contents out.old) (W.contents out.new) (drawing_text form nodes (map mark_view marks.now))) }
{
    let head = head_text(alloc, form, nodes)?;
    out.write_all(&head)?;
    for place in 0..marks.len() {
        let text = mark_text(alloc, form, nodes, marks, place)?;
        out.write_all(&text)?;
    }
    Ok(())
}
