//! A line of a chart as a row of characters: a cell for each node, which begins with the node's line.
ghost use Rattle.std.specs.Prelude.{◌≡◌, ◌+◌, ◌<◌, ◌≤◌, ◌^◌, IfOk, string_bytes};
ghost use Rattle.bac_chart.specs.Rows.{arrow_cell, cell, cell_end, cell_start, cell_text, cells, filled, first_cell, middle_cell, moment_text, note_cell, row_text};
ghost use Rattle.bac_chart.specs.Views.{line_view};

use crate::line::Line;
use std::alloc::{AllocError, Global};

/// An empty cell, 41 characters wide.
const BLANK: &[u8; 41] = b"                                         ";

/// The shaft of an arrow: as wide as a cell without the three characters at its start and the one at its end.
const DASHES: &[u8; 37] = b"-------------------------------------";

/// How many characters of an arrow's words there is room for.
const ROOM: usize = 37;

/// The text of a cell, filled up to its width; not in the last cell of a row.
pub(crate) fn filled(is_last: bool, mut text: Vec<u8>) -> Result<Vec<u8>, AllocError>
    ensures { IfOk result (λ t. t.items ≡ filled is_last text.items) }
{
    if is_last {
        return Ok(text);
    }
    let blank: &[u8] = BLANK;
    let len = text.len();
    if len < blank.len() {
        text.extend_from_slice(&blank[len..])?;
    }
    Ok(text)
}

/// A node's cell in a line of what happens at one node, `here` or elsewhere.
fn note_cell(alloc: Global, here: bool, words: &[u8]) -> Result<Vec<u8>, AllocError>
    ensures { IfOk result (λ t. t.items ≡ note_cell here words.now) }
{
    if !here {
        return Vec::from_slice(alloc, b"|");
    }
    let mut text = Vec::from_slice(alloc, b"| ")?;
    text.extend_from_slice(words)?;
    Ok(text)
}

/// How the left cell of an arrow begins: where it starts, or with its head.
fn cell_start(to_right: bool, is_lost: bool) -> &'static [u8]
    ensures { result.now ≡ cell_start to_right is_lost }
{
    if to_right {
        b"|--"
    } else if is_lost {
        b"|x-"
    } else {
        b"|<-"
    }
}

/// How a cell of an arrow ends: it goes on, or has its head, an x where the datagram is lost.
fn cell_end(reaches: bool, is_lost: bool) -> &'static [u8]
    ensures { result.now ≡ cell_end reaches is_lost }
{
    if !reaches {
        b"-"
    } else if is_lost {
        b"x"
    } else {
        b">"
    }
}

fn first_cell(
    alloc: Global,
    to_right: bool,
    reaches: bool,
    is_lost: bool,
    words: &[u8],
) -> Result<Vec<u8>, AllocError>
    ensures { IfOk result (λ t. t.items ≡ first_cell to_right reaches is_lost words.now) }
{
    let mut shaft = Vec::from_slice(alloc, words)?;
    // the words, and dashes for the rest of the cell
    shaft.extend_from_slice(DASHES)?;
    shaft.truncate(ROOM);
    let mut text = Vec::from_slice(alloc, cell_start(to_right, is_lost))?;
    text.extend_from_slice(&shaft)?;
    text.extend_from_slice(cell_end(reaches, is_lost))?;
    Ok(text)
}

fn middle_cell(alloc: Global, reaches: bool, is_lost: bool) -> Result<Vec<u8>, AllocError>
    ensures { IfOk result (λ t. t.items ≡ middle_cell reaches is_lost) }
{
    let mut text = Vec::from_slice(alloc, b"---")?;
    text.extend_from_slice(DASHES)?;
    text.extend_from_slice(cell_end(reaches, is_lost))?;
    Ok(text)
}

/// A node's cell in a line with an arrow: its left end, a cell that it crosses, or one beside it.
fn arrow_cell(alloc: Global, node: u64, line: &Line) -> Result<Vec<u8>, AllocError>
    requires { node + 1 < 2 ^ 64 }
    ensures { IfOk result (λ t. t.items ≡ arrow_cell node (line_view line.now)) }
{
    let to_right = line.from < line.to;
    let reaches = to_right && node + 1 == line.to;
    let left = if to_right { line.from } else { line.to };
    let right = if to_right { line.to } else { line.from };
    if node == left {
        first_cell(alloc, to_right, reaches, line.is_lost, &line.words)
    } else if left < node && node < right {
        middle_cell(alloc, reaches, line.is_lost)
    } else {
        Vec::from_slice(alloc, b"|")
    }
}

fn cell_text(alloc: Global, node: u64, line: &Line) -> Result<Vec<u8>, AllocError>
    requires { node + 1 < 2 ^ 64 }
    ensures { IfOk result (λ t. t.items ≡ cell_text node (line_view line.now)) }
{
    if line.from == line.to {
        note_cell(alloc, node == line.from, &line.words)
    } else {
        arrow_cell(alloc, node, line)
    }
}

fn cell(alloc: Global, nodes: u64, line: &Line, node: u64) -> Result<Vec<u8>, AllocError>
    requires { node < nodes }
    ensures { IfOk result (λ t. t.items ≡ cell nodes (line_view line.now) node) }
{
    let text = cell_text(alloc, node, line)?;
    filled(node + 1 == nodes, text)
}

fn cells(alloc: Global, nodes: u64, line: &Line) -> Result<Vec<u8>, AllocError>
    ensures { IfOk result (λ t. t.items ≡ cells nodes (line_view line.now) nodes) }
{
    let mut text = Vec::new(alloc);
    for node in 0..nodes {
        let cell = cell(alloc, nodes, line, node)?;
        text.extend_from_slice(&cell)?;
    }
    Ok(text)
}

/// A moment to the left, in eight characters.
fn moment_text(alloc: Global, moment: u64) -> Result<Vec<u8>, AllocError>
    ensures { IfOk result (λ t. t.items ≡ moment_text moment) }
{
    let digits = format!(in alloc; "{moment}  ")?;
    let mut text = Vec::new(alloc);
    // eight characters, and the two blanks behind them
    if digits.len() < 10 {
        text.extend_from_slice(&b"          "[digits.len()..])?;
    }
    text.extend_from_slice(digits.as_bytes())?;
    Ok(text)
}

/// A line of a chart for a terminal.
pub(crate) fn row_text(alloc: Global, nodes: u64, line: &Line) -> Result<Vec<u8>, AllocError>
    ensures { IfOk result (λ t. t.items ≡ row_text nodes (line_view line.now)) }
{
    let mut text = moment_text(alloc, line.moment)?;
    let cells = cells(alloc, nodes, line)?;
    text.extend_from_slice(&cells)?;
    text.push(b'\n')?;
    Ok(text)
}
