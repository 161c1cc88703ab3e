//! A line of JSON.
ghost use Rattle.std.specs.Prelude.{IfOk, OnOk};
ghost use Rattle.bac_json_report.specs.Lines.{IsJsonLine};
ghost use Rattle.bac_text.specs.Texts.{AppendsText};
ghost use Rattle.serde_json.specs.View.{view};

use serde_json::Value as Json;
use std::alloc::{AllocError, Global};
use std::io;
use std::io::Write;

/// A JSON value as one line, with no spaces between its parts, and the end of the line. An Err is out of memory.
pub fn json_line(alloc: Global, json: &Json) -> Result<Vec<u8>, AllocError>
    ensures { IfOk result (λ t. IsJsonLine (view json.now) t.items) }
{
    let mut line = json.to_string(alloc)?.into_bytes();
    line.push(b'\n')?;
    Ok(line)
}

/// Prints a JSON value as one line, with no spaces between its parts. An Err is the writer's, or out of memory.
pub fn print_json<W: Write>(alloc: Global, json: &Json, out: &mut W) -> io::Result<()>
    ensures { OnOk result (AppendsText (W.contents out.old) (W.contents out.new) (IsJsonLine (view json.now))) }
{
    let line = json_line(alloc, json)?;
    out.write_all(&line)
}
