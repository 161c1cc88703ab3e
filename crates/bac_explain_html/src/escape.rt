//! Texts as HTML.
ghost use Rattle.std.specs.Prelude.{◌≡◌, IfOk};
ghost use Rattle.std.specs.Option.{option_map};
ghost use Rattle.bac_explain_html.specs.Escapes.{cell, entity, escaped};

use std::alloc::{AllocError, Global};

/// What stands for an octet that HTML would read as its own.
fn entity(octet: u8) -> Option<&'static str>
    ensures { option_map (λ t. t.now) result ≡ entity octet }
{
    match octet {
        b'&' => Some("&amp;"),
        b'<' => Some("&lt;"),
        b'>' => Some("&gt;"),
        b'"' => Some("&quot;"),
        b'\'' => Some("&#39;"),
        _ => None,
    }
}

/// A text as HTML shows it.
pub(crate) fn escaped(alloc: Global, text: &[u8]) -> Result<Vec<u8>, AllocError>
    ensures { IfOk result (λ t. t.items ≡ escaped text.now) }
{
    let mut shown = Vec::new(alloc);
    for octet in text {
        match entity(*octet) {
            Some(name) => shown.extend_from_slice(name.as_bytes())?,
            None => shown.push(*octet)?,
        }
    }
    Ok(shown)
}

/// A cell of a table with this text.
pub(crate) fn cell(alloc: Global, text: &[u8]) -> Result<Vec<u8>, AllocError>
    ensures { IfOk result (λ t. t.items ≡ cell text.now) }
{
    let shown = escaped(alloc, text)?;
    let mut cell = Vec::from_slice(alloc, b"<td>")?;
    cell.extend_from_slice(&shown)?;
    cell.extend_from_slice(b"</td>")?;
    Ok(cell)
}
