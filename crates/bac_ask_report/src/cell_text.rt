//! Texts that a spreadsheet would compute.
ghost use Rattle.std.specs.Prelude.{◌≡◌, IfOk};
ghost use Rattle.bac_ask_report.specs.CellTexts.{begins_formula, cell_text, is_computed, is_shielded};

use std::alloc::{AllocError, Global};

/// What a row does with a text that a spreadsheet would compute.
#[derive(Clone, Copy, Debug, PartialEq, Eq)]
pub enum CellText {
    /// An apostrophe stands before it, so that a spreadsheet shows it.
    Shielded,
    /// It stands as it came.
    Raw,
}

/// Whether a spreadsheet computes a text that begins so.
fn begins_formula(octet: u8) -> bool
    ensures { result ≡ begins_formula octet }
{
    octet == b'='
        || octet == b'+'
        || octet == b'-'
        || octet == b'@'
        || octet == b'\t'
        || octet == b'\r'
}

/// Whether a spreadsheet computes the text.
fn is_computed(text: &[u8]) -> bool
    ensures { result ≡ is_computed text.now }
{
    match text {
        [] => false,
        [first, ..] => begins_formula(*first),
    }
}

impl CellText {
    fn is_shielded(self, text: &[u8]) -> bool
        ensures { result ≡ is_shielded self text.now }
    {
        match self {
            CellText::Shielded => is_computed(text),
            CellText::Raw => false,
        }
    }

    /// The text in a row.
    pub(crate) fn of(self, alloc: Global, text: &[u8]) -> Result<Vec<u8>, AllocError>
        ensures { IfOk result (λ t. t.items ≡ cell_text self text.now) }
    {
        let mut field = Vec::new(alloc);
        if self.is_shielded(text) {
            field.push(b'\'')?;
        }
        field.extend_from_slice(text)?;
        Ok(field)
    }
}
