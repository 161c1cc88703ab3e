//! Rows of what is of no transaction.
ghost use Rattle.std.specs.Prelude.{◌≡◌, IfOk, string_bytes};
ghost use Rattle.bac_explain.specs.KeyViews.{key_view};
ghost use Rattle.bac_explain_html.specs.Notes.{finding_note, stray_note, unread_note};

use bac_explain::{Finding, TransactionKey};
use bac_explain_report::Unread;
use bac_text::peer_text;
use std::alloc::{AllocError, Global};

/// The row of a frame that cannot be read.
pub(crate) fn unread_note(alloc: Global, frame: u64, why: Unread) -> Result<String, AllocError>
    ensures { IfOk result (λ t. string_bytes t ≡ unread_note frame why) }
{
    format!(in alloc;
        "<tbody class=\"o\"><tr><td colspan=\"9\">frame {frame}: {why}</td></tr></tbody>\n"
    )
}

fn stray_note(
    alloc: Global,
    frame: u64,
    key: TransactionKey,
    finding: Finding,
) -> Result<String, AllocError>
    ensures { IfOk result (λ t. string_bytes t ≡ stray_note frame (key_view key) finding) }
{
    let client = peer_text(alloc, key.client)?;
    let server = peer_text(alloc, key.server)?;
    let invoke_id = key.invoke_id;
    format!(in alloc;
        "<tbody class=\"o\"><tr><td>{client}</td><td>{server}</td><td class=\"n\">{invoke_id}</td><td colspan=\"5\">frame {frame}</td><td class=\"f\">{finding}</td></tr></tbody>\n"
    )
}

/// The row of an answer to no request; what else is wrong stands in the row of its transaction.
pub(crate) fn finding_note(
    alloc: Global,
    frame: u64,
    key: TransactionKey,
    finding: Option<Finding>,
) -> Result<String, AllocError>
    ensures { IfOk result (λ t. string_bytes t ≡ finding_note frame (key_view key) finding) }
{
    match finding {
        Some(Finding::AnswerToNoRequest) => {
            stray_note(alloc, frame, key, Finding::AnswerToNoRequest)
        }
        _ => Ok(String::new(alloc)),
    }
}
