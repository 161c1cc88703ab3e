//! The texts of transaction keys.
ghost use Rattle.std.specs.Prelude.{◌≡◌, IfOk, string_bytes};
ghost use Rattle.bac_explain.specs.KeyViews.{key_view};
ghost use Rattle.bac_explain_report.specs.Keys.{key_text};

use bac_explain::TransactionKey;
use bac_text::peer_text;
use std::alloc::{AllocError, Global};

/// A transaction: the client, the server and the invoke ID, as `192.168.1.5:47808 > 192.168.1.9:47808 id 1`.
pub(crate) fn key_text(alloc: Global, key: TransactionKey) -> Result<String, AllocError>
    ensures { IfOk result (λ t. string_bytes t ≡ key_text (key_view key)) }
{
    let client = peer_text(alloc, key.client)?;
    let server = peer_text(alloc, key.server)?;
    let invoke_id = key.invoke_id;
    format!(in alloc; "{client} > {server} id {invoke_id}")
}
