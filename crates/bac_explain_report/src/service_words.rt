//! Services by name.
ghost use Rattle.std.specs.Prelude.{◌≡◌, IfOk};
ghost use Rattle.bac_explain_report.specs.ServiceWords.{segments_words, service_words};

use bac_text::confirmed_service_name;
use std::alloc::{AllocError, Global};

/// The name of a confirmed service, as `read-property-multiple`; `service` and its choice where the standard has no name for it.
pub(crate) fn service_words(alloc: Global, choice: u8) -> Result<Vec<u8>, AllocError>
    ensures { IfOk result (λ t. t.items ≡ service_words choice) }
{
    match confirmed_service_name(choice) {
        Some(name) => Vec::from_slice(alloc, name.as_bytes()),
        None => {
            let text = format!(in alloc; "service {choice}")?;
            Ok(text.into_bytes())
        }
    }
}

/// The same of a service of whose data only a segment is at hand.
pub(crate) fn segments_words(alloc: Global, choice: u8) -> Result<Vec<u8>, AllocError>
    ensures { IfOk result (λ t. t.items ≡ segments_words choice) }
{
    let mut words = service_words(alloc, choice)?;
    words.extend_from_slice(b" in segments")?;
    Ok(words)
}
