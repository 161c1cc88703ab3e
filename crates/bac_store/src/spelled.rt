//! Computed values, encoded as data.
ghost use Rattle.std.specs.Prelude.{◌≡◌, ◌<◌, ◌+◌, ◌^◌, length, IfOk};
ghost use Rattle.std.specs.String.{string_bytes};
ghost use Rattle.bac_value.specs.Value.{characters};
ghost use Rattle.bac_value.specs.Views.{value_view};
ghost use Rattle.bac_value.specs.Writing.{value_spelling};
ghost use Rattle.bac_store.specs.Limits.{VALUE_LIMIT};

use bac_value::{CharacterString, DataBuf, NoMemory, Value, write_value};
use std::alloc::Global;

/// A value encoded as data.
pub(crate) fn spelled(alloc: Global, value: &Value) -> Result<DataBuf, NoMemory>
    ensures { IfOk result (λ d. d.octets.items ≡ value_spelling (value_view value.now)) }
{
    let mut octets = Vec::new(alloc);
    write_value(value, &mut octets)?;
    Ok(DataBuf { octets })
}

/// A text in character set 0, encoded as data.
pub(crate) fn spelled_text(alloc: Global, text: &str) -> Result<DataBuf, NoMemory>
    requires { length text.now < VALUE_LIMIT }
    ensures { IfOk result (λ d. d.octets.items ≡ value_spelling (characters 0 text.now)) }
{
    let text = Vec::from_slice(alloc, text.as_bytes())?;
    spelled(
        alloc,
        &Value::CharacterString(CharacterString { set: 0, text }),
    )
}
