//! Object types and identifiers in a document (clause 20.2.14).
ghost use Rattle.std.specs.Prelude.{◌≡◌, ◌≤◌, IfOk};
ghost use Rattle.bac_value.specs.Steps.{ReadsAll};
ghost use Rattle.bac_value.specs.Views.{object_identifier_view};
ghost use Rattle.toml.specs.View.{view, table_view};
ghost use Rattle.bac_objects.specs.Identifiers.{identifier_of, named as named_of, the_instance as instance_of, the_type as the_type_of, type_of};

use crate::held::{count, member};
use crate::problem::{Given, Problem, Wanted};
use crate::scalars::{number_up_to, table};
use bac_value::ObjectIdentifier;
use bac_value_text::object_type_number;
use toml::{Table, Value};

/// The object type with this name.
#[tactic(auto, unfolding(crate::specs::Identifiers::named))]
fn named(wanted: Wanted, name: &str) -> Result<u64, Problem>
    ensures is { result ≡ named_of wanted name.now }
    ensures within { IfOk result (λ n. n ≤ 1023) }
{
    match object_type_number(name) {
        Some(number) if number <= 1023 => Ok(u64::from(number)),
        _ => Err(Problem {
            wanted,
            given: Given::Other,
        }),
    }
}

fn type_in(wanted: Wanted, value: &Value) -> Result<u64, Problem>
    ensures is { result ≡ type_of wanted (view value.now) }
    ensures within { IfOk result (λ n. n ≤ 1023) }
{
    match value.as_str() {
        Some(name) => named(wanted, name),
        None => number_up_to(1023, wanted, value),
    }
}

/// The type under the key `type`.
pub(crate) fn the_type(wanted: Wanted, table: &Table) -> Result<u64, Problem>
    ensures is { result ≡ the_type_of wanted (table_view table.now) }
    ensures within { IfOk result (λ n. n ≤ 1023) }
{
    match member(table, "type") {
        Some(value) => type_in(wanted, value),
        None => Err(Problem {
            wanted,
            given: Given::Nothing,
        }),
    }
}

/// The instance under the key `instance`.
pub(crate) fn the_instance(most: u64, wanted: Wanted, table: &Table) -> Result<u64, Problem>
    ensures is { result ≡ instance_of most wanted (table_view table.now) }
    ensures within { IfOk result (λ n. n ≤ most) }
{
    match member(table, "instance") {
        Some(value) => number_up_to(most, wanted, value),
        None => Err(Problem {
            wanted,
            given: Given::Nothing,
        }),
    }
}

/// An identifier with any type and instance, in a table without other keys.
#[tactic(auto, unfolding(crate::specs::Identifiers::identifier_of))]
pub(crate) fn identifier_in(value: &Value) -> Result<ObjectIdentifier, Problem>
    ensures { ReadsAll object_identifier_view result (identifier_of (view value.now)) }
{
    let table = table(Wanted::Identifier, value)?;
    let kind = the_type(Wanted::ObjectType, table)?;
    let instance = the_instance(4_194_303, Wanted::AnyInstance, table)?;
    if count(table) != 2 {
        return Err(Problem {
            wanted: Wanted::Identifier,
            given: Given::More,
        });
    }
    Ok(ObjectIdentifier {
        kind: kind as u16,
        instance: instance as u32,
    })
}
