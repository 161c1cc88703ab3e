//! What clients may write to the present-value of a multi-state object that gives it no limits (clauses 12.18 to 12.20).
ghost use Rattle.std.specs.Prelude.{◌≡◌, map, IfOk};
ghost use Rattle.bac_store.specs.Views.{allowed_view, property_view};
ghost use Rattle.bac_objects.specs.States.{limited as limited_of, or_states as or_states_of, up_to_states as up_to_states_of, with_states as with_states_of};

use crate::consistency::{NUMBER_OF_STATES, is_multi_state, number_in, values_of};
use crate::property::{PRESENT_VALUE, spelled};
use bac_store::{Allowed, Property};
use bac_value::{NoMemory, Value};
use std::alloc::Global;

/// The limits from the first state to the last of so many.
fn up_to_states(alloc: Global, states: u64) -> Result<Allowed, NoMemory>
    ensures { IfOk result (λ a. allowed_view a ≡ up_to_states_of states) }
{
    let least = spelled(alloc, &Value::Unsigned(1))?;
    let greatest = spelled(alloc, &Value::Unsigned(states))?;
    Ok(Allowed::Between { least, greatest })
}

/// The limits that a document gives; where it gives none, those of so many states.
fn or_states(alloc: Global, states: u64, allowed: Allowed) -> Result<Allowed, NoMemory>
    ensures { IfOk result (λ a. allowed_view a ≡ or_states_of states (allowed_view allowed)) }
{
    match allowed {
        Allowed::Any => up_to_states(alloc, states),
        Allowed::Between { least, greatest } => Ok(Allowed::Between { least, greatest }),
        Allowed::OneOf(listed) => Ok(Allowed::OneOf(listed)),
    }
}

/// A property of an object with so many states.
fn with_states(alloc: Global, states: u64, property: Property) -> Result<Property, NoMemory>
    ensures { IfOk result (λ p. property_view p ≡ with_states_of states (property_view property)) }
{
    if property.number != PRESENT_VALUE || !property.writable {
        return Ok(property);
    }
    let Property {
        number,
        values,
        writable,
        allowed,
    } = property;
    let allowed = or_states(alloc, states, allowed)?;
    Ok(Property {
        number,
        values,
        writable,
        allowed,
    })
}

/// The properties of an object with so many states.
fn each_with_states(
    alloc: Global,
    states: u64,
    properties: Vec<Property>,
) -> Result<Vec<Property>, NoMemory>
    ensures { IfOk result (λ v. map property_view v.items ≡ map (with_states_of states) (map property_view properties.items)) }
{
    let mut limited = Vec::with_capacity(alloc, properties.len())?;
    for property in properties {
        limited.push(with_states(alloc, states, property)?)?;
    }
    Ok(limited)
}

/// The properties of an object of this type: clients may set the present-value of a multi-state one to one of its states, where the document gives no limits.
pub(crate) fn limited(
    alloc: Global,
    kind: u16,
    properties: Vec<Property>,
) -> Result<Vec<Property>, NoMemory>
    ensures { IfOk result (λ v. map property_view v.items ≡ limited_of kind (map property_view properties.items)) }
{
    if !is_multi_state(kind) {
        return Ok(properties);
    }
    match number_in(values_of(NUMBER_OF_STATES, &properties)) {
        Some(states) => each_with_states(alloc, states, properties),
        None => Ok(properties),
    }
}
