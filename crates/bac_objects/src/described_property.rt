//! A property of any number, with its limits, in a document that says `described = true`.
ghost use Rattle.std.specs.Prelude.{◌≡◌, ◌≤◌, [], map};
ghost use Rattle.std.specs.Option.{option_map};
ghost use Rattle.bac_store.specs.Views.{allowed_view, data_view, property_view};
ghost use Rattle.toml.specs.View.{array_view, table_view, view};
ghost use Rattle.bac_point_text.specs.Views.{maybe_names};
ghost use Rattle.bac_objects.specs.Answers.{Reads};
ghost use Rattle.bac_objects.specs.Described.{between as between_of, its_own as its_own_of, limits_in as limits_of, limits_with, named_property as named_property_of, no_more as no_more_of, one_if as one_if_of};
ghost use Rattle.bac_objects.specs.Described.{one_of as one_of_of, property_of, spellings_on, tabled_property as tabled_property_of, with_spelling as with_spelling_of};
ghost use Rattle.bac_objects.specs.Identifiers.{or_other};
ghost use Rattle.bac_value.specs.Steps.{ReadsAll};
ghost use Rattle.bac_value_text.specs.Reading.{property_of as property_word};
ghost use Rattle.bac_objects.specs.declared.problem.Wanted.TheVariants as want;

use crate::consistency::fitting_values;
use crate::fault::ValueFault;
use crate::form::{Kind, ValueForm};
use crate::held::{count, forms, found, is_writable, member};
use crate::names::{is_bare, names_of};
use crate::problem::{Given, Problem, Wanted};
use crate::property::values_in;
use crate::scalars::{array, table};
use bac_point_text::Enumeration;
use bac_store::{Allowed, Property};
use bac_value::DataBuf;
use std::alloc::Global;
use toml::value::Array;
use toml::{Table, Value};

/// The values of a list, with one more.
fn with_spelling(
    alloc: Global,
    names: Option<Enumeration>,
    form: ValueForm,
    done: Vec<DataBuf>,
    value: &Value,
) -> Result<Vec<DataBuf>, ValueFault>
    ensures { Reads (λ v. map data_view v.items) result (with_spelling_of (maybe_names names) form (map data_view done.items) (view value.now)) }
{
    let values = values_in(alloc, names, form, value)?;
    let mut listed = done;
    listed.push(values)?;
    Ok(listed)
}

/// The values of a list, each in this form.
fn spellings(
    alloc: Global,
    names: Option<Enumeration>,
    form: ValueForm,
    list: &Array,
) -> Result<Vec<DataBuf>, ValueFault>
    ensures { Reads (λ v. map data_view v.items) result (spellings_on (maybe_names names) form [] (array_view list.now)) }
{
    let mut listed = Vec::new(alloc);
    for value in list {
        listed = with_spelling(alloc, names, form, listed, value)?;
    }
    Ok(listed)
}

/// Limits from a least to a greatest value.
#[tactic(auto, unfolding(crate::specs::Described::between))]
fn between(
    alloc: Global,
    names: Option<Enumeration>,
    form: ValueForm,
    least: &Value,
    greatest: &Value,
) -> Result<Allowed, ValueFault>
    ensures { Reads allowed_view result (between_of (maybe_names names) form (view least.now) (view greatest.now)) }
{
    let least = values_in(alloc, names, form, least)?;
    let greatest = values_in(alloc, names, form, greatest)?;
    Ok(Allowed::Between { least, greatest })
}

/// The values of a list as limits.
#[tactic(auto, unfolding(crate::specs::Described::one_of))]
fn one_of(
    alloc: Global,
    names: Option<Enumeration>,
    form: ValueForm,
    list: &Value,
) -> Result<Allowed, ValueFault>
    ensures { Reads allowed_view result (one_of_of (maybe_names names) form (view list.now)) }
{
    let list = array(Wanted::List, list)?;
    let listed = spellings(alloc, names, form, list)?;
    Ok(Allowed::OneOf(listed))
}

/// The limits that some values state, if any.
fn limits_by(
    alloc: Global,
    names: Option<Enumeration>,
    form: ValueForm,
    least: Option<&Value>,
    greatest: Option<&Value>,
    list: Option<&Value>,
) -> Result<Allowed, ValueFault>
    ensures { Reads allowed_view result
        (limits_with (maybe_names names) form (option_map (λ v. view v.now) least.entry) (option_map (λ v. view v.now) greatest.entry)
        (option_map (λ v. view v.now) list.entry)) }
{
    match (least, greatest, list) {
        (None, None, None) => Ok(Allowed::Any),
        (Some(least), Some(greatest), None) => between(alloc, names, form, least, greatest),
        (None, None, Some(list)) => one_of(alloc, names, form, list),
        _ => Err(ValueFault::Wrong(Problem {
            wanted: Wanted::Limits,
            given: Given::Other,
        })),
    }
}

/// The limits in the table of a property.
fn limits_in(
    alloc: Global,
    names: Option<Enumeration>,
    form: ValueForm,
    table: &Table,
) -> Result<Allowed, ValueFault>
    ensures { Reads allowed_view result (limits_of (maybe_names names) form (table_view table.now)) }
{
    let least = member(table, "min");
    let greatest = member(table, "max");
    limits_by(alloc, names, form, least, greatest, member(table, "one-of"))
}

fn one_if(value: Option<&Value>) -> usize
    ensures is { result ≡ one_if_of (option_map (λ v. view v.now) value.entry) }
    ensures few { result ≤ 1 }
{
    match value {
        Some(_) => 1,
        None => 0,
    }
}

/// How many keys the table of a property has: those of its value, its flag and its limits.
fn its_own(table: &Table) -> usize
    ensures { result ≡ its_own_of (table_view table.now) }
{
    let mark = one_if(member(table, "writable"));
    let least = one_if(member(table, "min"));
    let greatest = one_if(member(table, "max"));
    1 + mark + least + greatest + one_if(member(table, "one-of"))
}

/// Checks that there are no other keys.
fn no_more(table: &Table, allowed: Allowed) -> Result<Allowed, Problem>
    ensures { ReadsAll allowed_view result (no_more_of (table_view table.now) (allowed_view allowed)) }
{
    if count(table) != its_own(table) {
        return Err(Problem {
            wanted: Wanted::LimitedValue,
            given: Given::More,
        });
    }
    Ok(allowed)
}

/// The number of any property that a key identifies by its name or its number.
fn any_number(key: &str) -> Result<u32, Problem>
    ensures { result ≡ or_other want.AnyProperty (property_word key.now) }
{
    match bac_value_text::property_in(key.as_bytes()) {
        Some(number) => Ok(number),
        None => Err(Problem {
            wanted: Wanted::AnyProperty,
            given: Given::Other,
        }),
    }
}

/// A property of which only the name of its value is given.
fn named_property(
    alloc: Global,
    number: u32,
    names: Option<Enumeration>,
    value: &Value,
) -> Result<Property, ValueFault>
    ensures { Reads property_view result (named_property_of number (maybe_names names) (view value.now)) }
{
    let values = values_in(alloc, names, ValueForm::Value(Kind::Enumerated), value)?;
    Ok(Property {
        number,
        values,
        writable: false,
        allowed: Allowed::Any,
    })
}

/// A property with a table.
#[tactic(auto, unfolding(crate::specs::Described::tabled_property))]
fn tabled_property(
    alloc: Global,
    number: u32,
    names: Option<Enumeration>,
    value: &Value,
) -> Result<Property, ValueFault>
    ensures { Reads property_view result (tabled_property_of number (maybe_names names) (view value.now)) }
{
    let table = table(Wanted::Value, value)?;
    let writable = is_writable(member(table, "writable"))?;
    let (form, value) = found(forms(), table)?;
    let values = values_in(alloc, names, form, value)?;
    let values = fitting_values(number, form, values)?;
    let allowed = limits_in(alloc, names, form, table)?;
    let allowed = no_more(table, allowed)?;
    Ok(Property {
        number,
        values,
        writable,
        allowed,
    })
}

/// Reads a property of an object of this type, which may have any number.
#[tactic(auto, unfolding(crate::specs::Described::property_of))]
pub(crate) fn described_property(
    alloc: Global,
    kind: u16,
    key: &str,
    value: &Value,
) -> Result<Property, ValueFault>
    ensures { Reads property_view result (property_of kind key.now (view value.now)) }
{
    let number = any_number(key)?;
    let names = names_of(kind, number);
    if is_bare(names, value) {
        named_property(alloc, number, names, value)
    } else {
        tabled_property(alloc, number, names, value)
    }
}
