//! Values in a document: a table with the value under the word of its form, and a flag.
ghost use Rattle.std.specs.Prelude.{◌≡◌};
ghost use Rattle.std.specs.Option.{option_map};
ghost use Rattle.bac_value.specs.Steps.{ReadsAll};
ghost use Rattle.toml.specs.Data.{get_member};
ghost use Rattle.toml.specs.View.{view, table_view};
ghost use Rattle.bac_objects.specs.Held.{FILE_FORMS as FILE_ROWS, FORMS as ROWS, alone as alone_of, count as count_of, found_in as found_of, held_by as held_of, held_in, held_named, mark_of, object_table as object_table_of, or_nothing, plain, the_mark};
ghost use Rattle.bac_objects.specs.Views.{held_view};
ghost use Rattle.bac_point_text.specs.Views.{maybe_names};

use crate::form::{FILE_FORMS, FORMS, Kind, ValueForm};
use crate::names::is_bare;
use crate::problem::{Given, Problem, Wanted};
use crate::scalars::{boolean, table};
use bac_point_text::Enumeration;
use toml::{Table, Value};

/// A value and the form that its word stands for.
#[derive(Clone, Copy)]
pub(crate) struct Held<'a> {
    pub(crate) form: ValueForm,
    pub(crate) value: &'a Value,
    pub(crate) writable: bool,
}

/// The value of a key.
pub(crate) fn member<'a>(table: &'a Table, key: &str) -> Option<&'a Value>
    ensures { option_map (λ v. view v.now) result ≡ get_member key.now (table_view table.now) }
{
    table.get(key)
}

/// How many keys there are.
pub(crate) fn count(table: &Table) -> usize
    ensures { result ≡ count_of (table_view table.now) }
{
    table.len()
}

/// The most keys of an object: each property is compared with those before it.
const KEYS_LIMIT: usize = 1024;

/// The table of an object, which has few keys.
pub(crate) fn object_table(value: &Value) -> Result<&Table, Problem>
    ensures { ReadsAll (λ t. table_view t.now) result (object_table_of (view value.now)) }
{
    let table = table(Wanted::Table, value)?;
    if count(table) > KEYS_LIMIT {
        return Err(Problem {
            wanted: Wanted::FewKeys,
            given: Given::More,
        });
    }
    Ok(table)
}

/// The value under the first of some words that is a key.
#[tactic(auto, using(crate::proofs::Tables::found_next))]
fn found_in<'a>(rows: &[(&str, ValueForm)], table: &'a Table) -> Option<(ValueForm, &'a Value)>
    ensures { option_map (λ f. (f.0, view f.1.now)) result ≡ found_of (plain rows.now) (table_view table.now) }
{
    for row in rows {
        if let Some(value) = member(table, row.0) {
            return Some((row.1, value));
        }
    }
    None
}

/// Whether a flag is set; it is not where there is none.
pub(crate) fn is_writable(mark: Option<&Value>) -> Result<bool, Problem>
    ensures { result ≡ mark_of (option_map (λ v. view v.now) mark.entry) }
{
    match mark {
        Some(mark) => boolean(Wanted::Mark, mark),
        None => Ok(false),
    }
}

/// The value under one of some words.
pub(crate) fn found<'a>(
    rows: &[(&str, ValueForm)],
    table: &'a Table,
) -> Result<(ValueForm, &'a Value), Problem>
    ensures { ReadsAll (λ f. (f.0, view f.1.now)) result (or_nothing (found_of (plain rows.now) (table_view table.now))) }
{
    match found_in(rows, table) {
        Some(found) => Ok(found),
        None => Err(Problem {
            wanted: Wanted::OneValue,
            given: Given::Nothing,
        }),
    }
}

/// Checks that there are no keys but the word and the flag.
fn alone(is_marked: bool, keys: usize, held: Held<'_>) -> Result<Held<'_>, Problem>
    ensures { ReadsAll held_view result (alone_of is_marked keys (held_view held.entry)) }
{
    let its_own = if is_marked { 2 } else { 1 };
    if keys != its_own {
        return Err(Problem {
            wanted: Wanted::OneValue,
            given: Given::More,
        });
    }
    Ok(held)
}

#[tactic(auto, unfolding(crate::specs::Held::held_by))]
fn held_by<'a>(rows: &[(&str, ValueForm)], table: &'a Table) -> Result<Held<'a>, Problem>
    ensures { ReadsAll held_view result (held_of (plain rows.now) (table_view table.now)) }
{
    let mark = member(table, "writable");
    let writable = is_writable(mark)?;
    let (form, value) = found(rows, table)?;
    let held = Held {
        form,
        value,
        writable,
    };
    alone(mark.is_some(), count(table), held)
}

/// The words for the values of a property.
pub(crate) fn forms() -> &'static [(&'static str, ValueForm)]
    ensures { plain result.now ≡ ROWS }
{
    FORMS
}

/// The words for the octets of a file.
fn file_forms() -> &'static [(&'static str, ValueForm)]
    ensures { plain result.now ≡ FILE_ROWS }
{
    FILE_FORMS
}

/// The value in the table of a property; `names` are those of its numbers.
pub(crate) fn held_values(names: Option<Enumeration>, value: &Value) -> Result<Held<'_>, Problem>
    ensures { ReadsAll held_view result (held_named (maybe_names names) (view value.now)) }
{
    if is_bare(names, value) {
        return Ok(Held {
            form: ValueForm::Value(Kind::Enumerated),
            value,
            writable: false,
        });
    }
    held_by(forms(), table(Wanted::Value, value)?)
}

/// The octets in the table of a file.
pub(crate) fn held_file(value: &Value) -> Result<Held<'_>, Problem>
    ensures { ReadsAll held_view result (held_in FILE_ROWS (view value.now)) }
{
    held_by(file_forms(), table(Wanted::Value, value)?)
}
