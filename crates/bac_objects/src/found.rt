//! What a document has in place of what is wanted, in words.
use crate::consistency::wanted_present;
use crate::fault::ValueFault;
use crate::finding::Wrong;
use crate::form::{Kind, ValueForm};
use crate::held::{forms, found, member};
use crate::help::{help_with, name_help};
use crate::known_keys::unknown_in;
use crate::names::{has_bits, names_of};
use crate::problem::{Given, Problem, Wanted};
use crate::property::{DESCRIPTION, PRESENT_VALUE, values_in};
use bac_point_text::Enumeration;
use bac_store::{DescriptionFault, DescriptionFlaw, VALUE_LIMIT};
use bac_value::NoMemory;
use bac_value_text::property_in;
use std::alloc::Global;
use std::num::nearest_i64_to_f64;
use toml::{Table, Value};

/// An object type whose properties may have any values.
pub(crate) const VENDORS: u16 = 128;

/// How many octets of a value are shown.
pub(crate) const MOST_SHOWN: usize = 60;

/// The key of a value's table that has no meaning there, where that is what is wrong. A table without a value may have limits in documents that describe objects.
pub(crate) fn unknown_key(
    value: Option<&Value>,
    problem: Problem,
    is_described: bool,
) -> Option<&str> {
    let has_limits = match problem {
        Problem {
            wanted: Wanted::OneValue,
            given: Given::More | Given::Nothing,
        } => is_described,
        Problem {
            wanted: Wanted::LimitedValue,
            given: Given::More,
        }
        | Problem {
            wanted: Wanted::Limits,
            given: Given::Other,
        } => true,
        _ => return None,
    };
    match value? {
        Value::Table(table) => unknown_in(table, has_limits),
        _ => None,
    }
}

/// A value, and its key where only that tells what is wrong with it.
#[derive(Clone, Copy)]
struct Faulty<'a> {
    key: Option<&'static str>,
    value: &'a Value,
}

/// Whether a value under the word of a form has this problem.
fn has(
    alloc: Global,
    names: Option<Enumeration>,
    form: ValueForm,
    value: &Value,
    problem: Problem,
) -> bool {
    match values_in(alloc, names, form, value) {
        Err(ValueFault::Wrong(wrong)) => wrong == problem,
        _ => false,
    }
}

/// The limit in the table of a value that has a problem, with its key.
fn limit_at_fault<'a>(
    alloc: Global,
    names: Option<Enumeration>,
    form: ValueForm,
    table: &'a Table,
    problem: Problem,
) -> Option<Faulty<'a>> {
    for key in ["min", "max"] {
        match member(table, key) {
            Some(value) if has(alloc, names, form, value, problem) => {
                return Some(Faulty {
                    key: Some(key),
                    value,
                });
            }
            _ => {}
        }
    }
    let key = "one-of";
    let value = member(table, key)?;
    Some(Faulty {
        key: Some(key),
        value,
    })
}

/// The value under the word of its kind, or the limit beside it, that has a problem; the value with that word where its kind is the problem.
fn value_at_fault<'a>(
    alloc: Global,
    names: Option<Enumeration>,
    table: &'a Table,
    problem: Problem,
) -> Option<Faulty<'a>> {
    let (form, value) = found(forms(), table).ok()?;
    if matches!(problem.given, Given::Kind(_) | Given::Hex)
        || problem.wanted == Wanted::NumberedState
    {
        let key = Some(form.word());
        return Some(Faulty { key, value });
    }
    if !has(alloc, names, form, value, problem) {
        if let Some(limit) = limit_at_fault(alloc, names, form, table, problem) {
            return Some(limit);
        }
    }
    Some(Faulty { key: None, value })
}

/// The value of a table that a problem is about: that under the word of its kind, a limit, or the flag.
fn inner<'a>(
    alloc: Global,
    names: Option<Enumeration>,
    table: &'a Table,
    problem: Problem,
) -> Option<Faulty<'a>> {
    match problem.wanted {
        Wanted::Mark => {
            let value = table.get("writable")?;
            Some(Faulty { key: None, value })
        }
        Wanted::Value | Wanted::OneValue | Wanted::LimitedValue | Wanted::Limits => None,
        Wanted::Identifier | Wanted::ObjectType | Wanted::AnyInstance => None,
        _ => value_at_fault(alloc, names, table, problem),
    }
}

/// The value that a problem is about: one in a table, or the value itself.
fn at_fault<'a>(
    alloc: Global,
    names: Option<Enumeration>,
    value: &'a Value,
    problem: Problem,
) -> Faulty<'a> {
    let inner = match value {
        Value::Table(table) => inner(alloc, names, table, problem),
        _ => None,
    };
    inner.unwrap_or(Faulty { key: None, value })
}

impl Faulty<'_> {
    /// The value as TOML writes it, behind its key where that is told, or the beginning of a long one.
    fn shown(self, alloc: Global) -> Result<String, NoMemory> {
        let Faulty { key, value } = self;
        match key {
            Some(key) => cut(alloc, format!(in alloc; "{key} = {value}")?),
            None => shown(alloc, value),
        }
    }
}

/// A value as TOML writes it, or the beginning of a long one.
fn shown(alloc: Global, value: &Value) -> Result<String, NoMemory> {
    cut(alloc, format!(in alloc; "{value}")?)
}

/// A text, or the beginning of a long one.
pub(crate) fn cut(alloc: Global, text: String) -> Result<String, NoMemory> {
    if text.len() <= MOST_SHOWN {
        return Ok(text);
    }
    let octets = text.len();
    match text.as_str().get(..MOST_SHOWN) {
        Some(front) => Ok(format!(in alloc; "{front} .. ({octets} octets)")?),
        None => Ok(format!(in alloc; "a value of {octets} octets")?),
    }
}

/// How many keys or objects there are, where fewer are wanted.
fn too_many(value: Option<&Value>, wanted: Wanted) -> Option<usize> {
    match (wanted, value?) {
        (Wanted::FewKeys, Value::Table(table)) => Some(table.len()),
        (Wanted::FewObjects, Value::Array(list)) => Some(list.len()),
        _ => None,
    }
}

/// A value of a key that has a problem, in an object of this type, where that is known.
#[derive(Clone, Copy)]
pub(crate) struct Faulted<'a> {
    pub(crate) kind: Option<u16>,
    pub(crate) key: &'a str,
    pub(crate) value: Option<&'a Value>,
    pub(crate) problem: Problem,
}

impl<'a> Faulted<'a> {
    /// The number of the property. None for all other keys.
    fn property(self) -> Option<u32> {
        property_in(self.key.as_bytes())
    }

    /// The names of the numbers of the property. Where the type of the object is not known, those that any object has.
    pub(crate) fn names(self) -> Option<Enumeration> {
        names_of(self.kind.unwrap_or(VENDORS), self.property()?)
    }

    /// Whether the property has bits that the standard names.
    pub(crate) fn has_bits(self) -> bool {
        self.property().is_some_and(has_bits)
    }

    /// What the present-value of the object has to be, if that is the property.
    pub(crate) fn wanted_present(self) -> Option<Wanted> {
        if self.property() == Some(PRESENT_VALUE) {
            wanted_present(self.kind?)
        } else {
            None
        }
    }

    /// The value that the problem is about, and its key where only that tells what is wrong: one in the table, or the value itself.
    fn at_fault(self, alloc: Global, value: &'a Value) -> Faulty<'a> {
        match self.key {
            "type" | "instance" | "name" => Faulty { key: None, value },
            _ => at_fault(alloc, self.names(), value, self.problem),
        }
    }

    /// The value that the problem is about: one in the table, or the value itself.
    pub(crate) fn faulty(self, alloc: Global, value: &'a Value) -> &'a Value {
        self.at_fault(alloc, value).value
    }
}

/// The first text in a value, or in a list, that is none of the names.
fn unknown_text(names: Enumeration, value: &Value) -> Option<&Value> {
    match value {
        Value::String(_) => Some(value),
        Value::Array(list) => list.iter().find(|item| match *item {
            Value::String(text) => names.number_of(text.as_bytes()).is_none(),
            _ => false,
        }),
        _ => None,
    }
}

/// The text that is none of the names which its property has, where that is the problem.
fn unknown_name(alloc: Global, faulted: Faulted<'_>) -> Result<Option<Wrong>, NoMemory> {
    let (Some(value), Some(names)) = (faulted.value, faulted.names()) else {
        return Ok(None);
    };
    if faulted.problem.wanted != Wanted::Name {
        return Ok(None);
    }
    let Some(value) = unknown_text(names, faulted.faulty(alloc, value)) else {
        return Ok(None);
    };
    let help = name_help(alloc, names, value.as_str().unwrap_or(""))?;
    let name = shown(alloc, value)?;
    Ok(Some(Wrong::UnknownName { name, help }))
}

/// What is wrong with a value, with what helps.
pub(crate) fn wrong_value(alloc: Global, faulted: Faulted<'_>) -> Result<Wrong, NoMemory> {
    if let Some(wrong) = unknown_name(alloc, faulted)? {
        return Ok(wrong);
    }
    let help = help_with(alloc, faulted)?;
    let found = found_words(alloc, faulted)?;
    let wanted = faulted.problem.wanted;
    Ok(Wrong::Value {
        wanted,
        found,
        help,
    })
}

/// What is given in place of what is wanted: the value as TOML writes it, or words where there is none or it does not tell.
pub(crate) fn found_words(alloc: Global, faulted: Faulted<'_>) -> Result<String, NoMemory> {
    let Faulted { value, problem, .. } = faulted;
    if let Some(count) = too_many(value, problem.wanted) {
        return Ok(format!(in alloc; "{count}")?);
    }
    let words = match problem.given {
        Given::Nothing => "nothing",
        Given::Again => "a duplicate",
        _ => match value {
            Some(value) => return faulted.at_fault(alloc, value).shown(alloc),
            None => "something else",
        },
    };
    Ok(String::from_str(alloc, words)?)
}

/// The limits in the table of a value: from `min` to `max`, or one of a list. None where it has none.
fn limits_words(alloc: Global, table: &Table) -> Result<Option<String>, NoMemory> {
    if let Some(list) = member(table, "one-of") {
        let list = shown(alloc, list)?;
        return Ok(Some(format!(in alloc; "one of {list}")?));
    }
    let (Some(least), Some(greatest)) = (member(table, "min"), member(table, "max")) else {
        return Ok(None);
    };
    let least = shown(alloc, least)?;
    let greatest = shown(alloc, greatest)?;
    Ok(Some(format!(in alloc; "{least} to {greatest}")?))
}

/// The number that a limit is, or that of its name, as a float.
fn float_of(names: Option<Enumeration>, limit: &Value) -> Option<f64> {
    match limit {
        Value::Integer(number) => Some(nearest_i64_to_f64(*number)),
        Value::Float(number) => Some(*number),
        Value::String(name) => {
            let number = names?.number_of(name.as_bytes())?;
            Some(nearest_i64_to_f64(i64::from(number)))
        }
        _ => None,
    }
}

/// Whether a number is above another one, each as TOML writes it or by its name.
fn is_above(names: Option<Enumeration>, least: &Value, greatest: &Value) -> bool {
    match (least, greatest) {
        (Value::Integer(least), Value::Integer(greatest)) => *least > *greatest,
        _ => match (float_of(names, least), float_of(names, greatest)) {
            (Some(least), Some(greatest)) => least > greatest,
            _ => false,
        },
    }
}

/// The limits in the table of a value whose least is above their greatest, if they are such.
fn turned_limits(
    alloc: Global,
    names: Option<Enumeration>,
    table: &Table,
) -> Result<Option<Wrong>, NoMemory> {
    let (Some(least), Some(greatest)) = (member(table, "min"), member(table, "max")) else {
        return Ok(None);
    };
    if !is_above(names, least, greatest) {
        return Ok(None);
    }
    let least = shown(alloc, least)?;
    let greatest = shown(alloc, greatest)?;
    Ok(Some(Wrong::Turned { least, greatest }))
}

/// What is wrong with the values of a table that have limits; `names` are those of their numbers. None where it has no values or no limits.
fn wrong_limits(
    alloc: Global,
    names: Option<Enumeration>,
    table: &Table,
) -> Result<Option<Wrong>, NoMemory> {
    if let Some(turned) = turned_limits(alloc, names, table)? {
        return Ok(Some(turned));
    }
    let Ok((_, value)) = found(forms(), table) else {
        return Ok(None);
    };
    let Some(limits) = limits_words(alloc, table)? else {
        return Ok(None);
    };
    let found = shown(alloc, value)?;
    Ok(Some(Wrong::Limits { limits, found }))
}

/// What is wanted of the values of a property, where an object of this type cannot have any: of its description, and of its present-value.
fn wanted_values(kind: u16, number: u32) -> Wanted {
    match (number, kind) {
        (DESCRIPTION, _) => Wanted::Kind(Kind::Text),
        (_, 0..=2) => Wanted::Kind(Kind::Real),
        (_, 3..=5) => Wanted::State,
        _ => Wanted::MultiState,
    }
}

/// What is wrong with the values in the table of a property that no object of this type can have; None where there are none.
fn wrong_values(
    alloc: Global,
    kind: u16,
    number: u32,
    table: &Table,
) -> Result<Option<Wrong>, NoMemory> {
    let Ok((form, value)) = found(forms(), table) else {
        return Ok(None);
    };
    let is_long = match values_in(alloc, names_of(kind, number), form, value) {
        Ok(values) => values.octets.len() > VALUE_LIMIT,
        Err(ValueFault::Wrong(_)) => return Ok(None),
        Err(ValueFault::NoMemory) => return Err(NoMemory),
    };
    let wanted = if is_long {
        Wanted::ShortValue
    } else {
        wanted_values(kind, number)
    };
    let key = Some(form.word());
    let found = Faulty { key, value }.shown(alloc)?;
    Ok(Some(Wrong::Value {
        wanted,
        found,
        help: None,
    }))
}

/// Why values, or an object of this type, are refused: with what is wanted and given, where the values or their limits are the reason.
pub(crate) fn refused(
    alloc: Global,
    kind: Option<u16>,
    fault: DescriptionFault,
    value: Option<&Value>,
) -> Result<Wrong, NoMemory> {
    let DescriptionFault { property, why, .. } = fault;
    let wrong = match (why, kind, property, value) {
        (DescriptionFlaw::Limits, _, Some(number), Some(Value::Table(table))) => {
            let names = names_of(kind.unwrap_or(VENDORS), number);
            wrong_limits(alloc, names, table)?
        }
        (DescriptionFlaw::Values, Some(kind), Some(number), Some(Value::Table(table))) => {
            wrong_values(alloc, kind, number, table)?
        }
        _ => None,
    };
    match wrong {
        Some(wrong) => Ok(wrong),
        None => Ok(Wrong::Refused(why)),
    }
}
