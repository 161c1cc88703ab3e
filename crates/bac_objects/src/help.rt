//! What helps with a value that is not allowed.
use crate::consistency::unsigned_in;
use crate::form::Kind;
use crate::found::{Faulted, MOST_SHOWN};
use crate::problem::{Given, Problem, Wanted};
use crate::type_names::nearest_type;
use bac_point_text::{Enumeration, WrittenFault, names_advice, value_as_written};
use bac_value::NoMemory;
use std::alloc::Global;
use std::{fmt, str};
use toml::Value;

/// What the present-value of an analog object has to be.
const REAL: Wanted = Wanted::Kind(Kind::Real);

/// What helps with a value that is not allowed.
#[derive(Debug, Drop)]
pub enum Help {
    /// The name that is most like the text there.
    Near(&'static str),
    /// What to write in its place: the same value in another form, or an example.
    Write(String),
    /// What is known of what is wanted.
    Note(String),
}

impl fmt::Display for Help {
    fn fmt<W: fmt::Write>(&self, f: &mut fmt::Formatter<W>) -> fmt::Result {
        match self {
            Help::Near(near) => write!(f, "; did you mean {near}?"),
            Help::Write(text) => write!(f, "; write {text}"),
            Help::Note(text) => write!(f, "; {text}"),
        }
    }
}

/// The names that there are, or where they are listed.
fn all_names(alloc: Global, names: Enumeration) -> Result<Help, NoMemory> {
    let advice = names_advice(alloc, names)?;
    let text = str::from_utf8(&advice).unwrap_or("");
    Ok(Help::Note(String::from_str(alloc, text)?))
}

/// What helps with a text that is none of the names.
pub(crate) fn name_help(alloc: Global, names: Enumeration, text: &str) -> Result<Help, NoMemory> {
    let kind = bac_point_text::Kind::Enumerated;
    match value_as_written(alloc, kind, Some(names), text.as_bytes()) {
        Err(WrittenFault::NoMemory) => Err(NoMemory),
        Err(
            WrittenFault::UnknownName {
                nearest: Some(near),
            },
        ) => Ok(Help::Near(near)),
        Ok(bac_value::Value::Enumerated(number)) => Ok(Help::Write(format!(in alloc;
            "{{ enumerated = {number} }}"
        )?)),
        _ => all_names(alloc, names),
    }
}

/// What the number of states is that these values are.
pub(crate) fn states_help(alloc: Global, states: &[u8]) -> Result<Option<Help>, NoMemory> {
    match unsigned_in(states) {
        Some(count) => Ok(Some(Help::Note(format!(in alloc; "number-of-states is {count}")?))),
        None => Ok(None),
    }
}

/// What to write for a key of an object that has a plain value.
fn plain_key(key: &str) -> Option<&'static str> {
    match key {
        "name" => Some("name = \"pump-house\""),
        "type" => Some("type = \"analog-input\""),
        "instance" => Some("instance = 1"),
        _ => None,
    }
}

/// What to write for a present-value that is wanted.
fn present_value(wanted: Wanted) -> Option<&'static str> {
    match wanted {
        Wanted::Kind(Kind::Real) => Some("present-value = { real = 21.5 }"),
        Wanted::State => Some("present-value = \"inactive\""),
        Wanted::MultiState => Some("present-value = { unsigned = 1 }"),
        _ => None,
    }
}

/// What to write for a property that has a text in place of its table.
fn no_text(faulted: Faulted<'_>) -> Option<&'static str> {
    if faulted.has_bits() {
        return Some("{ bits = \"0000\" }");
    }
    present_value(faulted.wanted_present()?)
}

/// What to write, for example.
fn example(faulted: Faulted<'_>) -> Option<&'static str> {
    let Problem { wanted, given } = faulted.problem;
    match (wanted, given) {
        (Wanted::True, _) if faulted.key == "described" => {
            Some("described = true, or leave it out")
        }
        (
            Wanted::Objects | Wanted::DescribedObjects | Wanted::Table,
            Given::Nothing | Given::More,
        ) => None,
        (Wanted::Objects | Wanted::DescribedObjects | Wanted::Table, _) => {
            Some("[[object]] above the keys of each object")
        }
        (Wanted::Value, Given::Text) => no_text(faulted),
        (Wanted::Identifier, _) => Some("object = { type = \"device\", instance = 8 }"),
        (Wanted::List, _) => Some("one-of = [1, 2, 4]"),
        (Wanted::FilledName, _) => plain_key("name"),
        (Wanted::Kind(Kind::Enumerated), _) => Some("units = \"degrees-celsius\""),
        (_, Given::Table) => plain_key(faulted.key),
        (_, Given::Nothing) if faulted.key == "present-value" => present_value(wanted),
        _ => None,
    }
}

/// The word for the kind that a value without one probably has.
fn likely_kind(faulted: Faulted<'_>, value: &Value) -> Option<&'static str> {
    match value {
        Value::String(_) => Some("text"),
        _ if faulted.key == "file" => None,
        Value::Integer(_) if faulted.names().is_some() => Some("enumerated"),
        Value::Integer(_) if faulted.wanted_present() == Some(REAL) => Some("real"),
        Value::Integer(number) if *number < 0 => Some("signed"),
        Value::Integer(_) => Some("unsigned"),
        Value::Float(_) => Some("real"),
        Value::Boolean(_) => Some("boolean"),
        Value::Datetime(moment) => match (moment.date, moment.time) {
            (Some(_), None) => Some("date"),
            (None, Some(_)) => Some("time"),
            _ => None,
        },
        _ => None,
    }
}

/// A value in a table, under the word for its kind.
fn tabled(alloc: Global, faulted: Faulted<'_>, value: &Value) -> Result<Option<String>, NoMemory> {
    let Some(word) = likely_kind(faulted, value) else {
        return Ok(None);
    };
    let text = format!(in alloc; "{value}")?;
    if text.len() > MOST_SHOWN {
        return Ok(None);
    }
    Ok(Some(format!(in alloc; "{{ {word} = {text} }}")?))
}

/// Whether a value may stand where that is wanted.
fn is_wanted(wanted: Wanted, value: &Value) -> bool {
    match (wanted, value) {
        (Wanted::Date, Value::Datetime(moment)) => moment.date.is_some() && moment.time.is_none(),
        (Wanted::Time, Value::Datetime(moment)) => moment.date.is_none() && moment.time.is_some(),
        (Wanted::Boolean | Wanted::Mark | Wanted::True, Value::Boolean(_)) => true,
        (
            Wanted::Unsigned
            | Wanted::Integer
            | Wanted::Enumerated
            | Wanted::Instance
            | Wanted::AnyInstance,
            Value::Integer(_),
        ) => true,
        (Wanted::Float, Value::Integer(_) | Value::Float(_)) => true,
        _ => false,
    }
}

/// Whether a text without its quotes may stand where that is wanted.
fn is_quoted(alloc: Global, wanted: Wanted, text: &str) -> Result<bool, NoMemory> {
    if text.len() > MOST_SHOWN || text.contains("\n") || text.contains("#") {
        return Ok(false);
    }
    let document = format!(in alloc; "value = {text}")?;
    match toml::table_from_str(alloc, document.as_str()) {
        Ok(table) => match table.get("value") {
            Some(value) => Ok(is_wanted(wanted, value)),
            None => Ok(false),
        },
        Err(error) if error.is_memory() => Err(NoMemory),
        Err(_) => Ok(false),
    }
}

/// What to write in place of a text where something else is wanted.
fn unquoted(alloc: Global, wanted: Wanted, text: &str) -> Result<Option<String>, NoMemory> {
    if is_quoted(alloc, wanted, text)? {
        return Ok(Some(format!(in alloc; "{text} without quotes")?));
    }
    let example = match wanted {
        Wanted::Date => "a date as 1991-01-24, without quotes",
        Wanted::Time => "a time as 17:35:45, without quotes",
        _ => return Ok(None),
    };
    Ok(Some(String::from_str(alloc, example)?))
}

/// Whether a value is one that a text is wanted in place of, and may be that without its quotes.
fn lacks_quotes(wanted: Wanted, value: &Value) -> bool {
    match (wanted, value) {
        (Wanted::Text, Value::Array(_) | Value::Table(_)) => false,
        (Wanted::Text, _) => true,
        (Wanted::Bits | Wanted::Hex, Value::Integer(_)) => true,
        _ => false,
    }
}

/// The value in another form, where that is wanted.
fn rewritten(alloc: Global, faulted: Faulted<'_>) -> Result<Option<String>, NoMemory> {
    let Some(value) = faulted.value else {
        return Ok(None);
    };
    let wanted = faulted.problem.wanted;
    if wanted == Wanted::Value {
        return tabled(alloc, faulted, value);
    }
    match faulted.faulty(alloc, value) {
        Value::String(text) => unquoted(alloc, wanted, text.as_str()),
        value if lacks_quotes(wanted, value) => {
            Ok(Some(format!(in alloc; "\"{value}\" in quotes")?))
        }
        _ => Ok(None),
    }
}

/// What helps with a value that is not allowed, where something does.
pub(crate) fn help_with(alloc: Global, faulted: Faulted<'_>) -> Result<Option<Help>, NoMemory> {
    if let Some(near) = nearest_type(alloc, faulted.value, faulted.problem)? {
        return Ok(Some(Help::Near(near)));
    }
    if let Some(text) = example(faulted) {
        return Ok(Some(Help::Write(String::from_str(alloc, text)?)));
    }
    match rewritten(alloc, faulted)? {
        Some(text) => Ok(Some(Help::Write(text))),
        None => Ok(None),
    }
}
