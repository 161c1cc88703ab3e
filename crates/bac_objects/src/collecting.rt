//! Collecting all faults of a document, where its objects are not read.
use crate::consistency::{NUMBER_OF_STATES, flaw_of, values_of};
use crate::described::filled_name;
use crate::described_property::described_property;
use crate::document::few_objects;
use crate::fault::{Place, ValueFault};
use crate::finding::{Finding, Wrong};
use crate::found::{Faulted, VENDORS, found_words, refused, unknown_key, wrong_value};
use crate::held::{member, object_table};
use crate::help::states_help;
use crate::identifier::{the_instance, the_type};
use crate::known_keys::{
    DESCRIBED_KEYS, DOCUMENT_KEYS, OBJECT_KEYS, nearest, nearest_of_file, nearest_of_value,
    value_example,
};
use crate::mended::{Mended, read_mended};
use crate::object::{file_of, is_reserved, kind_in, name_in};
use crate::outline::Outline;
use crate::problem::{Given, Problem, Wanted};
use crate::property::{PRESENT_VALUE, own_property};
use crate::refusals::{Reasons, refusals, right_id};
use crate::scalars::array;
use bac_store::{DescriptionFault, DescriptionFlaw, Property};
use bac_value::{NoMemory, ObjectIdentifier};
use bac_value_text::{property_in, property_name};
use std::alloc::Global;
use toml::value::Array;
use toml::{Table, Value};

/// The object type device.
const DEVICE: u16 = 8;

/// The object type file.
const FILE: u16 = 10;

/// How long a text may be of which all faults are told, in octets.
const TOLD_LIMIT: usize = 262_144;

/// An object of a document: its number, and its type and its identifier, where they are allowed.
#[derive(Clone, Copy)]
struct Whose {
    object: usize,
    kind: Option<u16>,
    id: Option<ObjectIdentifier>,
}

impl Whose {
    /// The object with a number, of which no more is known; 0 stands for none.
    fn numbered(object: usize) -> Whose {
        Whose {
            object,
            kind: None,
            id: None,
        }
    }
}

/// The place of a key in a document.
#[derive(Clone, Copy)]
struct At<'a> {
    whose: Whose,
    key: &'a str,
}

/// What was found so far.
#[derive(Drop)]
struct Collecting {
    alloc: Global,
    outline: Outline,
    is_described: bool,
    /// Whether each line is TOML: if not, what is missing may stand in one that is none.
    is_whole: bool,
    /// Whether an object is a device, or may be one.
    has_device: bool,
    ids: Vec<ObjectIdentifier>,
    findings: Vec<Finding>,
    /// That there are more reasons of refusal, where there are.
    more: Option<Finding>,
}

impl Collecting {
    /// What is found in the text of a document at first: its lines that are no TOML.
    fn of(alloc: Global, text: &str, table: &Table, findings: Vec<Finding>) -> Collecting {
        Collecting {
            alloc,
            outline: Outline::of(alloc, text),
            is_described: means_described(table),
            is_whole: findings
                .iter()
                .all(|finding| matches!(finding.wrong, Wrong::SingleObject)),
            has_device: false,
            ids: Vec::new(alloc),
            findings,
            more: None,
        }
    }

    /// Notes what is wrong with a document.
    fn read(&mut self, document: &Table) -> Result<(), NoMemory> {
        self.read_outside(document)?;
        self.read_list(document)
    }

    /// Notes what is wrong at a place, which stands on the line of that key.
    fn note(&mut self, at: At<'_>, line_key: &str, wrong: Wrong) -> Result<(), NoMemory> {
        let place = Place {
            object: at.whose.object,
            id: at.whose.id,
            key: String::from_str(self.alloc, at.key)?,
        };
        let line = self.outline.line(at.whose.object, line_key);
        Ok(self.findings.push(Finding { line, place, wrong })?)
    }

    /// Notes a key that has no meaning there.
    fn note_unknown(
        &mut self,
        at: At<'_>,
        key: &str,
        near: Option<&'static str>,
        example: Option<&'static str>,
    ) -> Result<(), NoMemory> {
        let line_key = if at.key.is_empty() { key } else { at.key };
        let key = String::from_str(self.alloc, key)?;
        let wrong = Wrong::UnknownKey { key, near, example };
        self.note(at, line_key, wrong)
    }

    /// Notes a key in the table of a value that has no meaning there.
    fn note_unknown_in_value(
        &mut self,
        at: At<'_>,
        key: &str,
        problem: Problem,
    ) -> Result<(), NoMemory> {
        let near = if at.key == "file" {
            nearest_of_file(self.alloc, key)?
        } else {
            self.hint(key, nearest_of_value(self.alloc, key)?)
        };
        let example = if near.is_none() && problem.given == Given::Nothing {
            Some(value_example(at.key))
        } else {
            None
        };
        self.note_unknown(at, key, near, example)
    }

    /// Notes a value that is not allowed, or the unknown key in its table that is the reason.
    fn note_value(
        &mut self,
        at: At<'_>,
        value: Option<&Value>,
        problem: Problem,
    ) -> Result<(), NoMemory> {
        if let Some(key) = unknown_key(value, problem, self.is_described) {
            return self.note_unknown_in_value(at, key, problem);
        }
        if value.is_none() && problem.given == Given::Nothing && !self.is_whole {
            return Ok(());
        }
        let faulted = Faulted {
            kind: at.whose.kind,
            key: at.key,
            value,
            problem,
        };
        let wrong = wrong_value(self.alloc, faulted)?;
        self.note(at, at.key, wrong)
    }

    /// Notes the fault of a value, unless it is that memory was refused.
    fn note_fault(
        &mut self,
        at: At<'_>,
        value: Option<&Value>,
        fault: ValueFault,
    ) -> Result<(), NoMemory> {
        match fault {
            ValueFault::Wrong(problem) => self.note_value(at, value, problem),
            ValueFault::NoMemory => Err(NoMemory),
        }
    }

    /// The type of an object, by what the document allows.
    fn kind_of(&self, table: &Table) -> Result<u16, Problem> {
        if self.is_described {
            let kind = the_type(Wanted::ObjectType, table)?;
            Ok(kind as u16)
        } else {
            kind_in(table)
        }
    }

    /// The type and the instance of an object, each where it is allowed.
    fn halves_of(
        &mut self,
        object: usize,
        table: &Table,
    ) -> Result<(Option<u16>, Option<u32>), NoMemory> {
        let mut at = At {
            whose: Whose::numbered(object),
            key: "type",
        };
        let kind = match self.kind_of(table) {
            Ok(kind) => Some(kind),
            Err(problem) => {
                self.note_value(at, member(table, "type"), problem)?;
                None
            }
        };
        at.key = "instance";
        match the_instance(4_194_302, Wanted::Instance, table) {
            Ok(instance) => Ok((kind, Some(instance as u32))),
            Err(problem) => {
                self.note_value(at, member(table, "instance"), problem)?;
                Ok((kind, None))
            }
        }
    }

    /// Whether an earlier object has an identifier.
    fn has_id(&self, id: ObjectIdentifier) -> bool {
        for other in &self.ids {
            if other.kind == id.kind && other.instance == id.instance {
                return true;
            }
        }
        false
    }

    /// Notes that an earlier object has an identifier, where one has.
    fn note_again(&mut self, object: usize, id: ObjectIdentifier) -> Result<(), NoMemory> {
        if self.has_id(id) {
            let whose = Whose {
                object,
                kind: Some(id.kind),
                id: Some(id),
            };
            let at = At {
                whose,
                key: "instance",
            };
            let problem = Problem {
                wanted: Wanted::OwnIdentifier,
                given: Given::Again,
            };
            self.note_value(at, None, problem)?;
        }
        Ok(self.ids.push(id)?)
    }

    /// Notes what is wrong with the type and the instance of an object; what is known of it.
    fn read_halves(&mut self, object: usize, table: &Table) -> Result<Whose, NoMemory> {
        let (kind, instance) = self.halves_of(object, table)?;
        self.has_device |= kind.is_none_or(|kind| kind == DEVICE);
        let id = match (kind, instance) {
            (Some(kind), Some(instance)) => ObjectIdentifier::new(kind, instance),
            _ => None,
        };
        if let Some(id) = id {
            self.note_again(object, id)?;
        }
        Ok(Whose { object, kind, id })
    }

    /// Reads the name of an object.
    fn name_of(&self, table: &Table) -> Result<String, ValueFault> {
        if self.is_described {
            filled_name(self.alloc, table)
        } else {
            name_in(self.alloc, table)
        }
    }

    /// Notes what is wrong with the name of an object.
    fn read_name(&mut self, whose: Whose, table: &Table) -> Result<(), NoMemory> {
        let key = "name";
        match self.name_of(table) {
            Ok(_) => Ok(()),
            Err(fault) => self.note_fault(At { whose, key }, member(table, key), fault),
        }
    }

    /// Notes what is wrong with the file of an object. Where its type is not known, a file is read if it has one.
    fn read_file(&mut self, whose: Whose, table: &Table) -> Result<(), NoMemory> {
        let kind = whose.kind;
        let key = "file";
        let file = member(table, key);
        if kind.is_none() && file.is_none() {
            return Ok(());
        }
        match file_of(self.alloc, kind.unwrap_or(FILE), table) {
            Ok(_) => Ok(()),
            Err(fault) => self.note_fault(At { whose, key }, file, fault),
        }
    }

    /// Reads one property of an object. Where its type is not known, any values are allowed.
    fn property_of(
        &self,
        kind: Option<u16>,
        done: &[Property],
        key: &str,
        value: &Value,
    ) -> Result<Property, ValueFault> {
        let kind = kind.unwrap_or(VENDORS);
        if self.is_described {
            described_property(self.alloc, kind, key, value)
        } else {
            own_property(self.alloc, kind, done, key, value)
        }
    }

    /// The known key that is most like a key without a meaning: the key itself only where it has one in documents whose objects are described, and this is none.
    fn hint(&self, key: &str, near: Option<&'static str>) -> Option<&'static str> {
        match near {
            Some(known) if known == key && (self.is_described || OBJECT_KEYS.contains(&key)) => {
                None
            }
            near => near,
        }
    }

    /// Notes a key that is that of no property.
    fn note_no_property(&mut self, at: At<'_>) -> Result<(), NoMemory> {
        let key = at.key;
        let near = self.hint(key, nearest(self.alloc, key, DESCRIBED_KEYS)?);
        self.note_unknown(At { key: "", ..at }, key, near, None)
    }

    /// Notes a present-value that is none of the states of its object.
    fn note_no_state(
        &mut self,
        at: At<'_>,
        value: Option<&Value>,
        problem: Problem,
        states: &[u8],
    ) -> Result<(), NoMemory> {
        let faulted = Faulted {
            kind: at.whose.kind,
            key: at.key,
            value,
            problem,
        };
        let found = found_words(self.alloc, faulted)?;
        let help = states_help(self.alloc, states)?;
        let wrong = Wrong::Value {
            wanted: problem.wanted,
            found,
            help,
        };
        self.note(at, at.key, wrong)
    }

    /// Whether one of the keys of an object without a meaning is most like a known key, and was told as such.
    fn is_misspelled(&self, table: &Table, known: &str) -> Result<bool, NoMemory> {
        for (key, _) in table.iter() {
            let key = key.as_str();
            let near = nearest(self.alloc, key, DESCRIBED_KEYS)?;
            if near.is_some_and(|near| near == known) && property_in(key.as_bytes()).is_none() {
                return Ok(true);
            }
        }
        Ok(false)
    }

    /// Notes a present-value that is missing, unless its key is misspelled.
    fn note_no_present_value(
        &mut self,
        whose: Whose,
        table: &Table,
        problem: Problem,
    ) -> Result<(), NoMemory> {
        let key = "present-value";
        if self.is_misspelled(table, key)? {
            return Ok(());
        }
        self.note_value(At { whose, key }, None, problem)
    }

    /// Notes a present-value that is missing, or is none of the states of its object, among the properties that were read.
    fn read_present_value(
        &mut self,
        whose: Whose,
        table: &Table,
        done: &[Property],
    ) -> Result<(), NoMemory> {
        let Some(kind) = whose.kind else {
            return Ok(());
        };
        let Some(problem) = flaw_of(kind, done) else {
            return Ok(());
        };
        let key = key_of(PRESENT_VALUE, table);
        if !key.is_empty() {
            return match values_of(NUMBER_OF_STATES, done) {
                Some(states) if problem.given != Given::Nothing => {
                    self.note_no_state(At { whose, key }, member(table, key), problem, states)
                }
                // it is there, and what is wrong with it was told
                _ => Ok(()),
            };
        }
        self.note_no_present_value(whose, table, problem)
    }

    /// Reads one property of an object, or notes what is wrong with it.
    fn read_property(
        &mut self,
        at: At<'_>,
        value: &Value,
        done: &mut Vec<Property>,
    ) -> Result<(), NoMemory> {
        let kind = at.whose.kind;
        match self.property_of(kind, done, at.key, value) {
            Ok(property) => Ok(done.push(property)?),
            Err(ValueFault::Wrong(problem)) if is_no_property(problem) => self.note_no_property(at),
            Err(ValueFault::Wrong(problem)) if kind.is_none() && may_be_name(problem) => Ok(()),
            Err(fault) => self.note_fault(at, Some(value), fault),
        }
    }

    /// Notes what is wrong with the properties of an object.
    fn read_properties(&mut self, whose: Whose, table: &Table) -> Result<(), NoMemory> {
        let kind = whose.kind;
        let mut done = Vec::new(self.alloc);
        for (key, value) in table.iter() {
            let key = key.as_str();
            if !is_reserved(kind.unwrap_or(FILE), key) {
                self.read_property(At { whose, key }, value, &mut done)?;
            }
        }
        if self.is_described {
            self.read_present_value(whose, table, &done)?;
        }
        Ok(())
    }

    /// Notes what is wrong with an object.
    fn read_object(&mut self, object: usize, value: &Value) -> Result<(), NoMemory> {
        let table = match object_table(value) {
            Ok(table) => table,
            Err(problem) => {
                let at = At {
                    whose: Whose::numbered(object),
                    key: "",
                };
                self.has_device = true;
                return self.note_value(at, Some(value), problem);
            }
        };
        let whose = self.read_halves(object, table)?;
        self.read_name(whose, table)?;
        self.read_file(whose, table)?;
        self.read_properties(whose, table)
    }

    /// Notes the keys outside of objects that have no meaning.
    fn read_outside(&mut self, document: &Table) -> Result<(), NoMemory> {
        for (key, value) in document.iter() {
            let key = key.as_str();
            let at = At {
                whose: Whose::numbered(0),
                key,
            };
            if key == "described" && value.as_bool() != Some(true) {
                let problem = Problem {
                    wanted: Wanted::True,
                    given: Given::Other,
                };
                self.note_value(at, Some(value), problem)?;
            } else if !DOCUMENT_KEYS.contains(&key) {
                let near = nearest(self.alloc, key, DOCUMENT_KEYS)?;
                self.note_unknown(At { key: "", ..at }, key, near, None)?;
            }
        }
        Ok(())
    }

    /// Notes what is wrong with the list of objects, and with each object.
    fn read_list(&mut self, document: &Table) -> Result<(), NoMemory> {
        let at = At {
            whose: Whose::numbered(0),
            key: "object",
        };
        let wanted = if self.is_described {
            Wanted::DescribedObjects
        } else {
            Wanted::Objects
        };
        let Some(value) = member(document, "object") else {
            let given = Given::Nothing;
            return self.note_value(at, None, Problem { wanted, given });
        };
        match array(wanted, value) {
            Ok(list) if !self.is_described && let Err(problem) = few_objects(list) => {
                self.note_value(at, Some(value), problem)
            }
            Ok(list) => {
                for (place, object) in list.iter().enumerate() {
                    self.read_object(place.saturating_add(1), object)?;
                }
                self.note_refusals(list)
            }
            Err(problem) => self.note_value(at, Some(value), problem),
        }
    }

    /// Notes why an object of a list, or all of them, are refused.
    fn note_refusal(&mut self, list: &Array, fault: DescriptionFault) -> Result<(), NoMemory> {
        let RefusedPlace {
            number,
            table,
            line_key,
            value,
        } = refused_in(list, fault);
        let line = self.outline.line(number, line_key);
        let id = table.and_then(right_id);
        let place = Place {
            object: number,
            id,
            key: property_words(self.alloc, fault.property)?,
        };
        let kind = match id {
            Some(id) => Some(id.kind),
            None => None,
        };
        let wrong = match same_name(list, fault) {
            Some(wrong) => wrong,
            None => refused(self.alloc, kind, fault, value)?,
        };
        Ok(self.findings.push(Finding { line, place, wrong })?)
    }

    /// The same, but what was noted already, or may be so because of that.
    fn note_untold(&mut self, list: &Array, fault: DescriptionFault) -> Result<(), NoMemory> {
        let is_told = match fault.why {
            DescriptionFlaw::SameIdentifier => true,
            DescriptionFlaw::NoDevice => self.has_device || !self.is_whole,
            _ => false,
        };
        if is_told {
            return Ok(());
        }
        self.note_refusal(list, fault)
    }

    /// Notes that there are more reasons of refusal, from this one on; one of no single object is the last.
    fn note_more(&mut self, list: &Array, fault: DescriptionFault) -> Result<(), NoMemory> {
        if fault.object.is_none() {
            return self.note_untold(list, fault);
        }
        let refused = refused_in(list, fault);
        let line = self.outline.line(refused.number, refused.line_key);
        self.more = Some(Finding::more(self.alloc, line));
        Ok(())
    }

    /// Notes why described objects of a list are together no store.
    fn note_refusals(&mut self, list: &Array) -> Result<(), NoMemory> {
        if !self.is_described {
            return Ok(());
        }
        let Reasons { told, next } = refusals(self.alloc, list)?;
        for fault in told.iter() {
            self.note_untold(list, *fault)?;
        }
        match next {
            Some(fault) => self.note_more(list, fault),
            None => Ok(()),
        }
    }
}

/// What is refused of a list: the number of the object and its table, and the key that it stands on the line of, with its value if a property is refused.
#[derive(Clone, Copy)]
struct RefusedPlace<'a> {
    number: usize,
    table: Option<&'a Table>,
    line_key: &'a str,
    value: Option<&'a Value>,
}

/// What a fault refuses of a list.
fn refused_in(list: &Array, fault: DescriptionFault) -> RefusedPlace<'_> {
    let DescriptionFault {
        object,
        property,
        why,
    } = fault;
    let (number, table) = match object {
        Some(place) => (place.saturating_add(1), table_at(list, place)),
        None => (0, None),
    };
    let (line_key, value) = match (property, table) {
        (Some(property), Some(table)) => {
            let key = key_of(property, table);
            (key, member(table, key))
        }
        _ => (key_of_flaw(why), None),
    };
    RefusedPlace {
        number,
        table,
        line_key,
        value,
    }
}

/// The table at a place of a list, where it is one.
fn table_at(list: &Array, place: usize) -> Option<&Table> {
    match list.get(place) {
        Some(Value::Table(table)) => Some(table),
        _ => None,
    }
}

/// The name of the object at a place of a list, where it has one.
fn name_at(list: &Array, place: usize) -> Option<&str> {
    member(table_at(list, place)?, "name")?.as_str()
}

/// Which earlier object has the name of the one that is refused for it. None where it is refused for another reason.
fn same_name(list: &Array, fault: DescriptionFault) -> Option<Wrong> {
    if fault.why != DescriptionFlaw::SameName {
        return None;
    }
    let place = fault.object?;
    let name = name_at(list, place)?;
    for earlier in 0..place {
        if name_at(list, earlier).is_some_and(|other| other == name) {
            return Some(Wrong::SameName {
                object: earlier.saturating_add(1),
                id: table_at(list, earlier).and_then(right_id),
            });
        }
    }
    None
}

/// The key of a property, as an object writes it; that of its head where it has none.
fn key_of(property: u32, table: &Table) -> &str {
    for (key, _) in table.iter() {
        if property_in(key.as_bytes()) == Some(property) {
            return key.as_str();
        }
    }
    ""
}

/// The key of an object that a flaw is about.
fn key_of_flaw(why: DescriptionFlaw) -> &'static str {
    match why {
        DescriptionFlaw::SameName => "name",
        DescriptionFlaw::SecondDevice => "type",
        _ => "",
    }
}

/// A property by its name, or its number; nothing where there is none.
fn property_words(alloc: Global, property: Option<u32>) -> Result<String, NoMemory> {
    let Some(number) = property else {
        return Ok(String::new(alloc));
    };
    match property_name(number) {
        Some(name) => Ok(String::from_str(alloc, name)?),
        None => Ok(format!(in alloc; "{number}")?),
    }
}

/// Whether a text may be the name of a number in objects of some types.
fn may_be_name(problem: Problem) -> bool {
    let Problem { wanted, given } = problem;
    given == Given::Text && matches!(wanted, Wanted::Value | Wanted::Enumerated)
}

/// Whether a document is meant to describe its objects: it says so, or what it says of that is neither true nor false.
fn means_described(document: &Table) -> bool {
    match member(document, "described") {
        Some(value) => value.as_bool().unwrap_or(true),
        None => false,
    }
}

/// Whether a key is that of no property.
fn is_no_property(problem: Problem) -> bool {
    matches!(problem.wanted, Wanted::Property | Wanted::AnyProperty)
}

/// Findings in the order of their lines, and that there are more.
fn in_order(findings: Vec<Finding>, more: Option<Finding>) -> Result<Vec<Finding>, NoMemory> {
    let mut findings = findings;
    findings.sort_by_key(|finding| finding.line.unwrap_or(usize::MAX))?;
    if let Some(more) = more {
        findings.push(more)?;
    }
    Ok(findings)
}

/// The findings of lines that are no TOML, and those of what is left of a document.
fn collected(
    alloc: Global,
    mended: &Mended,
    findings: Vec<Finding>,
) -> Result<Vec<Finding>, NoMemory> {
    let Ok(text) = std::str::from_utf8(&mended.octets) else {
        return Ok(findings);
    };
    let mut collecting = Collecting::of(alloc, text, &mended.table, findings);
    collecting.read(&mended.table)?;
    in_order(collecting.findings, collecting.more)
}

/// All faults of a text.
fn findings_of(alloc: Global, text: &str) -> Result<Vec<Finding>, NoMemory> {
    let mut findings = Vec::new(alloc);
    match read_mended(alloc, text, &mut findings)? {
        Some(mended) => collected(alloc, &mended, findings),
        None => Ok(findings),
    }
}

/// All faults of a document that [`read_objects`](crate::read_objects) refuses, in the order of their lines, those without one last: of lines that are no TOML (the first 16); of its keys outside
/// of objects; of each object; and why the objects of a document that describes them are together no store (the first 32 reasons). Where there are more of these, the
/// last one says so. Of a text that is not UTF-8 there is none here: the refusal of `read_objects` has its line.
///
/// Of a text of more than 262,144 octets there is none either: to find them all takes many times as long as to find the first.
///
/// An Err says that an allocation failed.
pub fn document_findings(alloc: Global, text: &[u8]) -> Result<Vec<Finding>, NoMemory> {
    if text.len() > TOLD_LIMIT {
        return Ok(Vec::new(alloc));
    }
    match std::str::from_utf8(text) {
        Ok(text) => findings_of(alloc, text),
        Err(_) => Ok(Vec::new(alloc)),
    }
}
