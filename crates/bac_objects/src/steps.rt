//! A document that is read in steps, each of which reads some whole tables: none of them takes long.
use crate::described::{DESCRIBED_LIMIT, is_described, object_in as described_object};
use crate::document::{LISTED_LIMIT, in_object};
use crate::fault::{DocumentFault, Flaw, ObjectFault, Refusal};
use crate::held::{count, member};
use crate::object::object_in as listed_object;
use crate::outline::{behind_value, first_statement, is_object_head, line_behind};
use crate::problem::{Given, Problem, Wanted};
use crate::scalars::array;
use bac_store::{DescriptionFlaw, Object, Store};
use bac_value::NoMemory;
use std::alloc::Global;
use std::str;
use toml::de::Error;
use toml::value::Array;
use toml::{Table, Value};
use toml_parser::text::skip_blank;

/// How many octets of keys are read in a step, or more where the tables of one object have more.
const PART: usize = 32_768;

/// How many keys are read in a step, or more where the tables of one object have more.
const PART_KEYS: usize = 2_048;

/// How many keys the tables of an object may have, those of its properties too.
const TABLE_KEYS: usize = 8_192;

/// How many octets a step looks at.
const WINDOW: usize = 65_536;

/// The same, where no key ends within these: so many octets the tables of an object may have.
const TABLE_LIMIT: usize = 262_144;

/// The objects of a document, and the store that they make.
#[derive(Drop)]
pub struct ReadDocument {
    pub store: Store,
    pub objects: Vec<Object>,
}

/// Where a key or a head stands in the part that is read next, and in the document.
#[derive(Clone, Copy)]
struct KeyPlace {
    in_part: usize,
    in_text: usize,
}

/// The keys and heads that have been passed over, and are read together.
#[derive(Drop)]
struct Part {
    octets: Vec<u8>,
    places: Vec<KeyPlace>,
    has_head: bool,
    /// Whether it is whole: the next object begins, or the document has ended.
    is_whole: bool,
}

/// A document of which some tables have been read.
#[derive(Drop)]
pub struct DocumentSteps {
    alloc: Global,
    /// How many octets of the document have been passed over.
    passed: usize,
    part: Part,
    /// Whether no part has been read.
    is_first: bool,
    has_list: bool,
    is_described: bool,
    objects: Vec<Object>,
    /// The same objects, for the store.
    stored: Vec<Object>,
}

/// What so many octets show of a text: whole lines, or the rest.
fn window_in(rest: &[u8], size: usize) -> &[u8] {
    let Some(front) = rest.get(..size) else {
        return rest;
    };
    let mut end: usize = 0;
    for (place, octet) in front.iter().enumerate() {
        if *octet == b'\n' {
            end = place.saturating_add(1);
        }
    }
    front.get(..end).unwrap_or(&[])
}

/// That a part is no TOML, or that memory was refused.
fn no_toml(line: usize, error: Error) -> DocumentFault {
    if error.is_memory() {
        DocumentFault::NoMemory
    } else {
        DocumentFault::NoToml { line, error }
    }
}

/// The store of all objects of a document.
fn store_of(
    alloc: Global,
    is_described: bool,
    objects: Vec<Object>,
) -> Result<Store, DocumentFault> {
    if !is_described {
        return match Store::new(alloc, objects) {
            Ok(store) => Ok(store),
            // each object is valid, and has an identifier of its own
            Err(_) => Err(DocumentFault::NoMemory),
        };
    }
    match Store::describing(alloc, objects) {
        Ok(store) => Ok(store),
        Err(fault) if fault.why == DescriptionFlaw::NoMemory => Err(DocumentFault::NoMemory),
        Err(fault) => Err(DocumentFault::Refused(Refusal { fault })),
    }
}

impl Part {
    fn new(alloc: Global) -> Part {
        Part {
            octets: Vec::new(alloc),
            places: Vec::new(alloc),
            has_head: false,
            is_whole: false,
        }
    }

    /// Whether it has as much as is read in a step.
    fn is_full(&self) -> bool {
        self.octets.len() >= PART || self.places.len() >= PART_KEYS
    }

    /// Whether the tables of its last object have too much.
    fn is_too_long(&self) -> bool {
        !self.is_whole
            && (self.octets.len() > PART + TABLE_LIMIT
                || self.places.len() > PART_KEYS + TABLE_KEYS)
    }

    /// Adds a key with its value, or a head, which so many octets of the document are before.
    fn add(&mut self, statement: &str, in_text: usize) -> Result<(), NoMemory> {
        let in_part = self.octets.len();
        self.places.push(KeyPlace { in_part, in_text })?;
        self.octets.extend_from_slice(statement.as_bytes())?;
        Ok(self.octets.push(b'\n')?)
    }

    /// Adds the keys and heads of a text, which so many octets of the document are before, as long as they are whole and the part is not. Returns how many
    /// octets were passed over.
    fn pass(
        &mut self,
        alloc: Global,
        text: &str,
        before: usize,
        is_last: bool,
    ) -> Result<usize, NoMemory> {
        let mut rest = if before == 0 {
            first_statement(text)
        } else {
            skip_blank(text, true)
        };
        for _place in 0..text.len() {
            let place = text.len().saturating_sub(rest.len());
            let is_head = is_object_head(alloc, rest);
            self.is_whole = is_head && self.is_full();
            if rest.is_empty() || self.is_whole {
                return Ok(place);
            }
            let Some(after) = behind_value(alloc, rest) else {
                return Ok(place);
            };
            if after.is_empty() && !is_last {
                return Ok(place);
            }
            let statement = rest.get(..rest.len().saturating_sub(after.len()));
            self.add(statement.unwrap_or(""), before.saturating_add(place))?;
            self.has_head |= is_head;
            rest = skip_blank(after, true);
        }
        Ok(text.len().saturating_sub(rest.len()))
    }

    /// The number of the line of the document that contains an error in the part.
    fn line_of(&self, text: &[u8], error: &Error) -> usize {
        let start = match error.span() {
            Some(span) => span.start,
            None => 0,
        };
        let mut latest = None;
        for place in &self.places {
            if place.in_part <= start {
                latest = Some(*place);
            }
        }
        match latest {
            Some(place) => {
                let behind = start.saturating_sub(place.in_part);
                line_behind(text, place.in_text.saturating_add(behind))
            }
            None => 1,
        }
    }
}

impl DocumentSteps {
    /// A document of which nothing has been read.
    pub fn new(alloc: Global) -> DocumentSteps {
        DocumentSteps {
            alloc,
            passed: 0,
            part: Part::new(alloc),
            is_first: true,
            has_list: false,
            is_described: false,
            objects: Vec::new(alloc),
            stored: Vec::new(alloc),
        }
    }

    /// How many octets of the document have been passed over.
    pub fn passed(&self) -> usize {
        self.passed
    }

    /// A fault of the document, outside of its objects.
    fn wrong(&self, wanted: Wanted, given: Given) -> DocumentFault {
        let problem = Problem { wanted, given };
        let flaw = Flaw {
            id: None,
            key: "object",
            problem,
        };
        in_object(self.alloc, 0, ObjectFault::Flaw(flaw))
    }

    /// That the tables of an object are too long.
    fn too_long(&self) -> DocumentFault {
        let problem = Problem {
            wanted: Wanted::ShortTable,
            given: Given::More,
        };
        let flaw = Flaw {
            id: None,
            key: "",
            problem,
        };
        let object = if self.part.has_head {
            self.objects.len().saturating_add(1)
        } else {
            self.objects.len()
        };
        in_object(self.alloc, object, ObjectFault::Flaw(flaw))
    }

    /// What is wanted under the key `object`.
    fn wanted(&self) -> Wanted {
        if self.is_described {
            Wanted::DescribedObjects
        } else {
            Wanted::Objects
        }
    }

    /// How many keys a part has that has a list of objects or none: `described` is in the first one.
    fn own_keys(&self, has_list: bool) -> usize {
        match (has_list, self.is_first && self.is_described) {
            (true, true) => 2,
            (false, false) => 0,
            _ => 1,
        }
    }

    /// The list of objects in a part. A list that is a value is the only one.
    fn list_in<'t>(
        &self,
        table: &'t Table,
        is_last: bool,
    ) -> Result<Option<&'t Array>, DocumentFault> {
        let list = member(table, "object");
        if count(table) != self.own_keys(list.is_some()) {
            return Err(self.wrong(self.wanted(), Given::More));
        }
        let Some(list) = list else {
            return Ok(None);
        };
        if !self.part.has_head && !is_last {
            return Err(self.wrong(self.wanted(), Given::Other));
        }
        match array(self.wanted(), list) {
            Ok(list) => Ok(Some(list)),
            Err(problem) => Err(self.wrong(problem.wanted, problem.given)),
        }
    }

    fn push(&mut self, object: Object, stored: Object) -> Result<(), NoMemory> {
        self.objects.push(object)?;
        Ok(self.stored.push(stored)?)
    }

    /// Reads the next object.
    fn object_in(&self, value: &Value) -> Result<Object, DocumentFault> {
        let read = if self.is_described {
            described_object(self.alloc, value)
        } else {
            listed_object(self.alloc, &self.objects, value)
        };
        match read {
            Ok(object) => Ok(object),
            Err(fault) => {
                let number = self.objects.len().saturating_add(1);
                Err(in_object(self.alloc, number, fault))
            }
        }
    }

    /// Reads the next object, once for each list.
    fn read_object(&mut self, value: &Value) -> Result<(), DocumentFault> {
        let object = self.object_in(value)?;
        let stored = self.object_in(value)?;
        Ok(self.push(object, stored)?)
    }

    /// Reads the objects of a list: no more than are needed to refuse the document.
    fn read_list(&mut self, list: &Array) -> Result<(), DocumentFault> {
        self.has_list = true;
        for value in list {
            if self.is_described && self.objects.len() == DESCRIBED_LIMIT {
                return Ok(());
            }
            if self.objects.len() == LISTED_LIMIT {
                return Err(self.wrong(Wanted::FewObjects, Given::More));
            }
            self.read_object(value)?;
        }
        Ok(())
    }

    /// Reads the part, and begins the next one.
    fn read_part(&mut self, text: &[u8]) -> Result<(), DocumentFault> {
        let table = match toml::table_from_slice(self.alloc, &self.part.octets) {
            Ok(table) => table,
            Err(error) => {
                let line = self.part.line_of(text, &error);
                return Err(no_toml(line, error));
            }
        };
        let is_last = self.passed >= text.len();
        if self.is_first {
            self.is_described = is_described(&table);
        }
        let list = self.list_in(&table, is_last)?;
        self.is_first = false;
        self.part = Part::new(self.alloc);
        match list {
            Some(list) => self.read_list(list),
            None => Ok(()),
        }
    }

    /// Passes over keys and heads of the document within so many octets. Returns whether there were any, or the document has ended.
    fn pass(&mut self, text: &[u8], size: usize) -> Result<bool, DocumentFault> {
        let rest = text.get(self.passed..).unwrap_or(&[]);
        let window = window_in(rest, size);
        let is_last = window.len() == rest.len();
        let Ok(words) = str::from_utf8(window) else {
            return Err(self.no_text(text, window));
        };
        let alloc = self.alloc;
        let before = self.passed;
        let count = self.part.pass(alloc, words, before, is_last)?;
        self.passed = self.passed.saturating_add(count);
        if is_last && count == rest.len() {
            self.part.is_whole = true;
        }
        Ok(count > 0 || self.part.is_whole)
    }

    /// The fault of a window that is not UTF-8.
    fn no_text(&self, text: &[u8], window: &[u8]) -> DocumentFault {
        match toml::table_from_slice(self.alloc, window) {
            Err(error) => {
                let within = match error.span() {
                    Some(span) => span.start,
                    None => 0,
                };
                let line = line_behind(text, self.passed.saturating_add(within));
                no_toml(line, error)
            }
            Ok(_) => self.too_long(),
        }
    }

    /// The fault of a key that does not end within a window: of the line that it begins in, where that is no TOML, or that it is too long.
    fn no_end(&mut self, text: &[u8]) -> DocumentFault {
        let rest = text.get(self.passed..).unwrap_or(&[]);
        let window = str::from_utf8(window_in(rest, TABLE_LIMIT)).unwrap_or("");
        let words = window.split('\n').next().unwrap_or("");
        let may_go_on = words.contains("\"\"\"") || words.contains("'''");
        if window.is_empty() || may_go_on || behind_value(self.alloc, window).is_some() {
            return self.too_long();
        }
        let before = self.passed;
        match self.part.add(words, before) {
            Err(_) => DocumentFault::NoMemory,
            Ok(()) => match self.read_part(text) {
                Err(fault) => fault,
                Ok(()) => self.too_long(),
            },
        }
    }

    /// Reads a step of the document, whose whole text that is. Returns whether all of it has been read.
    ///
    /// The faults are those of [`read_objects`](crate::read_objects), each perhaps before one that is told first there, but for `Refused`. There is one more: an
    /// object whose tables have more than 262,144 octets.
    pub fn step(&mut self, text: &[u8]) -> Result<bool, DocumentFault> {
        if !self.pass(text, WINDOW)? && !self.pass(text, TABLE_LIMIT)? {
            return Err(self.no_end(text));
        }
        if self.part.is_too_long() {
            return Err(self.too_long());
        }
        if self.part.is_whole {
            self.read_part(text)?;
            return Ok(self.passed >= text.len());
        }
        Ok(false)
    }

    /// The objects of a document that has been read whole, and the store that they make.
    pub fn finish(self) -> Result<ReadDocument, DocumentFault> {
        if !self.has_list {
            return Err(self.wrong(self.wanted(), Given::Nothing));
        }
        let DocumentSteps {
            alloc,
            passed: _,
            part: _,
            is_first: _,
            has_list: _,
            is_described,
            objects,
            stored,
        } = self;
        let store = store_of(alloc, is_described, stored)?;
        Ok(ReadDocument { store, objects })
    }
}
