//! Rows of a store, the house store at first.
//!
//! `house`, `document TEXT`, `objects OBJECT ..` and `many COUNT` make another store, or print why there is none; `copy` continues with a copy, and `same` compares
//! with the house, or with the store of a document. `ask CHOICE HEX` performs a request and prints the reply. `change OBJECT PROPERTY HEX` and `fill FILE HEX`
//! are changes at the node. `findings TEXT` prints all faults of a document, each with its line. `find COUNT` looks up so many objects, and `faults` prints all faults of changes.
use crate::objects::{descending, identifier, objects_of};
use crate::rows::{Stage, play_lines};
use crate::words::print_octets;
use bac_objects::{document_findings, read_objects};
use bac_rows::row::{Row, number8, number32, place_of, word};
use bac_service::{AnyReply, Complex, Reply, Request, read_request, write_reply};
use bac_store::{Change, ChangeFault, Object, Store, house};
use std::alloc::Global;
use std::fmt::Display;

fn spelling_of(alloc: Global, complex: Complex<'_>) -> Vec<u8> {
    let mut octets = Vec::new(alloc);
    let _ = write_reply(complex, &mut octets);
    octets
}

fn print_reply(reply: Reply<'_>, row: &mut Row) {
    match reply {
        AnyReply::Simple => row.say("simple\n"),
        AnyReply::Complex(complex) => {
            row.say("complex ");
            print_octets(&spelling_of(row.alloc, complex), row);
        }
        AnyReply::Error { class, code } => {
            row.tell_two("error # #\n", u64::from(class), u64::from(code));
        }
        AnyReply::Reject(reason) => row.tell("reject #\n", u64::from(reason)),
    }
}

/// Whether a reply has service data that end so.
fn ends_with(alloc: Global, reply: Reply<'_>, end: &[u8]) -> bool {
    match reply {
        AnyReply::Complex(complex) => spelling_of(alloc, complex).ends_with(end),
        _ => false,
    }
}

/// A store, and what plays on it.
#[derive(Drop)]
struct Playing {
    store: Store,
}

impl Playing {
    /// Continues with a store, or prints why there is none.
    fn make<F: Display + Drop>(&mut self, made: Result<Store, F>, row: &mut Row) {
        match made {
            Ok(store) => {
                self.store = store;
                row.say("store\n");
            }
            Err(fault) => row.line(fault),
        }
    }

    /// Prints whether it is that other store.
    fn compare<F: Drop>(&self, other: Result<Store, F>, row: &mut Row) {
        match other {
            Ok(other) => row.tell_truth("same ", self.store.same(&other)),
            Err(_) => row.fail(),
        }
    }

    /// Continues with a copy.
    fn copy(&mut self, row: &mut Row) {
        match self.store.copy(row.alloc) {
            Ok(copy) => {
                row.tell_truth("same ", self.store.same(&copy));
                self.store = copy;
            }
            Err(_) => row.fail(),
        }
    }

    /// Performs a request by a plan.
    fn perform(&mut self, request: &Request<'_>, row: &mut Row) {
        match self.store.prepare(row.alloc, request) {
            Ok(plan) => {
                print_reply(plan.reply(), row);
                self.store.commit(plan);
            }
            Err(_) => row.fail(),
        }
    }

    fn ask(&mut self, words: &str, row: &mut Row) {
        let octets = row.octets(words, 1);
        match read_request(number8(words, 0), &octets) {
            Ok(request) => self.perform(&request, row),
            Err(_) => row.fail(),
        }
    }

    /// Prints what came of a change; of one that was not made, why, and whether the store is as it was.
    fn print_changed(&self, changed: Result<(), ChangeFault>, before: &Store, row: &mut Row) {
        match changed {
            Ok(()) => row.say("changed\n"),
            Err(fault) => {
                row.tell("#: ", u64::from(fault.number()));
                row.show(fault);
                row.tell_truth(", same ", self.store.same(before));
            }
        }
    }

    fn make_change(&mut self, change: &Change, row: &mut Row) {
        match self.store.copy(row.alloc) {
            Ok(before) => {
                let changed = self.store.change(row.alloc, change);
                self.print_changed(changed, &before, row);
            }
            Err(_) => row.fail(),
        }
    }

    fn change(&mut self, words: &str, row: &mut Row) {
        match identifier(word(words, 0)) {
            Some(object) => {
                let change = Change::Value {
                    object,
                    property: number32(words, 1),
                    octets: row.octets(words, 2),
                };
                self.make_change(&change, row);
            }
            None => row.fail(),
        }
    }

    fn fill(&mut self, words: &str, row: &mut Row) {
        match identifier(word(words, 0)) {
            Some(object) => {
                let change = Change::File {
                    object,
                    octets: row.octets(words, 1),
                };
                self.make_change(&change, row);
            }
            None => row.fail(),
        }
    }

    /// Whether a request is answered by service data that end so.
    fn answers(&self, alloc: Global, request: &Request<'_>, end: &[u8]) -> bool {
        match self.store.prepare(alloc, request) {
            Ok(plan) => ends_with(alloc, plan.reply(), end),
            Err(_) => false,
        }
    }

    /// Whether a read of the object-identifier of an analog-input gets it.
    fn finds(&self, alloc: Global, instance: u32) -> bool {
        let [_, high, middle, low] = instance.to_be_bytes();
        let end = [0xC4, 0, high, middle, low, 0x3F];
        match read_request(12, &[0x0C, 0, high, middle, low, 0x19, 75]) {
            Ok(request) => self.answers(alloc, &request, &end),
            Err(_) => false,
        }
    }

    /// How many of so many instances there are, and whether the last one is.
    fn find(&self, count: u32, row: &mut Row) {
        let mut found = 0u64;
        let mut is_last = false;
        for instance in 0..count {
            is_last = self.finds(row.alloc, instance);
            found = found.saturating_add(u64::from(is_last));
        }
        row.tell("found #", found);
        row.tell_truth(", the last ", is_last);
    }

    /// Continues with the house.
    fn make_house(&mut self, row: &mut Row) {
        match house(row.alloc) {
            Ok(store) => self.store = store,
            Err(_) => row.fail(),
        }
    }

    fn make_of(&mut self, objects: Vec<Object>, row: &mut Row) {
        self.make(Store::new(row.alloc, objects), row);
    }

    /// Prints whether the store is the house store, or that of a document.
    fn compare_with(&self, text: &str, row: &mut Row) {
        if text.is_empty() {
            self.compare(house(row.alloc), row);
        } else {
            self.compare(read_objects(row.alloc, text.as_bytes()), row);
        }
    }
}

/// Prints all faults of a document.
fn print_findings(text: &[u8], row: &mut Row) {
    match document_findings(row.alloc, text) {
        Ok(findings) => {
            for finding in findings.iter() {
                row.line(finding);
            }
        }
        Err(_) => row.fail(),
    }
}

const FAULTS: &[ChangeFault] = &[
    ChangeFault::NoSuchObject,
    ChangeFault::NoSuchProperty,
    ChangeFault::BadValue,
    ChangeFault::TooLong,
    ChangeFault::NoMemory,
];

fn print_faults(row: &mut Row) {
    for fault in FAULTS {
        row.tell("#: ", u64::from(fault.number()));
        row.line(fault);
    }
}

const VERBS: &str = "house document objects many copy same ask change fill findings find faults";

impl Stage for Playing {
    fn hear(&mut self, verb: &str, words: &str, row: &mut Row) {
        match place_of(VERBS, verb) {
            0 => self.make_house(row),
            1 => self.make(read_objects(row.alloc, words.as_bytes()), row),
            2 => self.make_of(objects_of(words, row), row),
            3 => self.make_of(descending(row.alloc, number32(words, 0)), row),
            4 => self.copy(row),
            5 => self.compare_with(words, row),
            6 => self.ask(words, row),
            7 => self.change(words, row),
            8 => self.fill(words, row),
            9 => print_findings(words.as_bytes(), row),
            10 => self.find(number32(words, 0), row),
            11 => print_faults(row),
            _ => row.fail(),
        }
    }
}

/// Plays the lines of a row.
pub(crate) fn play(lines: &str, row: &mut Row) {
    match house(row.alloc) {
        Ok(store) => play_lines(&mut Playing { store }, lines, row),
        Err(_) => row.fail(),
    }
}
