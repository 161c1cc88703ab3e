//! Stores and documents: each call is made or refused, and a refused one leaves the store as it was.
use super::holds;
use bac_objects::{DocumentFault, read_objects};
use bac_service::{AnyReply, Complex, OwnedReply, Reply, Request, read_request, write_reply};
use bac_store::{ChangeFault, File, Object, Planned, Store, StoreFault, house};
use bac_value::{NoMemory, ObjectIdentifier};
use std::alloc::Global;
use std::test::Fail;

/// What a reply is expected to be.
#[derive(Clone, Copy)]
enum Want {
    Simple,
    /// The service data of a ComplexACK.
    Complex(&'static [u8]),
    Error(u32, u32),
}

fn is_spelled(alloc: Global, complex: Complex<'_>, wanted: &[u8]) -> Result<bool, NoMemory> {
    let mut octets = Vec::new(alloc);
    write_reply(complex, &mut octets)?;
    Ok(octets.as_slice() == wanted)
}

fn is_wanted(alloc: Global, reply: Reply<'_>, want: Want) -> Result<bool, NoMemory> {
    match (reply, want) {
        (AnyReply::Simple, Want::Simple) => Ok(true),
        (AnyReply::Complex(complex), Want::Complex(octets)) => is_spelled(alloc, complex, octets),
        (AnyReply::Error { class, code }, Want::Error(c, d)) => Ok(c == class && d == code),
        _ => Ok(false),
    }
}

/// The house, where one allocation alone is refused.
fn house_at_last(alloc: Global) -> Result<Store, NoMemory> {
    match house(alloc) {
        Ok(store) => Ok(store),
        Err(NoMemory) => house(alloc),
    }
}

/// A copy, where one allocation alone is refused.
fn copied(alloc: Global, store: &Store) -> Result<Store, NoMemory> {
    match store.copy(alloc) {
        Ok(copy) => Ok(copy),
        Err(NoMemory) => store.copy(alloc),
    }
}

/// A refused copy leaves the store, which can be copied then.
#[test]
fn copies_or_refuses(rt: HostRuntime) -> Result<(), Fail> {
    let store = house_at_last(rt.alloc())?;
    holds(copied(rt.alloc(), &store)?.same(&store), "a copy")
}

/// A file without a name, properties and octets.
fn empty_file(alloc: Global, id: ObjectIdentifier) -> Object {
    let octets = Vec::new(alloc);
    Object {
        id,
        name: String::new(alloc),
        properties: Vec::new(alloc),
        file: Some(File {
            octets,
            writable: true,
        }),
    }
}

/// A store of one object.
fn made_of(alloc: Global, object: Object) -> Result<Store, StoreFault> {
    let mut objects = Vec::new(alloc);
    if objects.push(object).is_err() {
        return Err(StoreFault::NoMemory);
    }
    Store::new(alloc, objects)
}

/// The store of it, where one allocation alone is refused.
fn empty_file_at_last(alloc: Global) -> Result<Store, Fail> {
    let id = ObjectIdentifier::new(10, 1).ok_or("no such identifier")?;
    match made_of(alloc, empty_file(alloc, id)) {
        Ok(store) => Ok(store),
        Err(_) => Ok(made_of(alloc, empty_file(alloc, id)).or(Err("no store"))?),
    }
}

/// An empty file is copied, and its copy asks for no memory: the one allocation of `Store::copy` is that of the list of objects.
#[test]
fn copies_an_empty_file_or_refuses(rt: HostRuntime) -> Result<(), Fail> {
    let store = empty_file_at_last(rt.alloc())?;
    holds(copied(rt.alloc(), &store)?.same(&store), "a copy")
}

/// Whether a reply is the wanted one, where one allocation alone is refused.
fn is_told(alloc: Global, reply: Reply<'_>, want: Want) -> Result<bool, NoMemory> {
    match is_wanted(alloc, reply, want) {
        Ok(is) => Ok(is),
        Err(NoMemory) => is_wanted(alloc, reply, want),
    }
}

/// Requests of the house, and their replies.
const REQUESTS: &[(u8, &[u8], Want)] = &[
    (
        12,
        b"\x0C\x02\x00\x00\x01\x19\x4D",
        Want::Complex(b"\x0C\x02\x00\x00\x01\x19\x4D\x3E\x75\x06\x00\x68\x6F\x75\x73\x65\x3F"),
    ),
    (
        12,
        b"\x0C\x00\x00\x00\x05\x19\x55",
        Want::Complex(b"\x0C\x00\x00\x00\x05\x19\x55\x3E\x44\x42\x90\x99\x9A\x3F"),
    ),
    (
        6,
        b"\xC4\x02\x80\x00\x01\x0E\x31\x00\x21\x0A\x0F",
        Want::Complex(b"\x11\x0E\x31\x00\x62\x4F\x4B\x0F"),
    ),
    (
        7,
        b"\xC4\x02\x80\x00\x01\x0E\x31\xFF\x61\xAA\x0F",
        Want::Complex(b"\x09\x02"),
    ),
    (
        15,
        b"\x0C\x00\x80\x00\x01\x19\x55\x3E\x44\x43\x34\x00\x00\x3F",
        Want::Simple,
    ),
    (12, b"\x0C\x00\x00\x00\x09\x19\x55", Want::Error(1, 31)),
    (
        15,
        b"\x0C\x00\x00\x00\x05\x19\x55\x3E\x44\x00\x00\x00\x00\x3F",
        Want::Error(2, 40),
    ),
];

/// A plan, where one allocation alone is refused; none where memory was refused for an Error.
fn planned(
    alloc: Global,
    store: &Store,
    request: &Request<'_>,
    want: Want,
) -> Result<Option<Planned>, NoMemory> {
    match store.prepare(alloc, request) {
        Ok(plan) => Ok(Some(plan)),
        Err(NoMemory) if matches!(want, Want::Error(_, _)) => Ok(None),
        Err(NoMemory) => Ok(Some(store.prepare(alloc, request)?)),
    }
}

fn is_prepared(
    alloc: Global,
    store: &Store,
    choice: u8,
    octets: &[u8],
    want: Want,
) -> Result<bool, NoMemory> {
    let Ok(request) = read_request(choice, octets) else {
        return Ok(false);
    };
    match planned(alloc, store, &request, want)? {
        Some(plan) => is_told(alloc, plan.reply(), want),
        None => Ok(false),
    }
}

fn all_prepared(alloc: Global, store: &Store) -> Result<(), Fail> {
    for (choice, octets, want) in REQUESTS {
        if !is_prepared(alloc, store, *choice, octets, *want)? {
            return Err(Fail::from(*octets));
        }
    }
    Ok(())
}

/// Each reply is told; where its memory is refused, the next call finds the store as it was. An Error takes no memory.
#[test]
fn prepares_or_refuses(rt: HostRuntime) -> Result<(), Fail> {
    all_prepared(rt.alloc(), &house_at_last(rt.alloc())?)
}

/// The reply to a request that is performed, where one allocation alone is refused; a refused call leaves the store as it was. None where an Error was refused
/// memory.
fn performed(
    alloc: Global,
    store: &mut Store,
    request: &Request<'_>,
    want: Want,
) -> Result<Option<OwnedReply>, NoMemory> {
    let before = copied(alloc, store)?;
    match store.perform(alloc, request) {
        Ok(reply) => Ok(Some(reply)),
        Err(NoMemory) if matches!(want, Want::Error(_, _)) || !store.same(&before) => Ok(None),
        Err(NoMemory) => Ok(Some(store.perform(alloc, request)?)),
    }
}

fn is_performed_at_last(
    alloc: Global,
    store: &mut Store,
    choice: u8,
    octets: &[u8],
    want: Want,
) -> Result<bool, NoMemory> {
    let Ok(request) = read_request(choice, octets) else {
        return Ok(false);
    };
    match performed(alloc, store, &request, want)? {
        Some(reply) => is_told(alloc, reply.as_reply(), want),
        None => Ok(false),
    }
}

/// What the requests have written.
const READS: &[(u8, &[u8], Want)] = &[
    (
        12,
        b"\x0C\x00\x80\x00\x01\x19\x55",
        Want::Complex(b"\x0C\x00\x80\x00\x01\x19\x55\x3E\x44\x43\x34\x00\x00\x3F"),
    ),
    (
        6,
        b"\xC4\x02\x80\x00\x01\x0E\x31\x00\x21\x0A\x0F",
        Want::Complex(b"\x11\x0E\x31\x00\x63\x4F\x4B\xAA\x0F"),
    ),
];

fn all_performed_at_last(
    alloc: Global,
    store: &mut Store,
    rows: &[(u8, &[u8], Want)],
) -> Result<(), Fail> {
    for (choice, octets, want) in rows {
        if !is_performed_at_last(alloc, store, *choice, octets, *want)? {
            return Err(Fail::from(*octets));
        }
    }
    Ok(())
}

/// Each request is performed; where its memory is refused, the store is as it was, and the next call performs it.
#[test]
fn performs_or_refuses(rt: HostRuntime) -> Result<(), Fail> {
    let mut store = house_at_last(rt.alloc())?;
    all_performed_at_last(rt.alloc(), &mut store, REQUESTS)?;
    all_performed_at_last(rt.alloc(), &mut store, READS)
}

/// Whether a house that commits its plan for a request is the house that has performed it; None where memory was refused before that.
fn is_committed(alloc: Global, choice: u8, octets: &[u8]) -> Option<bool> {
    let request = read_request(choice, octets).ok()?;
    let mut wanted = house(alloc).ok()?;
    let _ = wanted.perform(alloc, &request).ok()?;
    let mut store = house(alloc).ok()?;
    let plan = store.prepare(alloc, &request).ok()?;
    let _ = store.commit(plan);
    Some(store.same(&wanted))
}

/// A plan is committed, also where every allocation from then on is refused. Where one is refused before, the test fails as `not prepared`.
#[test]
fn commits_without_memory(rt: HostRuntime) -> Result<(), Fail> {
    for (choice, octets, _) in REQUESTS {
        let is = is_committed(rt.alloc(), *choice, octets).ok_or("not prepared")?;
        holds(is, "a commit")?;
    }
    Ok(())
}

/// Sets the present-value of flow, where one allocation alone is refused; whether a refused call leaves the store as it was.
fn is_set(alloc: Global, store: &mut Store, object: ObjectIdentifier) -> Result<bool, Fail> {
    let before = copied(alloc, store)?;
    match store.set_value(alloc, object, 85, b"\x44\x42\x90\x00\x00") {
        Ok(()) => Ok(!store.same(&before)),
        Err(ChangeFault::NoMemory) => Ok(store.same(&before)),
        Err(_) => Ok(false),
    }
}

/// Sets the octets of log, where one allocation alone is refused; whether a refused call leaves the store as it was.
fn is_filled(alloc: Global, store: &mut Store, object: ObjectIdentifier) -> Result<bool, Fail> {
    let before = copied(alloc, store)?;
    match store.set_file(alloc, object, b"\xAA") {
        Ok(()) => Ok(!store.same(&before)),
        Err(ChangeFault::NoMemory) => Ok(store.same(&before)),
        Err(_) => Ok(false),
    }
}

/// A change is made, or refused and nothing is changed.
#[test]
fn changes_or_refuses(rt: HostRuntime) -> Result<(), Fail> {
    let mut store = house_at_last(rt.alloc())?;
    let flow = ObjectIdentifier::new(0, 5).ok_or("no such identifier")?;
    let log = ObjectIdentifier::new(10, 1).ok_or("no such identifier")?;
    holds(is_set(rt.alloc(), &mut store, flow)?, "flow")?;
    holds(is_filled(rt.alloc(), &mut store, log)?, "log")
}

/// docs/house.toml; tests/house.sh says that both are one.
const HOUSE: &str =
    r#"# The house: the objects that `bac serve` and `bac answer` have without a document.

[[object]]
type = "device"
instance = 1
name = "house"

[[object]]
type = "analog-input"
instance = 5
name = "flow"
present-value = { real = 72.3 }

[[object]]
type = "analog-value"
instance = 1
name = "setpoint"
description = { text = "", writable = true }
present-value = { real = 0.0, writable = true }

[[object]]
type = "binary-value"
instance = 1
name = "pump"
present-value = { enumerated = 0, writable = true }

[[object]]
type = "file"
instance = 1
name = "log"
file = { text = "OK", writable = true }
"#;

/// The store of a document, where one allocation alone is refused; None where the document is told to mean none.
fn read_at_last(alloc: Global, document: &[u8]) -> Option<Store> {
    match read_objects(alloc, document) {
        Ok(store) => Some(store),
        Err(DocumentFault::NoMemory) => read_objects(alloc, document).ok(),
        Err(_) => None,
    }
}

/// A document is read, or memory is refused and then it is read: no other fault is told.
#[test]
fn reads_a_document_or_refuses(rt: HostRuntime) -> Result<(), Fail> {
    let house = house_at_last(rt.alloc())?;
    let is_read = match read_at_last(rt.alloc(), HOUSE.as_bytes()) {
        Some(store) => store.same(&house),
        None => false,
    };
    holds(is_read, "the house")
}
