//! A document that a server follows: it is read again, step by step, and where it changed the node gets the values that it changed.
ghost use Rattle.std.specs.Prelude.{◌≡◌, IfErr, OnOk};
ghost use Rattle.bac_text.specs.Statuses.{IsFailure};
ghost use Rattle.bac_serving.specs.Stretches.{IsChanged};

use crate::changing::DocumentNews;
use crate::extent::{KEY_LIMIT, has_too_many_keys, marks_in};
use crate::fault_lines::{FaultTime, print_fault_objects};
use crate::part_words::print_about;
use crate::reading::Reading;
use crate::reasons::print_document_fault;
use crate::stretching::Stretching;
use bac_environment::RegularFiles;
use bac_follow::{Documents, FollowFault, changes_between};
use bac_objects::{DocumentFault, DocumentSteps, ReadDocument, read_object_list, read_objects};
use bac_server::{LevelLog, LogFormat};
use bac_store::{Change, ChangeFault, Object, Store};
use bac_text::{Status, no_memory};
use bac_value::NoMemory;
use std::alloc::Global;
use std::io;
use std::io::{ErrorKind, Read, Write};
use std::mem::replace;

/// 1 MiB, in octets.
pub(crate) const MEBIBYTE: u64 = 1_048_576;

/// How long a document may be of which all faults are told, in octets; of a longer one the first is told. To find them all takes longer than to read it.
const TOLD_WHOLE: usize = 16_384;

/// How long a document may be that is read at once, in octets; a longer one is read in steps.
const AT_ONCE: usize = 262_144;

/// How many `=` a document may have that is read at once.
const KEYS_AT_ONCE: usize = 4_096;

/// Where a document is, and how many octets it may have.
#[derive(Clone, Copy)]
pub(crate) struct FollowedPath<'p> {
    pub path: &'p str,
    pub most: u64,
}

/// A document that a server follows, from files of that type.
#[derive(Drop)]
pub(crate) struct Followed<'p, R> {
    alloc: Global,
    at: FollowedPath<'p>,
    /// The file, while it is read again.
    reading: Option<Reading<R>>,
    /// New octets of a long document, while their objects are read.
    taking: Option<Taking>,
    /// The octets that were read last; None where the file could not be read.
    octets: Option<Vec<u8>>,
    /// The store that the document meant when its values were last given to the node.
    store: Store,
    /// The objects that it listed then.
    objects: Vec<Object>,
}

/// Why a document is not followed now, apart from memory.
#[derive(Drop)]
enum Refusal {
    /// It may have more keys than a server reads while it serves.
    TooManyKeys,
    /// It means no store.
    Wrong(DocumentFault),
    /// The served objects cannot follow it.
    Unfit(FollowFault),
}

/// The octets of a document, as far as their objects have been read.
#[derive(Drop)]
struct Taking {
    octets: Vec<u8>,
    steps: DocumentSteps,
    /// How many of the octets that were read are `=`.
    marks: usize,
    is_read: bool,
}

/// The octets of a document, and what they mean, or why it is not followed.
#[derive(Drop)]
struct Outcome {
    octets: Vec<u8>,
    read: Result<ReadDocument, Refusal>,
}

/// What comes of a step.
#[derive(Drop)]
enum Stepped {
    GoesOn(Taking),
    Ended(Outcome),
}

/// What a look at a document has found, before the node is asked.
#[derive(Drop)]
enum Seen {
    /// Nothing that is new, or not all of it yet.
    Nothing,
    /// A document that has other octets than before.
    Read(Outcome),
    /// The file cannot be read.
    Unread(io::Error),
}

/// What a document as it is now changes.
#[derive(Drop)]
struct News {
    store: Store,
    objects: Vec<Object>,
    changes: Vec<Change>,
}

/// What the node did with a document.
#[derive(Drop)]
enum Taken {
    /// It made all changes.
    All,
    /// Memory was refused: it is tried again at the next look.
    Later,
    /// It does not follow it, for that reason.
    Refused(Refusal),
}

/// What comes of a document for which that stands: without memory it is tried again.
fn taken_by(refusal: Refusal) -> Taken {
    if matches!(&refusal, Refusal::Wrong(DocumentFault::NoMemory)) {
        drop(refusal);
        Taken::Later
    } else {
        Taken::Refused(refusal)
    }
}

/// The objects that a document lists which means a store.
fn objects_in(alloc: Global, octets: &[u8]) -> Result<Vec<Object>, NoMemory> {
    match read_object_list(alloc, octets) {
        Ok(objects) => Ok(objects),
        Err(_) => Err(NoMemory),
    }
}

/// Reads a short document.
fn read_at_once(alloc: Global, octets: &[u8]) -> Result<ReadDocument, Refusal> {
    let store = match read_objects(alloc, octets) {
        Ok(store) => store,
        Err(fault) => return Err(Refusal::Wrong(fault)),
    };
    match objects_in(alloc, octets) {
        Ok(objects) => Ok(ReadDocument { store, objects }),
        Err(_) => {
            drop(store);
            Err(Refusal::Wrong(DocumentFault::NoMemory))
        }
    }
}

/// Why a document is not followed whose changes have that fault.
fn refusal_of(fault: FollowFault) -> Refusal {
    match fault {
        FollowFault::NoMemory => Refusal::Wrong(DocumentFault::NoMemory),
        fault => Refusal::Unfit(fault),
    }
}

/// What a document changes of the store that it meant before, when it listed those objects. An Err says why the node makes no changes.
fn news_in(
    alloc: Global,
    before: &Store,
    served: &[Object],
    read: ReadDocument,
) -> Result<News, Taken> {
    let documents = Documents {
        before,
        now: &read.store,
    };
    match changes_between(alloc, documents, served, &read.objects) {
        Ok(changes) => {
            let ReadDocument { store, objects } = read;
            Ok(News {
                store,
                objects,
                changes,
            })
        }
        Err(fault) => {
            drop(read);
            Err(taken_by(refusal_of(fault)))
        }
    }
}

impl News {
    /// What the node gets of it.
    fn told(&self) -> DocumentNews<'_> {
        DocumentNews {
            document: &self.store,
            changes: &self.changes,
        }
    }
}

impl Taking {
    /// Octets of which nothing has been read.
    fn new(alloc: Global, octets: Vec<u8>) -> Taking {
        Taking {
            octets,
            steps: DocumentSteps::new(alloc),
            marks: 0,
            is_read: false,
        }
    }

    /// Reads a step, and notes whether all of the document has been read. An Err is why it is not followed.
    fn read_step(&mut self) -> Result<(), Refusal> {
        let begin = self.steps.passed();
        let read = self.steps.step(&self.octets);
        let passed = self.octets.get(begin..self.steps.passed()).unwrap_or(&[]);
        self.marks = self.marks.saturating_add(marks_in(passed));
        if self.marks > KEY_LIMIT {
            drop(read);
            return Err(Refusal::TooManyKeys);
        }
        match read {
            Ok(is_read) => {
                self.is_read = is_read;
                Ok(())
            }
            Err(fault) => Err(self.refusal_by(fault)),
        }
    }

    /// Why a document with that fault is not followed.
    fn refusal_by(&self, fault: DocumentFault) -> Refusal {
        if has_too_many_keys(&self.octets) {
            drop(fault);
            Refusal::TooManyKeys
        } else {
            Refusal::Wrong(fault)
        }
    }

    /// Reads a step, or ends with the store of all that was read.
    fn step(self) -> Stepped {
        if self.is_read {
            let Taking { octets, steps, .. } = self;
            let read = match steps.finish() {
                Ok(read) => Ok(read),
                Err(fault) => Err(Refusal::Wrong(fault)),
            };
            return Stepped::Ended(Outcome { octets, read });
        }
        let mut taking = self;
        let Err(refusal) = taking.read_step() else {
            return Stepped::GoesOn(taking);
        };
        let Taking { octets, steps, .. } = taking;
        drop(steps);
        Stepped::Ended(Outcome {
            octets,
            read: Err(refusal),
        })
    }
}

/// Tells that the served objects cannot follow a document, and why.
fn print_unfit<E: Write>(alloc: Global, path: &str, fault: FollowFault, err: &mut E) {
    // if that fails too, nothing is printed
    match fault {
        FollowFault::Cannot {
            object,
            property,
            fault,
        } => {
            let served = match fault {
                ChangeFault::NoSuchObject | ChangeFault::NoSuchProperty => " is served",
                _ => "",
            };
            if let Ok(why) = format!(in alloc;
                "{fault}{served}: not followed; restart the server"
            ) {
                let _ = print_about(alloc, path, object, property, &why, err);
            }
        }
        FollowFault::Other {
            object: Some(object),
        } => {
            if let Ok(why) = format!(in alloc; "{fault}: not followed; restart the server") {
                let _ = print_about(alloc, path, object, None, &why, err);
            }
        }
        fault => {
            let _ = writeln!(err, "{path}: {fault}: not followed; restart the server");
        }
    }
}

/// Tells that a document may have more keys than a server follows.
pub(crate) fn print_too_many_keys<E: Write>(path: &str, err: &mut E) {
    // if that fails too, nothing is printed
    let _ = writeln!(
        err,
        "{path}: more than {KEY_LIMIT} \"=\": too many keys to follow"
    );
}

/// Tells why a document, whose octets those are, is not followed now.
fn print_refusal<E: Write>(
    alloc: Global,
    path: &str,
    octets: &[u8],
    refusal: &Refusal,
    err: &mut E,
) {
    match refusal {
        Refusal::TooManyKeys => print_too_many_keys(path, err),
        Refusal::Wrong(fault) if octets.len() > TOLD_WHOLE => {
            // if that fails too, nothing is printed
            let _ = writeln!(err, "{path}: {fault}");
        }
        Refusal::Wrong(fault) => {
            let _ = print_document_fault(alloc, path, octets, fault, err);
        }
        Refusal::Unfit(fault) => print_unfit(alloc, path, *fault, err),
    }
}

/// Why a document cannot be read, behind its path.
pub(crate) fn print_unread_words<E: Write>(at: FollowedPath<'_>, error: &io::Error, err: &mut E) {
    let path = at.path;
    // if that fails, nothing is printed
    let _ = if error.kind() == ErrorKind::FileTooLarge {
        let mebibytes = at.most / MEBIBYTE;
        writeln!(
            err,
            "{path}: larger than {mebibytes} MiB; --follow-limit sets the limit"
        )
    } else {
        writeln!(err, "{path}: {error}")
    };
}

impl<'p, R: Read + Drop> Followed<'p, R> {
    /// The document at a path, whose octets mean that store.
    pub(crate) fn new(
        alloc: Global,
        at: FollowedPath<'p>,
        octets: Vec<u8>,
        store: &Store,
    ) -> Result<Followed<'p, R>, NoMemory> {
        let objects = objects_in(alloc, &octets)?;
        let store = store.copy(alloc)?;
        Ok(Followed {
            alloc,
            at,
            reading: None,
            taking: None,
            octets: Some(octets),
            store,
            objects,
        })
    }

    /// Whether it is being read: then the next look should come soon.
    pub(crate) fn is_reading(&self) -> bool {
        self.reading.is_some() || self.taking.is_some()
    }

    /// Whether the octets are those that were read last.
    fn has_read(&self, octets: &[u8]) -> bool {
        match &self.octets {
            Some(last) => last.as_slice() == octets,
            None => false,
        }
    }

    /// What a document that was read changes. An Err says why the node makes no changes.
    fn news_of(&self, read: Result<ReadDocument, Refusal>) -> Result<News, Taken> {
        match read {
            Ok(read) => news_in(self.alloc, &self.store, &self.objects, read),
            Err(refusal) => Err(taken_by(refusal)),
        }
    }

    /// Notes what the document means, where the node made all changes; otherwise they are left for the next look.
    fn note(&mut self, is_made: bool, news: News) -> Taken {
        if !is_made {
            drop(news);
            return Taken::Later;
        }
        let News {
            store,
            objects,
            changes,
        } = news;
        drop(changes);
        drop(replace(&mut self.store, store));
        drop(replace(&mut self.objects, objects));
        Taken::All
    }

    /// Tells why the document, whose octets those are, is not followed now: in the form of the log.
    fn tell<S: Stretching, E: Write>(
        &self,
        server: &mut S,
        octets: &[u8],
        refusal: &Refusal,
        format: LogFormat,
        err: &mut E,
    )
        ensures same { (S.state server.new).bound_node ≡ (S.state server.old).bound_node }
        ensures sound { S.IsSound server.old → S.IsSound server.new }
        ensures honest { S.IsHonest server.new → S.IsHonest server.old }
    {
        match format {
            LogFormat::Lines => print_refusal(self.alloc, self.at.path, octets, refusal, err),
            LogFormat::Objects { epoch } => {
                let mut text = Vec::new(self.alloc);
                print_refusal(self.alloc, self.at.path, octets, refusal, &mut text);
                let moment = server.now();
                print_fault_objects(self.alloc, FaultTime { moment, epoch }, &text, err);
            }
        }
    }

    /// The node makes the changes of a document that was read, if it follows it. The status says why it cannot serve on.
    fn take<S: Stretching, E: Write>(
        &mut self,
        server: &mut S,
        read: Result<ReadDocument, Refusal>,
        log: &mut LevelLog,
        err: &mut E,
    ) -> Result<Taken, Status>
        ensures changed { OnOk result (IsChanged (S.state server.old).bound_node (S.state server.new).bound_node) }
        ensures sound { OnOk result (S.IsSound server.old → S.IsSound server.new) }
        ensures honest { OnOk result (S.IsHonest server.new → S.IsHonest server.old) }
        ensures failed { IfErr result IsFailure }
    {
        match self.news_of(read) {
            Ok(news) => {
                match server.follow(news.told(), log, err) {
                    Ok(is_made) => Ok(self.note(is_made, news)),
                    Err(status) => {
                        drop(news);
                        Err(status)
                    }
                }
            }
            Err(taken) => Ok(taken),
        }
    }

    /// Takes a document that was read, or tells why not. If memory is refused, it is tried again at the next look.
    fn end<S: Stretching, E: Write>(
        &mut self,
        outcome: Outcome,
        server: &mut S,
        format: LogFormat,
        log: &mut LevelLog,
        err: &mut E,
    ) -> Result<(), Status>
        ensures changed { OnOk result (IsChanged (S.state server.old).bound_node (S.state server.new).bound_node) }
        ensures sound { OnOk result (S.IsSound server.old → S.IsSound server.new) }
        ensures honest { OnOk result (S.IsHonest server.new → S.IsHonest server.old) }
        ensures failed { IfErr result IsFailure }
    {
        let Outcome { octets, read } = outcome;
        match self.take(server, read, log, err)? {
            Taken::All => self.octets = Some(octets),
            Taken::Later => {
                let _ = no_memory(err);
            }
            Taken::Refused(refusal) => {
                self.tell(server, &octets, &refusal, format, err);
                drop(refusal);
                self.octets = Some(octets);
            }
        }
        Ok(())
    }

    /// Tells that the file cannot be read: in the form of the log.
    fn tell_unread<S: Stretching, E: Write>(
        &self,
        server: &mut S,
        error: &io::Error,
        format: LogFormat,
        err: &mut E,
    )
        ensures same { (S.state server.new).bound_node ≡ (S.state server.old).bound_node }
        ensures sound { S.IsSound server.old → S.IsSound server.new }
        ensures honest { S.IsHonest server.new → S.IsHonest server.old }
    {
        match format {
            LogFormat::Lines => {
                // if that fails, nothing is printed
                let _ = err.writeln("cannot read");
                print_unread_words(self.at, error, err);
            }
            LogFormat::Objects { epoch } => {
                let mut text = Vec::new(self.alloc);
                print_unread_words(self.at, error, &mut text);
                let moment = server.now();
                print_fault_objects(self.alloc, FaultTime { moment, epoch }, &text, err);
            }
        }
    }

    /// Tells once that the file cannot be read.
    fn print_unread<S: Stretching, E: Write>(
        &mut self,
        server: &mut S,
        error: &io::Error,
        format: LogFormat,
        err: &mut E,
    )
        ensures same { (S.state server.new).bound_node ≡ (S.state server.old).bound_node }
        ensures sound { S.IsSound server.old → S.IsSound server.new }
        ensures honest { S.IsHonest server.new → S.IsHonest server.old }
    {
        if error.kind() == ErrorKind::OutOfMemory {
            let _ = no_memory(err);
            return;
        }
        if self.octets.take().is_some() {
            self.tell_unread(server, error, format, err);
        }
    }

    /// The file as far as it has been read; where none is open, it is opened.
    fn opened<F: RegularFiles<File = R>>(&mut self, files: &F) -> io::Result<Reading<R>> {
        match self.reading.take() {
            Some(reading) => Ok(reading),
            None => {
                let file = files.open_regular(self.at.path, self.at.most)?;
                Reading::new(self.alloc, file)
            }
        }
    }

    /// Reads the file on by a step. Returns its octets once it has ended; where it cannot be read, it is closed.
    fn read_on<F: RegularFiles<File = R>>(&mut self, files: &F) -> io::Result<Option<Vec<u8>>> {
        let mut reading = self.opened(files)?;
        match reading.read_step(self.at.most) {
            Ok(true) => Ok(Some(reading.into_octets())),
            Ok(false) => {
                drop(self.reading.replace(reading));
                Ok(None)
            }
            Err(error) => {
                drop(reading);
                Err(error)
            }
        }
    }

    /// What the octets of the document mean, if it had others before: those of a short one at once, of others after some steps.
    fn seen_in(&mut self, octets: Vec<u8>) -> Seen {
        if self.has_read(&octets) {
            return Seen::Nothing;
        }
        if octets.len() > AT_ONCE || marks_in(&octets) > KEYS_AT_ONCE {
            drop(self.taking.replace(Taking::new(self.alloc, octets)));
            return Seen::Nothing;
        }
        let read = read_at_once(self.alloc, &octets);
        Seen::Read(Outcome { octets, read })
    }

    /// Reads the objects of a long document on by a step.
    fn take_step(&mut self, taking: Taking) -> Seen {
        match taking.step() {
            Stepped::GoesOn(taking) => {
                drop(self.taking.replace(taking));
                Seen::Nothing
            }
            Stepped::Ended(outcome) => Seen::Read(outcome),
        }
    }

    /// Reads the document on by a step.
    fn see<F: RegularFiles<File = R>>(&mut self, files: &F) -> Seen {
        if let Some(taking) = self.taking.take() {
            return self.take_step(taking);
        }
        match self.read_on(files) {
            Ok(Some(octets)) => self.seen_in(octets),
            Ok(None) => Seen::Nothing,
            Err(error) => Seen::Unread(error),
        }
    }

    /// Reads the document on by a step. Once it is read, and has other octets than before, the node makes its changes; a document that is wrong is told once, and
    /// nothing changes.
    ///
    /// The status says why the node cannot serve on.
    pub(crate) fn look<F: RegularFiles<File = R>, S: Stretching, E: Write>(
        &mut self,
        files: &F,
        server: &mut S,
        format: LogFormat,
        log: &mut LevelLog,
        err: &mut E,
    ) -> Result<(), Status>
        ensures changed { OnOk result (IsChanged (S.state server.old).bound_node (S.state server.new).bound_node) }
        ensures sound { OnOk result (S.IsSound server.old → S.IsSound server.new) }
        ensures honest { OnOk result (S.IsHonest server.new → S.IsHonest server.old) }
        ensures failed { IfErr result IsFailure }
    {
        match self.see(files) {
            Seen::Nothing => Ok(()),
            Seen::Read(outcome) => self.end(outcome, server, format, log, err),
            Seen::Unread(error) => {
                self.print_unread(server, &error, format, err);
                Ok(())
            }
        }
    }
}
