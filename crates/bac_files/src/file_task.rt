//! What is done with whole files of a peer: which words ask for that, and its status.
ghost use Rattle.std.specs.Prelude.{IfSome, Some};
ghost use Rattle.bac_asking.specs.Given.{IsGiven, IsPeerGiven};
ghost use Rattle.bac_files.specs.WholeFiles.{IsFiled};
ghost use Rattle.bac_npdu.specs.Views.{peer_view};

use crate::backup::{back_up, restore};
use crate::listed_files::ANY_DEVICE;
use crate::named_file::{fetch, send};
use crate::reasons::print_no_whole_file;
use crate::whole_files::{get, put};
use bac_asking::{Asking, asking_of, peer_of, tell_unsent};
use bac_environment::{BACNET_PORT, ClientSockets, Environment, OpenFiles};
use bac_npdu::Peer;
use bac_text::Status;
use bac_value_text::object_in;
use clap::ArgMatches;
use std::io::Write;

/// Which files of a peer a backup saves.
#[derive(Clone, Copy)]
pub enum ChosenFiles<'m, 'a> {
    /// The files that arguments name.
    Named(&'m [&'a str]),
    /// All files in the object-list of the device with this instance.
    Listed(u64),
}

/// What is done with whole files of a peer.
#[derive(Clone, Copy)]
pub enum FileWork<'m, 'a> {
    /// A file is read, and its octets are written to the file at a path, or as they are.
    Fetch {
        object: &'a str,
        path: Option<&'a str>,
    },
    /// The octets of the file at a path are written into a file of the peer, and it is said how many they are.
    Send {
        object: &'a str,
        path: &'a str,
    },
    /// A file is read, and printed as `ask` does or written to the file at a path.
    Get {
        object: &'a str,
        path: Option<&'a str>,
    },
    /// The octets of the file at a path are written into a file of the peer, and how that ended is printed as `ask` does.
    Put {
        object: &'a str,
        path: &'a str,
    },
    /// Files are saved in a folder.
    BackUp {
        chosen: ChosenFiles<'m, 'a>,
        folder: &'a str,
    },
    /// The files of a folder are written back.
    Restore(&'a str),
    /// A file was to be written, but the arguments ask for no whole file.
    Nothing,
}

/// How a peer is asked, and which peer.
#[derive(Clone, Copy)]
pub struct FileTask {
    pub asking: Asking,
    pub peer: Peer,
}

impl FileTask {
    /// The same, but asked from the address of this machine that the peer sees, if the machine tells it.
    pub fn from_source<M: ClientSockets>(self, machine: &M) -> FileTask {
        FileTask {
            asking: self.asking.towards(machine, self.peer),
            peer: self.peer,
        }
    }
}

/// What the words of a request ask for of a whole file: `get T:I`, or `put T:I @FILE`; nothing but the first where a file is named to be written. None where
/// they ask for no whole file.
fn whole_work<'m, 'a>(words: &'m [&'a str], path: Option<&'a str>) -> Option<FileWork<'m, 'a>> {
    match words {
        ["get", object] if object_in(object.as_bytes()).is_some() => Some(FileWork::Get {
            object: *object,
            path,
        }),
        _ if path.is_some() => Some(FileWork::Nothing),
        ["put", object, word] if object_in(object.as_bytes()).is_some() => Some(FileWork::Put {
            object: *object,
            path: word.strip_prefix('@')?,
        }),
        _ => None,
    }
}

/// What the arguments of `ask` ask for of a whole file. None if they ask for none, or for rounds.
pub fn work_of<'m, 'a>(given: &'m ArgMatches<'a>, asking: &Asking) -> Option<FileWork<'m, 'a>> {
    if asking.rounds.is_some() {
        return None;
    }
    whole_work(given.get_strs("WORDS")?, given.get_str("out"))
}

/// How the arguments of `get`, `put`, `backup` or `restore` say that a peer is asked: by default the node on this machine at the port of BACnet/IP. None if an address or the time to
/// wait is invalid.
pub fn file_task_of(given: &ArgMatches<'_>, shows_progress: bool) -> Option<FileTask>
    ensures { IfSome result (λ t. IsGiven given.now t.asking × IsPeerGiven given.now (Some BACNET_PORT) (peer_view t.peer)) }
{
    Some(FileTask {
        asking: asking_of(given, shows_progress)?,
        peer: peer_of(given, Some(BACNET_PORT))?,
    })
}

/// What the arguments of `backup` ask for. None if they name no folder.
fn backup_of<'m, 'a>(given: &'m ArgMatches<'a>) -> Option<FileWork<'m, 'a>> {
    let folder = given.get_str("folder")?;
    let chosen = match given.get_strs("OBJECTS") {
        Some(objects) => ChosenFiles::Named(objects),
        None => ChosenFiles::Listed(given.get_one("device").unwrap_or(ANY_DEVICE)),
    };
    Some(FileWork::BackUp { chosen, folder })
}

/// What the arguments of `get`, `put`, `backup` or `restore` ask for. None if it is another command, or a word is missing.
pub fn file_work_of<'m, 'a>(command: &str, given: &'m ArgMatches<'a>) -> Option<FileWork<'m, 'a>> {
    match command {
        "get" => Some(FileWork::Fetch {
            object: given.get_str("OBJECT")?,
            path: given.get_str("out"),
        }),
        "put" => Some(FileWork::Send {
            object: given.get_str("OBJECT")?,
            path: given.get_str("FILE")?,
        }),
        "backup" => backup_of(given),
        "restore" => Some(FileWork::Restore(given.get_str("folder")?)),
        _ => None,
    }
}

/// The status of what was done, with a fault or without, or of what stopped it.
fn status_of(done: Result<bool, Status>) -> Status {
    match done {
        Ok(true) => Status::Done,
        Ok(false) => Status::Faulty,
        Err(status) => status,
    }
}

/// Reads or writes whole files of a peer. Returns `Faulty` if a file was not read or written as a whole, or differs from what it is compared with.
pub fn do_with_files<F: OpenFiles, M: ClientSockets, O: Write, E: Write>(
    environment: &Environment<'_, F, M>,
    task: &FileTask,
    work: FileWork<'_, '_>,
    out: &mut O,
    err: &mut E,
) -> Status
    ensures { IsFiled result }
{
    let status = match work {
        FileWork::Fetch { object, path } => {
            status_of(fetch(environment, task, object, path, out, err))
        }
        FileWork::Send { object, path } => {
            status_of(send(environment, task, object, path, out, err))
        }
        FileWork::Get { object, path } => {
            status_of(get(environment, task, object, path, out, err))
        }
        FileWork::Put { object, path } => {
            status_of(put(environment, task, object, path, out, err))
        }
        FileWork::BackUp { chosen, folder } => {
            status_of(back_up(environment, task, chosen, folder, out, err))
        }
        FileWork::Restore(folder) => status_of(restore(environment, task, folder, out, err)),
        FileWork::Nothing => print_no_whole_file(err),
    };
    tell_unsent(status, environment.machine, task.peer.link, err);
    status
}
