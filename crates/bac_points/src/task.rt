//! What the arguments of `read`, `write` and `points` ask for.

use bac_asking::{Asking, asking_of, peer_of};
use bac_commands::{OutputFormat, Style};
use bac_environment::{BACNET_PORT, ClientSockets};
use bac_npdu::Peer;
use bac_service::Priority;
use bac_value::ObjectIdentifier;
use clap::ArgMatches;

/// The instance that stands for a device of any instance (clause 15.5.2).
pub(crate) const ANY_DEVICE: u32 = 4_194_303;

/// The object type device (clause 21).
const DEVICE: u16 = 8;

/// How ends are printed as records: an Error is no success.
const FORMAT: OutputFormat = OutputFormat {
    style: Style::Words,
    strict: true,
};

/// What is written, and how.
#[derive(Clone, Copy)]
pub struct Writing<'m, 'a> {
    /// The object, the property if it is not the present-value, and the value.
    pub words: &'m [&'a str],
    /// The priority. None if none is given.
    pub priority: Option<Priority>,
    /// The name of the value's kind. None if it is that of the value that the property has.
    pub kind: Option<&'a str>,
}

/// Whose objects are listed, and where.
#[derive(Clone, Copy)]
pub struct Listing {
    /// The device.
    pub device: ObjectIdentifier,
    /// Whether a terminal shows the table, whose columns are aligned then.
    pub is_screen: bool,
}

/// What is done with properties of a node.
#[derive(Clone, Copy)]
pub enum PointWork<'m, 'a> {
    /// The values of the properties that words name are printed.
    Read(&'m [&'a str]),
    /// A property gets a value.
    Write(Writing<'m, 'a>),
    /// The objects of a device are printed.
    List(Listing),
}

/// How a node is asked, which node, and what for.
#[derive(Clone, Copy)]
pub struct PointTask<'m, 'a> {
    pub asking: Asking,
    pub peer: Peer,
    pub work: PointWork<'m, 'a>,
}

impl<'m, 'a> PointTask<'m, 'a> {
    /// The same, but what it prints is shown on a terminal, or is not.
    pub fn shown_on(self, is_screen: bool) -> PointTask<'m, 'a> {
        let work = match self.work {
            PointWork::List(listing) => PointWork::List(Listing {
                device: listing.device,
                is_screen,
            }),
            work => work,
        };
        PointTask {
            asking: self.asking,
            peer: self.peer,
            work,
        }
    }

    /// The same, but asked from the address of this machine that the peer sees, if the machine tells it.
    pub fn from_source<M: ClientSockets>(self, machine: &M) -> PointTask<'m, 'a> {
        PointTask {
            asking: self.asking.towards(machine, self.peer),
            peer: self.peer,
            work: self.work,
        }
    }
}

/// The priority of a write, where one is given. None where it is none.
fn priority_in(given: &ArgMatches<'_>) -> Option<Option<Priority>> {
    match given.get_one::<u64>("priority") {
        Some(number) => Some(Some(Priority::new(u8::try_from(number).ok()?)?)),
        None => Some(None),
    }
}

/// How a node is asked. None if the time to wait is invalid.
fn asking_in(given: &ArgMatches<'_>) -> Option<Asking> {
    let asking = asking_of(given, false)?;
    Some(Asking {
        output_format: FORMAT,
        ..asking
    })
}

/// The device that is given by its instance, or a device of any instance. None if there is no such instance.
fn device_in(given: &ArgMatches<'_>) -> Option<ObjectIdentifier> {
    let instance = match given.get_one::<u64>("device") {
        Some(instance) => u32::try_from(instance).ok()?,
        None => ANY_DEVICE,
    };
    ObjectIdentifier::new(DEVICE, instance)
}

/// What that command does, by its arguments. None if there is no such command, or its words are missing or bad.
fn work_of<'m, 'a>(command: &str, given: &'m ArgMatches<'a>) -> Option<PointWork<'m, 'a>> {
    if command == "read" {
        return Some(PointWork::Read(given.get_strs("OBJECT")?));
    }
    if command == "write" {
        let words = given.get_strs("OBJECT")?;
        let priority = priority_in(given)?;
        let kind = given.get_str("kind");
        return Some(PointWork::Write(Writing {
            words,
            priority,
            kind,
        }));
    }
    if command != "points" {
        return None;
    }
    let device = device_in(given)?;
    Some(PointWork::List(Listing {
        device,
        is_screen: false,
    }))
}

/// What the arguments of that command ask for. None if there is no such command, its words are missing, or an address or the time to wait is invalid.
pub fn point_task_of<'m, 'a>(
    command: &str,
    given: &'m ArgMatches<'a>,
) -> Option<PointTask<'m, 'a>> {
    let peer = peer_of(given, Some(BACNET_PORT))?;
    let work = work_of(command, given)?;
    let asking = asking_in(given)?;
    Some(PointTask { asking, peer, work })
}
