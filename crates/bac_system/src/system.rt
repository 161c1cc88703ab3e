//! The files, sockets and clock of a system.
ghost use Rattle.std.specs.Prelude.{◌≡◌, ⊤, true, IfOk};
ghost use Rattle.bac_driver.specs.Clocks.{latest_told};
ghost use Rattle.bac_driver.specs.Udp.{bound_host, bound_port, udp_address};
ghost use Rattle.bac_guard.specs.Guards.{IsGuardedBy, link_below};
ghost use Rattle.bac_keep_file.specs.Made.{HasEmptyTable};
ghost use Rattle.sqlite_store.specs.FileStore.{view};
ghost use Rattle.sqlite_trees.specs.View.{IsClean};

use crate::built::built_beside;
use crate::client_key::key_of_host;
use crate::host_side::{HostSide, INPUT, has_room, is_ready};
use crate::lasting::Lasting;
use crate::machine::Machine;
use crate::replacing::{make_private, put_out, remove_empty, rename, replace};
use crate::since_boot::{SINCE_BOOT, SinceBoot};
use bac_driver::{MonotonicClock, UdpLink};
use bac_environment::{
    ClientSockets, NoPair, OpenFiles, RegularFiles, Sockets, StandardError, StandardInput,
};
use bac_guard::{Guard, Guarded};
use bac_keep::KeepFault;
use bac_keep_file::{Checkpoint, Databases, KeptFile, Loss, OpenFault};
use bac_npdu::LinkAddress;
use bac_pairs::{ClientPair, PairKey, left_at, pair_at};
use mio::Interest;
use std::cell::Cell;
use std::fs::{File, Metadata, OpenOptions};
use std::io::{ErrorKind, Read};
use std::net::{Ipv4Addr, Net, SocketAddr, UdpSocket};
use std::random::RandomSource;
use std::time::{Duration, SystemTime, UNIX_EPOCH};
use std::{fs, io, thread};

/// The file that is standard input, which `-` stands for.
const STANDARD_INPUT: &str = "/dev/stdin";

/// The system's number for a file that is a directory (EISDIR).
const IS_A_DIRECTORY: i32 = 21;

/// How often standard input is read at one look.
const READS: usize = 64;

/// How often a client rests at the most until the share of its port is over. Each rest is as long as the share goes on by the time of day, which may be corrected
/// meanwhile.
const MOST_RESTS: u32 = 100;

/// The first moment of a monotonic clock.
const CLOCK_START: u64 = 0;

/// What a runtime has: the files, sockets and clock that command lines run on.
#[derive(Drop)]
pub struct System<'a, R> {
    runtime: &'a R,
    shows_progress: bool,
    is_screen: bool,
    /// The key of this host, once it was read.
    key: Cell<Option<PairKey>>,
}

impl<'a, R> System<'a, R> {
    /// The system of a runtime, whose standard error shows the progress of asks where it is a terminal, and whose standard output is one or is not.
    pub fn new(runtime: &'a R, shows_progress: bool, is_screen: bool) -> System<'a, R> {
        System {
            runtime,
            shows_progress,
            is_screen,
            key: Cell::new(None),
        }
    }
}

impl System<'_, HostRuntime> {
    /// How long ago 1970 began in UTC; None where the time of day can't be read.
    fn since_epoch(&self) -> Option<Duration> {
        let now = SystemTime::now(self.runtime).ok()?;
        now.duration_since(UNIX_EPOCH).ok()
    }

    /// How long ago 1970 began in UTC, in microseconds; None where the time of day can't be read.
    fn moment(&self) -> Option<u64> {
        u64::try_from(self.since_epoch()?.as_micros()).ok()
    }

    /// The key of this host.
    fn key(&self) -> Result<PairKey, NoPair> {
        if let Some(key) = self.key.get() {
            return Ok(key);
        }
        match key_of_host(self.runtime) {
            Ok(key) => {
                self.key.set(Some(key));
                Ok(key)
            }
            Err(_) => Err(NoPair::NoKey),
        }
    }

    /// A socket that is connected to a link, and has sent nothing.
    fn connected(&self, link: LinkAddress) -> io::Result<UdpSocket> {
        let [a, b, c, d, high, low] = link;
        let port = u16::from_be_bytes([high, low]);
        let any = SocketAddr::from((Ipv4Addr::UNSPECIFIED, 0));
        let socket = UdpSocket::bind(self.runtime, any)?;
        socket.connect(SocketAddr::from((Ipv4Addr::new(a, b, c, d), port)))?;
        Ok(socket)
    }
}

/// A number that others do not know: the system's randomness. With it they cannot choose addresses that share a bucket.
fn random_key<R: RandomSource>(source: &R) -> io::Result<u64> {
    let mut octets = [0; 8];
    source.fill_bytes(&mut octets)?;
    Ok(u64::from_le_bytes(octets))
}

/// Whether standard input has ended. What is there is read, up to 256 KiB, and forgotten.
fn is_at_end(runtime: &HostRuntime) -> io::Result<bool> {
    let mut buffer = [0; 4096];
    for _ in 0..READS {
        if !is_ready(runtime, INPUT, Interest::READABLE)? {
            return Ok(false);
        }
        match runtime.stdin().read(&mut buffer) {
            Ok(0) => return Ok(true),
            Ok(_) => {}
            Err(error) if error.kind() == ErrorKind::Interrupted => {}
            Err(error) if error.kind() == ErrorKind::WouldBlock => return Ok(false),
            Err(error) => return Err(error),
        }
    }
    Ok(false)
}

/// Refuses what is no regular file, or has more than so many octets.
fn refuse_irregular(found: &Metadata, most: u64) -> io::Result<()> {
    if !found.is_file() {
        return Err(io::Error::new(ErrorKind::InvalidInput, "not a regular file"));
    }
    if found.len() > most {
        return Err(io::Error::from(ErrorKind::FileTooLarge));
    }
    Ok(())
}

impl OpenFiles for System<'_, HostRuntime> {
    type File = File;

    ghost is_file = { λ _ _. ⊤ };

    fn open(&self, path: &str) -> io::Result<File> {
        let path = if path == "-" { STANDARD_INPUT } else { path };
        let file = fs::open(self.runtime, path)?;
        // it opens, and a read of it would fail, behind a text without its name
        if file.metadata()?.is_dir() {
            return Err(io::Error::from_raw_os_error(IS_A_DIRECTORY));
        }
        Ok(file)
    }

    fn write(&self, path: &str, octets: &[u8]) -> io::Result<()> {
        replace(self.runtime, path, octets)
    }

    fn write_out(&self, path: &str, octets: &[u8]) -> io::Result<()> {
        put_out(self.runtime, path, octets)
    }

    fn rename(&self, from: &str, to: &str) -> io::Result<()> {
        rename(self.runtime, from, to)
    }

    fn make_folder(&self, path: &str) -> io::Result<()> {
        fs::create_dir_all(self.runtime, path)
    }
}

impl RegularFiles for System<'_, HostRuntime> {
    /// It is looked at before it is opened, and again once it is open: to open a pipe would wait.
    fn open_regular(&self, path: &str, most: u64) -> io::Result<File> {
        refuse_irregular(&fs::metadata(self.runtime, path)?, most)?;
        let file = fs::open(self.runtime, path)?;
        refuse_irregular(&file.metadata()?, most)?;
        Ok(file)
    }
}

impl<'a> Sockets for System<'a, HostRuntime> {
    type Link = Guarded<Lasting<UdpLink, HostSide<'a>>, MonotonicClock<'static, SinceBoot>>;

    type Timer = MonotonicClock<'static, SinceBoot>;

    ghost is_bound = { λ host port l address. (bound_host (link_below l).link ≡ host) × (bound_port (link_below l).link ≡ port) × (udp_address (link_below l).link ≡ address) };

    ghost is_made = { λ c. latest_told c ≡ 0 };

    fn bind(&self, host: [u8; 4], port: u16, guard: &Guard) -> io::Result<(Self::Link, LinkAddress)>
        ensures bound { IfOk result (λ b. (bound_host (link_below b.0).link ≡ host) × (bound_port (link_below b.0).link ≡ port) × (udp_address (link_below b.0).link ≡ b.1)) }
        ensures guarded { IfOk result (λ b. IsGuardedBy 0 guard.now b.0) }
    {
        let key = random_key(self.runtime)?;
        let clock = MonotonicClock::new(SINCE_BOOT)?;
        let beside = HostSide::new(self.runtime)?;
        let link = UdpLink::bind_at(self.runtime, host, port)?;
        let address = link.address();
        let link = Lasting::new(link, beside);
        match guard.over(self.runtime.alloc(), key, CLOCK_START, link, clock) {
            Ok(guarded) => Ok((guarded, address)),
            Err(_) => Err(io::Error::from(ErrorKind::OutOfMemory)),
        }
    }

    fn timer(&self) -> Option<MonotonicClock<'static, SinceBoot>> {
        MonotonicClock::new(SINCE_BOOT).ok()
    }

    fn time_of_day(&self) -> Option<u64> {
        u64::try_from(self.since_epoch()?.as_millis()).ok()
    }
}

impl ClientSockets for System<'_, HostRuntime> {
    /// The pair of a client that begins now, by the time of day and the key of this host.
    fn pair(&self) -> Result<ClientPair, NoPair> {
        let key = self.key()?;
        match self.moment() {
            Some(moment) => Ok(pair_at(&key, moment)),
            None => Err(NoPair::NoClock),
        }
    }

    fn outlast(&self, pair: ClientPair) -> bool {
        let Ok(key) = self.key() else {
            return false;
        };
        let mut is_held = false;
        for _ in 0..MOST_RESTS {
            let Some(moment) = self.moment() else {
                return false;
            };
            if pair_at(&key, moment) != pair {
                return is_held;
            }
            is_held = true;
            thread::sleep(self.runtime, Duration::from_micros(left_at(moment)));
        }
        false
    }

    /// The address of a socket that is connected to the link, and sends nothing.
    fn source_towards(&self, link: LinkAddress) -> Option<[u8; 4]> {
        let socket = self.connected(link).ok()?;
        match socket.local_addr().ok()? {
            SocketAddr::V4(address) => Some(address.ip().octets()),
            SocketAddr::V6(_) => None,
        }
    }

    /// The fault of a socket that is to be connected to the link, and sends nothing.
    fn refusal_towards(&self, link: LinkAddress) -> Option<io::Error> {
        match self.connected(link) {
            Ok(_) => None,
            Err(error) => Some(error),
        }
    }
}

impl Databases for System<'_, HostRuntime> {
    type Database = KeptFile;

    ghost is_database = { λ _ is_new d. is_new ≡ true → IsClean (view d) → HasEmptyTable (view d) };

    /// A file that is made is its owner's alone, and its log too.
    fn open_database(&self, path: &str, loss: Loss) -> Result<(KeptFile, bool), OpenFault> {
        let is_made = make_private(self.runtime, path);
        match bac_keep_file::open(self.runtime, path, loss) {
            Ok(opened) => Ok(opened),
            Err(fault) => {
                if is_made {
                    remove_empty(self.runtime, path);
                }
                Err(fault)
            }
        }
    }

    fn close_database(&self, database: &mut KeptFile) -> Result<(), KeepFault> {
        database.make_whole()
    }

    /// The fault of opening it for reading and writing.
    fn refusal_of_database(&self, path: &str) -> Option<io::Error> {
        let opened = OpenOptions::new()
            .read(true)
            .write(true)
            .create(true)
            .open(self.runtime, path);
        match opened {
            Ok(_) => None,
            Err(error) => Some(error),
        }
    }
}

impl StandardInput for System<'_, HostRuntime> {
    fn has_input_ended(&self) -> bool {
        is_at_end(self.runtime).unwrap_or(true)
    }
}

impl StandardError for System<'_, HostRuntime> {
    fn has_room(&self) -> bool {
        has_room(self.runtime)
    }
}

impl Machine for System<'_, HostRuntime> {
    fn shows_progress(&self) -> bool {
        self.shows_progress
    }

    fn is_screen(&self) -> bool {
        self.is_screen
    }

    fn built(&self) -> Option<String> {
        built_beside(self.runtime)
    }
}
