//! Machines in memory: links behind which a house answers, or others do, and clocks that go on, stand or go back.
ghost use Rattle.std.specs.Prelude.{◌≡◌, ◌≤◌, length, is_ok, if◌then◌else◌, None, ⊤};
ghost use Rattle.bac_driver.specs.Calls.{one_more};

use crate::behind::Behind;
use crate::databases::database_at;
use crate::files::copy_front;
use crate::scene::{BenchClock, Scene, Setup, host_of};
use bac_driver::{Link, LinkFault};
use bac_environment::{ClientSockets, NoPair, Sockets, StandardError, StandardInput};
use bac_guard::{Guard, Guarded};
use bac_keep::KeepFault;
use bac_keep_file::{Checkpoint, Databases, Loss, OpenFault};
use bac_pairs::ClientPair;
use bac_system::Machine;
use sqlite_trees::memory::MemStore;
use std::alloc::Global;
use std::cell::Cell;
use std::io;

/// Who sent the requests that wait.
const CLIENT: [u8; 6] = [127, 0, 0, 1, 0xBA, 0xC1];

/// A read of the present-value of analog-input 5, with this invoke ID.
fn request(invoke_id: u8) -> [u8; 17] {
    [
        0x81, 0x0A, 0, 17, 1, 4, 0, 5, invoke_id, 12, 0x0C, 0, 0, 0, 5, 0x19, 85,
    ]
}

/// A datagram that waits: who sent it, and its octets.
type Waiting = ([u8; 6], Vec<u8>);

/// A link with that behind it.
#[derive(Drop)]
pub(crate) struct BenchLink<'a> {
    alloc: Global,
    behind: Behind<'a>,
    /// How many requests still wait.
    requests: u8,
    /// How many datagrams came.
    came: usize,
    /// How many were sent.
    sent: usize,
    /// The answers that wait: where the houses answer backwards all of them, otherwise the one to what was sent last.
    answers: Vec<Waiting>,
    failures: u64,
}

impl BenchLink<'_> {
    /// An answer waits. Out of memory is a failure.
    fn keep(&mut self, from: [u8; 6], answer: Vec<u8>) -> Result<(), LinkFault>
        ensures { self.new.failures ≡ (if is_ok result then self.old.failures else one_more self.old.failures) }
    {
        if !self.behind.keeps_all() {
            self.answers.clear();
        }
        match self.answers.push((from, answer)) {
            Ok(()) => Ok(()),
            Err(_) => Err(self.failed()),
        }
    }

    fn failed(&mut self) -> LinkFault
        ensures { self.new.failures ≡ one_more self.old.failures }
    {
        self.failures = self.failures.saturating_add(1);
        LinkFault
    }
}

fn hand_over(waiting: Waiting, buffer: &mut [u8]) -> ([u8; 6], usize)
    ensures { result.1 ≤ length buffer.new }
{
    let len = copy_front(&waiting.1, buffer);
    (waiting.0, len)
}

impl Link for BenchLink<'_> {
    ghost failures = { λ l. l.failures };

    ghost calls = { λ _. None };

    fn failures(&self) -> u64 {
        self.failures
    }

    fn send(&mut self, to: [u8; 6], octets: &[u8]) -> Result<(), LinkFault> {
        if matches!(self.behind, Behind::Unsent(_)) {
            return Err(self.failed());
        }
        let number = self.sent;
        self.sent = number.saturating_add(1);
        match self.behind.answer(self.alloc, to, octets, number) {
            Some(answer) => self.keep(to, answer),
            None => Ok(()),
        }
    }

    fn recv(
        &mut self,
        buffer: &mut [u8],
        _wait: u64,
    ) -> Result<Option<([u8; 6], usize)>, LinkFault> {
        if self.requests > 0 {
            self.requests -= 1;
            let len = copy_front(&request(self.requests), buffer);
            return Ok(Some((CLIENT, len)));
        }
        if let Some(datagram) = self.behind.datagram(self.alloc, self.came) {
            self.came = self.came.saturating_add(1);
            return Ok(Some(hand_over(datagram, buffer)));
        }
        match self.answers.pop() {
            Some(waiting) => Ok(Some(hand_over(waiting, buffer))),
            None if matches!(self.behind, Behind::Deaf) => Err(self.failed()),
            None => Ok(None),
        }
    }
}

/// An IPv4 address and a port.
pub(crate) type Bound = ([u8; 4], u16);

/// 2026-11-27, 7:10 in UTC, in milliseconds since 1970 began.
const MORNING: u64 = 1_795_763_400_000;

/// The key of each guard.
const KEY: u64 = 7;

/// The first port at which clients begin, of machines of which some are taken.
const FIRST: u16 = 40_000;

/// A machine of a scene. Its first free port is 50,001.
#[derive(Drop)]
pub(crate) struct BenchMachine<'a> {
    alloc: Global,
    setup: Setup<'a>,
    scene: Scene<'a>,
    last_free: Cell<u16>,
    /// The port of the next client, where some are taken.
    next: Cell<u16>,
    /// The time of day of the next look.
    time: Cell<u64>,
    /// How often it was asked whether standard error has room.
    asked: Cell<u64>,
    /// Where its last link is bound.
    pub bound: Cell<Option<Bound>>,
}

impl<'a> BenchMachine<'a> {
    /// The machine of a scene, before any call.
    pub(crate) fn new(alloc: Global, setup: Setup<'a>, scene: Scene<'a>) -> BenchMachine<'a> {
        BenchMachine {
            alloc,
            setup,
            scene,
            last_free: Cell::new(50_000),
            next: Cell::new(FIRST),
            time: Cell::new(MORNING),
            asked: Cell::new(0),
            bound: Cell::new(None),
        }
    }

    /// The port that a link gets which asks for one: that one, or for 0 the next free one.
    fn port(&self, port: u16) -> u16 {
        if port == 0 {
            self.last_free.set(self.last_free.get().saturating_add(1));
            self.last_free.get()
        } else {
            port
        }
    }

    /// Whether the system refuses the next link, at that port.
    fn has_no_link(&self, port: u16) -> bool {
        let behind = self.scene.behind;
        let taken = match self.scene.taken {
            Some(taken) => FIRST.saturating_add(taken),
            None => 0,
        };
        matches!(behind, Behind::Nothing)
            || (behind.has_one_link() && self.last_free.get() > 50_000)
            || port < taken
    }

    /// What the scene says by `way` of the host of a link: the address from which the machine sends there, or that it tells none. None where it says nothing.
    fn way_to(&self, link: [u8; 6]) -> Option<Option<[u8; 4]>> {
        let [a, b, c, d, _, _] = link;
        let host = format!(in self.alloc; "{a}.{b}.{c}.{d}").ok()?;
        let heading = self.setup.named("way", host.as_str(), 0)?;
        Some(host_of(heading.words))
    }

    /// The clock of a guard: that of the scene, or where it has none, one that stands.
    fn guard_clock(&self) -> BenchClock {
        match self.scene.clock {
            Some(clock) => clock,
            None => BenchClock::still(),
        }
    }

    fn link(&self) -> BenchLink<'a> {
        let requests = match self.scene.behind {
            Behind::Requests(count) => count,
            _ => 0,
        };
        BenchLink {
            alloc: self.alloc,
            behind: self.scene.behind,
            requests,
            came: 0,
            sent: 0,
            answers: Vec::new(self.alloc),
            failures: 0,
        }
    }
}

impl<'a> Sockets for BenchMachine<'a> {
    type Link = Guarded<BenchLink<'a>, BenchClock>;

    type Timer = BenchClock;

    ghost is_bound = { λ _ _ _ _. ⊤ };

    ghost is_made = { λ _. ⊤ };

    fn bind(&self, host: [u8; 4], port: u16, guard: &Guard) -> io::Result<(Self::Link, [u8; 6])> {
        if self.has_no_link(port) {
            return Err(io::Error::from(io::ErrorKind::AddrInUse));
        }
        let port = self.port(port);
        self.bound.set(Some((host, port)));
        let [high, low] = port.to_be_bytes();
        let [a, b, c, d] = host;
        let address = [a, b, c, d, high, low];
        let began = self.guard_clock().moment;
        match guard.over(self.alloc, KEY, began, self.link(), self.guard_clock()) {
            Ok(link) => Ok((link, address)),
            Err(_) => Err(io::Error::from(io::ErrorKind::OutOfMemory)),
        }
    }

    fn timer(&self) -> Option<BenchClock> {
        self.scene.clock
    }

    /// The time of day of the scene; None where there is no clock.
    fn time_of_day(&self) -> Option<u64> {
        // a machine without a clock tells no time of day
        let _clock = self.scene.clock?;
        let time = self.time.get();
        self.time.set(time.saturating_add(self.scene.day));
        Some(time)
    }
}

impl ClientSockets for BenchMachine<'_> {
    /// Any free port, and the moment at which the clock begins, up to 255; where there is no clock, 0. Where ports are taken, one after the other, and 7.
    fn pair(&self) -> Result<ClientPair, NoPair> {
        if self.scene.taken.is_some() {
            let port = self.next.get();
            self.next.set(port.saturating_add(1));
            return Ok(ClientPair { port, first_id: 7 });
        }
        let first_id = match self.scene.clock {
            Some(clock) => clock.moment.to_le_bytes()[0],
            None => 0,
        };
        Ok(ClientPair { port: 0, first_id })
    }

    /// It is over at once.
    fn outlast(&self, _pair: ClientPair) -> bool {
        true
    }

    fn source_towards(&self, link: [u8; 6]) -> Option<[u8; 4]> {
        match self.way_to(link) {
            Some(source) => source,
            None => self.scene.source,
        }
    }

    /// Where nothing can be sent, no link can be reached.
    fn refusal_towards(&self, _link: [u8; 6]) -> Option<io::Error> {
        match self.scene.behind {
            Behind::Unsent(_) => Some(io::Error::from(io::ErrorKind::NetworkUnreachable)),
            _ => None,
        }
    }
}

impl Databases for BenchMachine<'_> {
    type Database = MemStore;

    ghost is_database = { λ _ _ _. ⊤ };

    fn open_database(&self, path: &str, loss: Loss) -> Result<(MemStore, bool), OpenFault> {
        database_at(self.alloc, self.setup, path, loss)
    }

    fn close_database(&self, database: &mut MemStore) -> Result<(), KeepFault> {
        database.make_whole()
    }
}

impl StandardInput for BenchMachine<'_> {
    /// From the first look on.
    fn has_input_ended(&self) -> bool {
        true
    }
}

impl StandardError for BenchMachine<'_> {
    /// Whether there is room: the scene says so by how often it was asked.
    fn has_room(&self) -> bool {
        let asked = self.asked.get();
        self.asked.set(asked.saturating_add(1));
        match self.scene.full {
            Some((from, to)) => asked < from || to <= asked,
            None => true,
        }
    }
}

impl Machine for BenchMachine<'_> {
    fn shows_progress(&self) -> bool {
        self.scene.is_terminal
    }

    fn is_screen(&self) -> bool {
        self.scene.is_screen
    }

    fn built(&self) -> Option<String> {
        let heading = self.setup.line("built")?;
        String::from_str(self.alloc, heading.words).ok()
    }
}
