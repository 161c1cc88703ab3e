//! What the links and the log of a server ask of the host.

use crate::lasting::Beside;
use crate::since_boot::{SINCE_BOOT, SinceBoot};
use bac_driver::{Clock, MonotonicClock};
use mio::unix::SourceFd;
use mio::{Events, Interest, Poll, Token};
use std::io::Write;
use std::time::Duration;
use std::{io, thread};

/// The descriptor of standard input.
pub(crate) const INPUT: i32 = 0;

/// The descriptor of standard error.
const ERRORS: i32 = 2;

/// The system's numbers of faults that a socket itself has. The first are no descriptor (EBADF), a bad address in memory (EFAULT), and a call that it
/// does not take (EINVAL). Then come no socket (ENOTSOCK), a socket of another kind (EOPNOTSUPP), and one that is not connected (ENOTCONN).
const OF_THE_SOCKET: [i32; 6] = [9, 14, 22, 88, 95, 107];

/// Whether the system says of a descriptor that a call does not wait now: a read or a write. A file, which it has no such word of, never lets a call wait.
pub(crate) fn is_ready(
    runtime: &HostRuntime,
    descriptor: i32,
    interest: Interest,
) -> io::Result<bool> {
    let mut poll = Poll::new(runtime)?;
    let mut source = SourceFd(&descriptor);
    let registered = poll.registry().register(&mut source, Token(0), interest);
    if let Err(error) = registered {
        return match error.kind() {
            // a regular file, which cannot be polled
            io::ErrorKind::PermissionDenied => Ok(true),
            _ => Err(error),
        };
    }
    let mut events = Events::with_capacity(runtime.alloc(), 1)?;
    poll.poll(&mut events, Some(Duration::from_millis(0)))?;
    Ok(!events.is_empty())
}

/// Whether standard error takes 4,096 octets now without a wait. Where the system does not tell, it may not.
pub(crate) fn has_room(runtime: &HostRuntime) -> bool {
    is_ready(runtime, ERRORS, Interest::WRITABLE).unwrap_or(false)
}

/// What a link of the host has beside it.
#[derive(Drop)]
pub struct HostSide<'a> {
    runtime: &'a HostRuntime,
    clock: MonotonicClock<'static, SinceBoot>,
}

impl<'a> HostSide<'a> {
    /// An Err where the clock of the host cannot be read.
    pub(crate) fn new(runtime: &'a HostRuntime) -> io::Result<HostSide<'a>> {
        Ok(HostSide {
            runtime,
            clock: MonotonicClock::new(SINCE_BOOT)?,
        })
    }
}

impl Beside for HostSide<'_> {
    fn now(&mut self) -> u64 {
        self.clock.now()
    }

    fn is_broken(&self) -> bool {
        OF_THE_SOCKET.contains(&os::errno())
    }

    fn rest(&mut self, millis: u64) {
        thread::sleep(self.runtime, Duration::from_millis(millis));
    }

    fn tell(&mut self, faults: u64) -> bool {
        if !has_room(self.runtime) {
            return false;
        }
        let noun = if faults == 1 { "call" } else { "calls" };
        let Ok(line) = format!(in self.runtime.alloc();
            "link: {faults} {noun} to receive failed; it goes on\n"
        ) else {
            return false;
        };
        self.runtime.stderr().write_all(line.as_bytes()).is_ok()
    }
}
