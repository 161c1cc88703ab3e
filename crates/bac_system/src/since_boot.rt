//! How long ago the machine started, sleep included.

use libc::types::timespec;
use std::io;
use std::io::ErrorKind;
use std::time::{Clock, Duration};

/// Linux's clock that goes on while the machine sleeps. CLOCK_MONOTONIC, which std reads, stands still meanwhile.
const CLOCK_BOOTTIME: i32 = 7;

/// What a clock of the system reads; None where the system has no such clock.
fn read(clock: i32) -> Option<Duration> {
    let mut time = timespec {
        tv_sec: 0,
        tv_nsec: 0,
    };
    if libc::clock_gettime(clock, &mut time) != 0 {
        return None;
    }
    let seconds = u64::try_from(time.tv_sec).ok()?;
    let nanos = u64::try_from(time.tv_nsec).ok()?;
    Duration::from_secs(seconds).checked_add(Duration::from_nanos(nanos))
}

/// A clock whose monotonic time goes on while the machine sleeps: a node of a host that slept is late then, and its clock is not slow. It has no other time.
#[derive(Clone, Copy)]
pub struct SinceBoot;

/// The one that clocks are made of.
pub(crate) const SINCE_BOOT: &SinceBoot = &SinceBoot;

impl Clock for SinceBoot {
    fn monotonic(&self) -> io::Result<Duration> {
        read(CLOCK_BOOTTIME).ok_or(io::Error::from(ErrorKind::Unsupported))
    }

    fn since_1970(&self) -> io::Result<Duration> {
        Err(io::Error::from(ErrorKind::Unsupported))
    }
}
