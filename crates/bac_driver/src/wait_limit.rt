//! How long a turn may wait for a datagram, and how many turns a run takes. Programs make one for each kind of run; the fields are the interface.
ghost use Rattle.std.specs.Prelude.{◌≡◌};
ghost use Rattle.bac_driver.specs.Waits.{UNTIL_DUE, wait_until};

/// How long a turn may wait for a datagram. It never waits past the moment at which something is due.
#[derive(Clone, Copy, Debug, PartialEq, Eq)]
pub struct WaitLimit {
    /// At most so many milliseconds; 2^64 - 1 is as long as the link can.
    pub wait: u64,
    /// And not past this moment, in milliseconds, if there is one.
    pub until: Option<u64>,
}

impl WaitLimit {
    /// At most 100 milliseconds.
    pub const BRIEF: WaitLimit = WaitLimit {
        wait: 100,
        until: None,
    };

    /// No wait.
    pub const AT_ONCE: WaitLimit = WaitLimit {
        wait: 0,
        until: None,
    };

    /// Until something is due, however long that is.
    pub fn until_due() -> WaitLimit
        ensures { result ≡ UNTIL_DUE }
    {
        WaitLimit {
            wait: u64::MAX,
            until: None,
        }
    }
}

/// How long a run of turns goes on: at most so many turns, and none that begins at `wait_limit.until` or later.
#[derive(Clone, Copy, Debug, PartialEq, Eq)]
pub struct RunLimit {
    /// How many turns are taken at most.
    pub turns: u64,
    /// How long each of them waits, and from which moment on none begins.
    pub wait_limit: WaitLimit,
}

/// At most so many milliseconds, and not past that moment.
pub(crate) fn wait_until(most: u64, now: u64, moment: Option<u64>) -> u64
    ensures { result ≡ wait_until most now moment }
{
    match moment {
        Some(moment) => moment.saturating_sub(now).min(most),
        None => most,
    }
}
