//! Clocks: where the moments of a bound node come from. Programs bring one or use [`MonotonicClock`]; tests bring their own.
ghost use Rattle.std.specs.Prelude.{◌≡◌, ◌≤◌, IfOk};
ghost use Rattle.std.specs.Duration.{as_nanos};
ghost use Rattle.bac_driver.specs.Moments.{Told, with_moment};
ghost use Rattle.bac_driver.specs.Clocks.{latest_told, made_at, read_at, told_by, whole_millis};

use std::io;
use std::time::{Duration, Instant};

/// Gives the moments of a bound node. A clock may go back: then a turn fails with `ClockBack`.
pub trait Clock {
    ghost told: { Self → Told };

    /// The moment, in milliseconds from any beginning.
    fn now(&mut self) -> u64
        ensures tells { Self.told self.new ≡ with_moment (Self.told self.old) result };
}

/// The milliseconds since it was made, by the machine's monotonic clock. Where that can't be read, or went back, the latest moment that it gave.
#[derive(Drop)]
pub struct MonotonicClock<'a, R> {
    runtime: &'a R,
    /// What the machine's clock read when it was made.
    start: Instant,
    /// The latest that it read since.
    latest: Instant,
}

/// The whole milliseconds of a time, at most 2^64 - 1.
fn whole_millis(time: Duration) -> u64
    ensures { result ≡ whole_millis (as_nanos time) }
{
    match u64::try_from(time.as_millis()) {
        Ok(millis) => millis,
        Err(_) => u64::MAX,
    }
}

impl<'a, R: std::time::Clock> MonotonicClock<'a, R> {
    /// A clock that begins at 0; an Err where the machine's clock can't be read.
    #[tactic(auto, using(crate::proofs::Clocks::starts_at_zero))]
    pub fn new(runtime: &'a R) -> io::Result<MonotonicClock<'a, R>>
        ensures { IfOk result (λ c. latest_told c ≡ 0) }
    {
        let start = Instant::now(runtime)?;
        Ok(MonotonicClock {
            runtime,
            start,
            latest: start,
        })
    }
}

impl<'a, R: std::time::Clock> Clock for MonotonicClock<'a, R> {
    ghost told = { told_by };

    #[tactic(auto, using(crate::proofs::Clocks::goes_on))]
    fn now(&mut self) -> u64
        ensures tells { told_by self.new ≡ with_moment (told_by self.old) result }
        ensures latest { latest_told self.new ≡ result }
        ensures onward { latest_told self.old ≤ result }
        ensures made { made_at self.new ≡ made_at self.old }
        ensures read { read_at self.old ≤ read_at self.new }
    {
        if let Ok(now) = Instant::now(self.runtime) {
            // never back, whatever the machine's clock does
            if now.checked_duration_since(self.latest).is_some() {
                self.latest = now;
            }
        }
        whole_millis(self.latest.duration_since(self.start))
    }
}
