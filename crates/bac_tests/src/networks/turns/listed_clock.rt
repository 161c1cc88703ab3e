//! A clock that tells the moments of a list.
ghost use Rattle.std.specs.Prelude.{Some, take};

use bac_driver::Clock;
use std::process::Abort;

/// A clock that tells the moments of a list in their order. It stops the test where none is left.
#[derive(Drop)]
pub(crate) struct ListedClock<'a, R> {
    runtime: &'a R,
    moments: &'static [u64],
    told: usize,
    last: u64,
}

impl<'a, R> ListedClock<'a, R> {
    /// A clock that tells these moments, one after the other.
    pub(crate) fn new(runtime: &'a R, moments: &'static [u64]) -> ListedClock<'a, R> {
        ListedClock {
            runtime,
            moments,
            told: 0,
            last: 0,
        }
    }

    /// How many moments it has told.
    pub(crate) fn told(&self) -> usize {
        self.told
    }
}

impl<R: Abort> Clock for ListedClock<'_, R> {
    ghost told = { λ c. record { last = c.last; all = Some (take c.told c.moments.now) } };

    fn now(&mut self) -> u64 {
        let moments = self.moments;
        let moment = *moments.get(self.told).expect(self.runtime, "a moment");
        self.told += 1;
        self.last = moment;
        moment
    }
}
