//! Numbers that follow one from the other, without an order that can be seen.

/// The next number of them.
#[derive(Clone, Copy)]
pub(super) struct Chance {
    state: u64,
}

impl Chance {
    /// Those that begin with a number.
    pub(super) fn of(seed: u64) -> Chance {
        Chance { state: seed }
    }

    /// The next one, below that limit.
    pub(super) fn below(&mut self, limit: usize) -> usize {
        self.state = self
            .state
            .wrapping_mul(6_364_136_223_846_793_005)
            .wrapping_add(1_442_695_040_888_963_407);
        let number = (self.state >> 33) as usize;
        number.checked_rem(limit).unwrap_or(0)
    }
}
