//! Numbers without a visible order, each made from the one before.

/// The next number of them.
#[derive(Clone, Copy)]
pub(crate) struct Chance {
    state: u64,
}

impl Chance {
    /// Those that begin with a number.
    pub(crate) fn of(seed: u64) -> Chance {
        Chance { state: seed }
    }

    /// The next one, below that limit.
    pub(crate) fn below(&mut self, limit: usize) -> usize {
        self.state = self
            .state
            .wrapping_mul(6_364_136_223_846_793_005)
            .wrapping_add(1_442_695_040_888_963_407);
        let number = (self.state >> 33) as usize;
        number.checked_rem(limit).unwrap_or(0)
    }
}
