//! What is known of the ages of the slots of a table.
ghost use Rattle.std.specs.Prelude.{◌≡◌, ◌&&◌, ◌≤◌, min, nat_eq, nat_le, nat_lt, Some, MatchOption, None};
ghost use Rattle.bac_slots.specs.Ages.{later_of};

/// What is known of the ages of the slots of a table, kept next to the table.
#[derive(Clone, Copy, Debug)]
pub struct Ages {
    /// A tick at or after this moment
    pub from: u64,
    /// and before this one has nothing to do.
    pub due: u64,
    /// The latest moment at which a value was added, as long as moments never went back: then slots are in the order in which they began.
    pub latest: Option<u64>,
}

impl Ages {
    /// Whether a tick at this moment has nothing to do.
    pub fn is_quiet(&self, now: u64) -> bool
        ensures { result ≡ (nat_le self.now.from now && nat_lt now self.now.due) }
    {
        self.from <= now && now < self.due
    }

    /// Whether no tick at or after this moment has anything to do, except one at the greatest moment.
    pub fn is_quiet_from(&self, now: u64) -> bool
        ensures { result ≡ (nat_le self.now.from now && nat_eq self.now.due 18446744073709551615) }
    {
        self.from <= now && self.due == u64::MAX
    }

    /// Records that a value is due at this moment, and not before.
    pub fn comes_due(&mut self, due: u64)
        ensures { self.new ≡ record self.old { due = min self.old.due due } }
    {
        self.due = self.due.min(due);
    }

    /// Records that a value was added at this moment. As long as moments never go back, the latest one stays known.
    pub(crate) fn comes(&mut self, now: u64)
        ensures latest { self.new ≡ record self.old { latest = later_of self.old.latest now } }
        ensures known { MatchOption self.old.latest (self.new.latest ≡ None) (λ l. l ≤ now → self.new.latest ≡ Some now) }
    {
        self.latest = match self.latest {
            Some(latest) if latest <= now => Some(now),
            _ => None,
        };
    }
}
