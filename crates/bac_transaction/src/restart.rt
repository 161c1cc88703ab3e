//! How long an end waits after a restart.
ghost use Rattle.std.specs.Prelude.{◌≡◌, nat_lt};
ghost use Rattle.bac_transaction.specs.Ends.{first_after};

/// Whether no more than a time has passed since a restart, both in milliseconds (own rule of this profile); false where there was none.
pub fn is_waiting(restart: Option<u64>, wait: u64, now: u64) -> bool
    ensures { result ≡ nat_lt now (first_after wait restart) }
{
    match restart {
        None => false,
        Some(restart) => now.saturating_sub(restart) <= wait,
    }
}
