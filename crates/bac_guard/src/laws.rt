//! Laws of buckets and of tables of them: empty functions whose contracts are the laws.
ghost use Rattle.std.specs.Prelude.{ℕ, List};
ghost use Rattle.bac_guard.specs.Buckets.{Event, IsBounded};
ghost use Rattle.bac_guard.specs.Budgets.{IsHostBounded, Traffic};

/// What is sent through a bucket is bounded. It is no more than a full one has, three times what came, and what the rate gives in the time that went
/// by.
pub fn what_is_sent_is_bounded()
    ensures { (rate began : ℕ) (events : List Event) → IsBounded rate began events }
{}

/// What an address is sent is bounded so, whatever else comes and goes: what came counts where it came from an address of the same bucket.
pub fn what_an_address_is_sent_is_bounded()
    ensures { (key rate began host : ℕ) (all : List Traffic) → IsHostBounded key rate began host all }
{}
