//! One bucket: how much may still be sent to the addresses that share it. `budget` keeps the buckets; all here is private to the crate.
ghost use Rattle.std.specs.Prelude.{◌≡◌};
ghost use Rattle.bac_guard.specs.Buckets.{credited, filled, fits, fresh, full, spent};

/// How much a full bucket has at the least, in thousandths of an octet: 256 KiB.
const LEAST: u64 = 262_144_000;

/// How many milliseconds of its rate a full bucket has at the least: after so long a transfer that stopped goes on.
const FILLING: u64 = 2_000;

/// Thousandths of an octet in an octet.
const EACH: u64 = 1_000;

/// How many thousandths each octet gives that came from an address: three octets may be sent for it.
const CREDIT: u64 = 3_000;

/// How much a full bucket has, in thousandths of an octet.
fn full(rate: u64) -> u64
    ensures { result ≡ full rate }
{
    LEAST.max(rate.saturating_mul(FILLING))
}

/// How much may be sent to the addresses of one bucket.
#[derive(Clone, Copy, Debug)]
pub(crate) struct Bucket {
    /// What may still be sent, in thousandths of an octet.
    left: u64,
    /// Until which moment it is filled, in milliseconds.
    until: u64,
}

impl Bucket {
    /// A full bucket.
    pub(crate) fn new(rate: u64, began: u64) -> Bucket
        ensures { result ≡ fresh rate began }
    {
        Bucket {
            left: full(rate),
            until: began,
        }
    }

    /// The bucket at a moment, in milliseconds. It has filled since its last one by `rate` octets a second, but not above a full one.
    fn filled(&self, rate: u64, now: u64) -> Bucket
        ensures { result ≡ filled rate now self.now }
    {
        let passed = now.saturating_sub(self.until);
        // octets a second times milliseconds are thousandths of an octet
        let more = self.left.saturating_add(rate.saturating_mul(passed));
        Bucket {
            // what came from its addresses may have filled it above full, and stays
            left: self.left.max(full(rate).min(more)),
            until: self.until.max(now),
        }
    }

    /// The bucket after so many octets came at a moment, in milliseconds, from one of its addresses. `rate` is in octets a second.
    pub(crate) fn credited(&self, rate: u64, now: u64, octets: u64) -> Bucket
        ensures { result ≡ credited octets (filled rate now self.now) }
    {
        let filled = self.filled(rate, now);
        let credit = octets.saturating_mul(CREDIT);
        Bucket {
            left: filled.left.saturating_add(credit),
            until: filled.until,
        }
    }

    /// Whether so many octets fit.
    fn fits(&self, octets: u64) -> bool
        ensures { result ≡ fits octets self.now }
    {
        octets <= self.left / EACH
    }

    /// The bucket after so many octets are to go at a moment, in milliseconds, to one of its addresses, and whether they fit. Where they do not, none
    /// is sent, and the bucket has only filled. `rate` is in octets a second.
    pub(crate) fn spent(&self, rate: u64, now: u64, octets: u64) -> (Bucket, bool)
        ensures bucket { result.0 ≡ spent octets (filled rate now self.now) }
        ensures fits { result.1 ≡ fits octets (filled rate now self.now) }
    {
        let filled = self.filled(rate, now);
        if !filled.fits(octets) {
            return (filled, false);
        }
        let bucket = Bucket {
            left: filled.left - octets * EACH,
            until: filled.until,
        };
        (bucket, true)
    }
}
