//! How much each address is sent: [`Budget`]. `guarded` asks it before it sends.
ghost use Rattle.std.specs.Prelude.{◌≡◌, ◌<◌, IfOk};
ghost use Rattle.bac_guard.specs.Buckets.{Event};
ghost use Rattle.bac_guard.specs.Buckets.Event.{Came, Goes};
ghost use Rattle.bac_guard.specs.Addresses.{number_of};
ghost use Rattle.bac_guard.specs.Budgets.{PLACES, fits_at, new_table, place_of, table_after, traffic};

use crate::bucket::Bucket;
use std::alloc::{AllocError, Global};
use std::marker::Model;

/// How many buckets there are.
const PLACES: usize = 1_024;

/// What a product of 64 bits is divided by for its upper ten bits.
const LOWER: u64 = 18_014_398_509_481_984;

/// How much each address is sent: three octets for each that came from it, beside a bucket that fills at a rate. It has 256 KiB, or what the rate gives in two
/// seconds, if that is more.
///
/// An address is an IPv4 address, whatever the UDP port: who forges the address of another host cannot spread over its ports. Two addresses may share a bucket;
/// which ones do depends on a key that others do not know.
#[derive(Drop)]
pub struct Budget {
    key: u64,
    rate: u64,
    buckets: Vec<Bucket>,
}

impl Model for Budget {
    ghost use Rattle.std.specs.Prelude.{◌≡◌, length};
    ghost use Rattle.bac_guard.specs.Budgets.{Table};

    ghost Value = { Table };

    ghost view = { λ b. record { key = b.key; rate = b.rate; buckets = b.buckets.items } };

    ghost invariant = { λ b. length b.buckets.items ≡ 1024 };
}

/// The number of an IPv4 address.
fn number_of(host: [u8; 4]) -> u64
    ensures { result ≡ number_of host }
{
    u64::from(u32::from_be_bytes(host))
}

/// Which bucket an address has.
fn place_of(key: u64, host: [u8; 4]) -> usize
    ensures place { result ≡ place_of key (number_of host) }
    ensures within { result < PLACES }
{
    // the upper ten bits of the product choose one of 1,024 places; which ones share a place depends on the key
    let product = key.wrapping_mul(2 * number_of(host) + 1);
    (product / LOWER) as usize
}

impl Budget {
    /// A table whose buckets are full at a moment, and fill by so many octets a second. Returns an `Err` if the allocation fails.
    pub fn new(alloc: Global, key: u64, rate: u64, began: u64) -> Result<Budget, AllocError>
        ensures { IfOk result (λ b. b ≡ new_table key rate began) }
    {
        Ok(Budget {
            key,
            rate,
            buckets: vec![in alloc; Bucket::new(rate, began); PLACES]?,
        })
    }

    /// Counts octets that came from an address at a moment, in milliseconds: three times as many more may be sent to its bucket.
    pub fn credit(&mut self, now: u64, host: [u8; 4], octets: usize)
        ensures { self.new ≡ table_after (traffic (number_of host) (Came now octets)) self.old }
    {
        let place = place_of(self.key, host);
        let octets = octets as u64;
        self.buckets[place] = self.buckets[place].credited(self.rate, now, octets);
    }

    /// Whether so many octets that are to go to an address at a moment fit. Then they count as sent.
    pub fn spend(&mut self, now: u64, host: [u8; 4], octets: usize) -> bool
        ensures fits { result ≡ fits_at self.old (number_of host) now octets }
        ensures table { self.new ≡ table_after (traffic (number_of host) (Goes now octets)) self.old }
    {
        let place = place_of(self.key, host);
        let octets = octets as u64;
        let (bucket, fits) = self.buckets[place].spent(self.rate, now, octets);
        self.buckets[place] = bucket;
        fits
    }
}
