//! Comparing a file of a peer with the octets that were put into it, by their digests (SHA-256 of FIPS 180-4).
ghost use Rattle.std.specs.Prelude.{◌≡◌, take};
ghost use Rattle.sha2.specs.Sha256.{sha256};
ghost use Rattle.bac_files.specs.Comparing.{Compares};

use sha2::{Digest, Sha256};

/// What a file of a peer is, beside the octets that were put into it.
#[derive(Clone, Copy, PartialEq, Eq)]
pub enum Comparison {
    /// It has the same digest.
    Same,
    /// It is longer; so many octets at its front have the digest. AtomicWriteFile does not shorten a file.
    Longer,
    /// Neither.
    Differs,
}

/// The digest of octets.
pub fn digest_of(octets: &[u8]) -> [u8; 32]
    ensures { result ≡ sha256 octets.now }
{
    Sha256::digest(octets)
}

/// Compares the octets that a file has with so many that have this digest.
pub fn compare(count: usize, digest: &[u8; 32], there: &[u8]) -> Comparison
    ensures { Compares count digest.now there.now result }
{
    if digest_of(there) == *digest {
        return Comparison::Same;
    }
    match there.get(..count) {
        Some(front) if count < there.len() && digest_of(front) == *digest => Comparison::Longer,
        _ => Comparison::Differs,
    }
}
