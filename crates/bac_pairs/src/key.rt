//! The key of a host, and numbers that nobody can guess without it.
ghost use Rattle.std.specs.Prelude.{◌≡◌, ◌++◌, ◌<◌, ◌≤◌};
ghost use Rattle.sha2.specs.Sha256.{sha256};
ghost use Rattle.bac_pairs.specs.Keys.{keyed, shuffled};

use sha2::{Digest, Sha256};

/// How many rows a square of places has, and how many columns.
const ROWS: u64 = 161;

/// What the clients of a host share, and the network does not see.
#[derive(Clone, Copy, PartialEq, Eq)]
pub struct PairKey {
    /// Its octets.
    pub octets: [u8; 32],
}

impl PairKey {
    /// The key of a host, by octets that only its programs know.
    pub fn of_secret(secret: &[u8]) -> PairKey
        ensures { result.octets ≡ sha256 secret.now }
    {
        PairKey {
            octets: Sha256::digest(secret),
        }
    }

    /// A number of a value that nobody can guess without the key; the purpose is another one for each kind of value.
    pub(crate) fn number_of(&self, purpose: u8, value: u64) -> u16
        ensures { result ≡ keyed self.now.octets purpose value }
    {
        let mut hasher = Sha256::new();
        hasher.update(self.octets.as_slice());
        hasher.update([purpose].as_slice());
        hasher.update(value.to_be_bytes().as_slice());
        let digest = hasher.finalize();
        u16::from_be_bytes([digest[0], digest[1]])
    }

    /// One round of a Feistel network over the places of a square: columns become rows, and each row is turned by a number of its own.
    pub(crate) fn shuffle(&self, round: u8, place: u64) -> u64
        requires { place < 25921 }
        ensures shuffled { result ≡ shuffled (keyed self.now.octets round) place }
        ensures within { result < 25921 }
    {
        let row = place / ROWS;
        let column = place % ROWS;
        let turn = self.number_of(round, column) as u64;
        column * ROWS + (row + turn) % ROWS
    }
}
