//! The source port and the first invoke ID of a client, by the time of day.
ghost use Rattle.std.specs.Prelude.{◌≡◌, ◌<◌, ◌+◌};
ghost use Rattle.bac_pairs.specs.Keys.{place_of};
ghost use Rattle.bac_pairs.specs.Pairs.{id_at, port_at, share_end};

use crate::key::PairKey;

/// How many microseconds a share of time lasts. A port is one client's for one share.
const SHARE: u64 = 6_400;

/// How many ports there are: a square of 161 rows.
const PORTS: u64 = 25_921;

/// The first of these ports: below are those that services have.
const FIRST_PORT: u64 = 32_768;

/// The first port of BACnet/IP, BAC0 (clause J.1.2), and how many there are: none of them is a client's.
const BACNET_PORT: u64 = 47_808;

const BACNET_PORTS: u64 = 16;

/// What the first invoke ID is computed for; the rounds of a port have 0 to 3.
const FIRST_ID: u8 = 4;

/// The UDP port and the invoke ID with which a client begins.
#[derive(Clone, Copy, Debug, PartialEq, Eq)]
pub struct ClientPair {
    /// The port that it asks from; 0 is any free port.
    pub port: u16,
    /// The invoke ID of its first ask.
    pub first_id: u8,
}

/// Where a share stands among the ports: those that follow one another take the ports in an order that only the key tells.
fn place_of(key: &PairKey, share: u64) -> u64
    ensures place { result ≡ place_of key.now.octets share }
    ensures within { result < 25921 }
{
    let first = key.shuffle(0, share % PORTS);
    let second = key.shuffle(1, first);
    let third = key.shuffle(2, second);
    key.shuffle(3, third)
}

/// How many microseconds are left of its share at a moment.
pub fn left_at(moment: u64) -> u64
    ensures { moment + result ≡ share_end moment }
{
    SHARE - moment % SHARE
}

/// The pair of a client that takes its port at a moment, in microseconds.
///
/// All moments of one share of 6.4 ms have one pair. The port comes again 165 seconds after the end of the share, or later.
pub fn pair_at(key: &PairKey, moment: u64) -> ClientPair
    ensures port { result.port ≡ port_at key.now.octets moment }
    ensures first_id { result.first_id ≡ id_at key.now.octets moment }
{
    let share = moment / SHARE;
    let port = FIRST_PORT + place_of(key, share);
    let passed = if port < BACNET_PORT { 0 } else { BACNET_PORTS };
    let number = key.number_of(FIRST_ID, share);
    ClientPair {
        port: (port + passed) as u16,
        first_id: (number % 256) as u8,
    }
}
