//! How many octets of service data the server's end of a node keeps at the most.

/// The usual bound on the octets of service data that the server's end of a node keeps, for `Rules::within`: 64 MiB (own number of this profile).
///
/// What counts are the octets of kept requests and replies, and those of segments of requests that are put together, each with four more. Beside them an entry
/// takes less than two kilobytes, and a vector may have room for twice as many octets as it holds.
pub const MEMORY: usize = 67_108_864;
