//! Constants of both versions of IP.

/// The IP protocol number of UDP.
pub(crate) const UDP: u8 = 17;
