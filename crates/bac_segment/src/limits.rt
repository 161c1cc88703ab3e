//! The limits of a transfer (own rules of this profile).

/// How often a window is sent again before the sender gives up (Number_Of_APDU_Retries, clause 12.11.28).
pub const N_RETRY: u8 = 3;

/// The greatest length of service data in octets, and the greatest number of segments of one transfer.
pub const DATA: usize = 65_535;
