//! In which parts a file is read and written.
ghost use Rattle.std.specs.Prelude.{◌≡◌, ℕ, ◌+◌, ◌<◌, ◌≤◌, length, take, drop, None, Some, IfSome};
ghost use Rattle.bac_files.specs.Sizes.{Shrinks, apdu_of, smaller_of};

/// How many octets of a file one request reads or writes: as many as fit, with all else that is in the request and in the reply, into an APDU of the lengths
/// that devices take (clause 20.1.2.5), so that neither goes in segments.
#[derive(Clone, Copy)]
pub enum PartSize {
    /// For APDUs of 1,476 octets, the most on BACnet/IP.
    Apdu1476,
    /// For APDUs of 1,024 octets.
    Apdu1024,
    /// For APDUs of 480 octets, the most on MS/TP.
    Apdu480,
    /// For APDUs of 206 octets.
    Apdu206,
    /// For APDUs of 128 octets.
    Apdu128,
    /// For APDUs of 50 octets, which each device takes.
    Apdu50,
}

/// How many octets of an APDU of either file service are none of the file, at most.
const OTHERS: usize = 27;

impl PartSize {
    /// The length of the APDU, in octets.
    fn apdu(self) -> usize
        ensures { result ≡ apdu_of self }
    {
        match self {
            PartSize::Apdu1476 => 1_476,
            PartSize::Apdu1024 => 1_024,
            PartSize::Apdu480 => 480,
            PartSize::Apdu206 => 206,
            PartSize::Apdu128 => 128,
            PartSize::Apdu50 => 50,
        }
    }

    /// How many octets of a file that are.
    pub fn octets(self) -> usize
        ensures { result + 27 ≡ apdu_of self }
    {
        self.apdu() - OTHERS
    }

    /// The next smaller size, for a device that takes no APDU of this one; None where there is none.
    pub fn smaller(self) -> Option<PartSize>
        ensures next { result ≡ smaller_of self }
        ensures smaller { IfSome result (λ size. apdu_of size < apdu_of self) }
        ensures least { result ≡ None → apdu_of self ≡ 50 }
    {
        match self {
            PartSize::Apdu1476 => Some(PartSize::Apdu1024),
            PartSize::Apdu1024 => Some(PartSize::Apdu480),
            PartSize::Apdu480 => Some(PartSize::Apdu206),
            PartSize::Apdu206 => Some(PartSize::Apdu128),
            PartSize::Apdu128 => Some(PartSize::Apdu50),
            PartSize::Apdu50 => None,
        }
    }

    /// Becomes the next smaller size, for a device that takes no APDU of this one. Returns whether there is one; where there is none, it stays as it is.
    pub fn shrink(&mut self) -> bool
        ensures { Shrinks self.old self.new result }
    {
        match self.smaller() {
            Some(size) => {
                *self = size;
                true
            }
            None => false,
        }
    }
}

/// The part of some octets that one request writes, from a position on; none from their end on.
pub fn part_at(octets: &[u8], position: usize, size: PartSize) -> &[u8]
    ensures part { (count : ℕ) → count + 27 ≡ apdu_of size → result.now ≡ take count (drop position octets.now) }
{
    let rest = match octets.get(position..) {
        Some(rest) => rest,
        None => &[],
    };
    let count = rest.len().min(size.octets());
    &rest[..count]
}
