//! The plain octets at the front of a text.
ghost use Rattle.std.specs.Prelude.{◌≡◌, ◌≤◌, length, take, true};
ghost use Rattle.std.specs.List.{list_all};
ghost use Rattle.bac_shown.specs.Harmful.{is_plain};

fn is_plain(octet: u8) -> bool
    ensures { result ≡ is_plain octet }
{
    (32 <= octet && octet <= 126) || octet == 9 || octet == 10
}

/// How many octets at the front are plain.
pub(crate) fn plain_len(octets: &[u8]) -> usize
    ensures within { result ≤ length octets.now }
    ensures plain { list_all is_plain (take result octets.now) ≡ true }
{
    for (i, octet) in octets.iter().enumerate() {
        if !is_plain(*octet) {
            return i;
        }
    }
    octets.len()
}
