//! How long a document may be that a server follows while it serves.
ghost use Rattle.std.specs.Prelude.{◌≡◌, count_by, nat_lt};
ghost use Rattle.bac_serving.specs.Extents.{KEYS as key_limit, has_too_many_keys, is_mark};

/// The most keys of a document that is followed, each counted by its `=`.
pub(crate) const KEY_LIMIT: usize = 50_000;

/// How many octets of a text are `=`: a document has at most so many keys.
pub(crate) fn marks_in(text: &[u8]) -> usize
    ensures { result ≡ count_by is_mark text.now }
{
    text.iter().filter(|octet| **octet == b'=').count()
}

/// Whether a document may have more than [`KEY_LIMIT`] keys: so many of its octets are `=`. Each object is compared with all others, and each of its keys too, so
/// it would take too long to read one with more.
pub(crate) fn has_too_many_keys(text: &[u8]) -> bool
    ensures { result ≡ has_too_many_keys text.now }
{
    marks_in(text) > KEY_LIMIT
}
