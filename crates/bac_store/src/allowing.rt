//! Which values the limits of a property allow.
ghost use Rattle.std.specs.Prelude.{◌≡◌, map};
ghost use Rattle.std.specs.List.{list_all, list_any};
ghost use Rattle.bac_store.specs.Allowing.{are_right_limits as right_limits, are_same as same, has_kind as has_kind_in, is_allowed as allowed_in};
ghost use Rattle.bac_store.specs.Views.{allowed_view, data_view};

use crate::allowed::Allowed;
use crate::kind::kind_of;
use crate::rank::is_at_most;
use bac_value::DataBuf;

/// Whether both are the same octets.
pub(crate) fn are_same(values: &[u8], other: &[u8]) -> bool
    ensures { result ≡ same values.now other.now }
{
    values == other
}

/// Whether these values are in a list.
fn is_one_of(listed: &[DataBuf], values: &[u8]) -> bool
    ensures { result ≡ list_any (same values.now) (map data_view listed.now) }
{
    for data in listed {
        if are_same(values, &data.octets) {
            return true;
        }
    }
    false
}

/// Whether WriteProperty may set these values.
pub(crate) fn is_allowed(allowed: &Allowed, values: &[u8]) -> bool
    ensures { result ≡ allowed_in (allowed_view allowed.now) values.now }
{
    match allowed {
        Allowed::Any => true,
        Allowed::Between { least, greatest } => {
            is_at_most(&least.octets, values) && is_at_most(values, &greatest.octets)
        }
        Allowed::OneOf(listed) => is_one_of(listed, values),
    }
}

/// Whether the values are one application value of this kind.
fn has_kind(kind: Option<u8>, values: &[u8]) -> bool
    ensures { result ≡ has_kind_in kind values.now }
{
    match kind {
        None => false,
        Some(tag) => kind_of(values) == Some(tag),
    }
}

/// Whether all values of a list have this kind.
fn have_kind(kind: Option<u8>, listed: &[DataBuf]) -> bool
    ensures { result ≡ list_all (has_kind_in kind) (map data_view listed.now) }
{
    for data in listed {
        if !has_kind(kind, &data.octets) {
            return false;
        }
    }
    true
}

/// Whether a property with these first values may have these limits.
pub(crate) fn are_right_limits(allowed: &Allowed, values: &[u8]) -> bool
    ensures { result ≡ right_limits (allowed_view allowed.now) values.now }
{
    match allowed {
        Allowed::OneOf(listed) => {
            have_kind(kind_of(values), listed) && is_allowed(allowed, values)
        }
        Allowed::Any | Allowed::Between { .. } => is_allowed(allowed, values),
    }
}
