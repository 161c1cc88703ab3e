//! The kinds of values that properties accept.
ghost use Rattle.std.specs.Prelude.{◌≡◌};
ghost use Rattle.bac_service.specs.Views.{property_reference_view};
ghost use Rattle.bac_store.specs.Kinds.{kind_of as kind_in, is_multi as is_multi_in, is_state as is_state_in, is_state_of as is_state_in_type};
ghost use Rattle.bac_store.specs.Replies.{is_of_kind as is_of_kind_in, is_right_state as is_right_state_in};

use crate::limits::{
    BINARY_INPUT, BINARY_OUTPUT, BINARY_VALUE, MULTI_STATE_INPUT, MULTI_STATE_OUTPUT,
    MULTI_STATE_VALUE, PRESENT_VALUE, STATE_TAG, UNSIGNED_TAG,
};
use bac_service::PropertyReference;
use bac_value::{Class, kinds, take_element};

/// The application tag of data that consist of one element; None for all other data.
pub(crate) fn kind_of(values: &[u8]) -> Option<u8>
    ensures { result ≡ kind_in values.now }
{
    match take_element(values) {
        Ok((element, rest)) if rest.is_empty() => match element.tag.class {
            Class::Application => Some(element.tag.number),
            Class::Context => None,
        },
        _ => None,
    }
}

/// Whether data are of the kind that a property requires.
pub(crate) fn is_of_kind(kind: Option<u8>, values: &[u8]) -> bool
    ensures { result ≡ is_of_kind_in kind values.now }
{
    match kind {
        None => true,
        Some(tag) => kind_of(values) == Some(tag),
    }
}

/// Whether data are Enumerated 0 or 1.
pub(crate) fn is_state(values: &[u8]) -> bool
    ensures { result ≡ is_state_in values.now }
{
    match values {
        [tag, number] => *tag == STATE_TAG && *number < 2,
        _ => false,
    }
}

/// Whether data are an Unsigned from 1 on.
fn is_multi(values: &[u8]) -> bool
    ensures { result ≡ is_multi_in values.now }
{
    let is_zero = match values {
        [tag, number] => *tag == UNSIGNED_TAG && *number == 0,
        _ => false,
    };
    kind_of(values) == Some(kinds::UNSIGNED) && !is_zero
}

/// Whether data are a state of an object of this type, if it has states.
pub(crate) fn is_state_of(kind: u16, values: &[u8]) -> bool
    ensures { result ≡ is_state_in_type kind values.now }
{
    match kind {
        BINARY_INPUT | BINARY_OUTPUT | BINARY_VALUE => is_state(values),
        MULTI_STATE_INPUT | MULTI_STATE_OUTPUT | MULTI_STATE_VALUE => is_multi(values),
        _ => true,
    }
}

/// Whether data are a state of the object, if the property is its present-value.
#[tactic(auto, unfolding(crate::specs::Replies::is_right_state))]
pub(crate) fn is_right_state(of: PropertyReference, values: &[u8]) -> bool
    ensures { result ≡ is_right_state_in (property_reference_view of) values.now }
{
    of.property != PRESENT_VALUE || is_state_of(of.object.kind, values)
}
