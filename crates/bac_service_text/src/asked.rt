//! Replies that name another object, property or index than was asked.
ghost use Rattle.std.specs.Prelude.{◌≡◌};
ghost use Rattle.std.specs.Option.{option_map};
ghost use Rattle.bac_service.specs.Views.{property_reference_view, reply_view, request_view};
ghost use Rattle.bac_service_text.specs.Asked.{is_any_device, is_asked, is_asked_object, is_asked_property, is_other, names_other};
ghost use Rattle.bac_value.specs.Views.{object_identifier_view};

use crate::dispatch::property_read;
use bac_service::{AnyReply, PropertyReference, Reply, Request};
use bac_value::ObjectIdentifier;

/// The object type of devices (BACnetObjectType).
const DEVICE: u16 = 8;

/// The instance that stands for any device (clause 15.5.2).
const ANY_INSTANCE: u32 = 4_194_303;

fn is_any_device(object: ObjectIdentifier) -> bool
    ensures { result ≡ is_any_device (object_identifier_view object) }
{
    object.kind == DEVICE && object.instance == ANY_INSTANCE
}

fn is_asked_object(asked: ObjectIdentifier, named: ObjectIdentifier) -> bool
    ensures { result ≡ is_asked_object (object_identifier_view asked) (object_identifier_view named) }
{
    named.kind == asked.kind && (named.instance == asked.instance || is_any_device(asked))
}

fn is_asked_property(asked: PropertyReference, named: PropertyReference) -> bool
    ensures { result ≡ is_asked_property (property_reference_view asked) (property_reference_view named) }
{
    is_asked_object(asked.object, named.object)
        && named.property == asked.property
        && named.index == asked.index
}

/// Whether a property is the one that was asked for, where one was. Device 4,194,303 stands for any (clause 15.5.2).
pub(crate) fn is_asked(asked: Option<PropertyReference>, named: PropertyReference) -> bool
    ensures { result ≡ is_asked (option_map property_reference_view asked) (property_reference_view named) }
{
    match asked {
        Some(asked) => is_asked_property(asked, named),
        None => true,
    }
}

/// Whether a property is named, and is another one than was asked for.
fn is_other(asked: Option<PropertyReference>, named: Option<PropertyReference>) -> bool
    ensures { result ≡ is_other (option_map property_reference_view asked) (option_map property_reference_view named) }
{
    match named {
        Some(named) => !is_asked(asked, named),
        None => false,
    }
}

/// Whether the reply to a request names another object, property or index than the request. Device 4,194,303 stands for any (clause 15.5.2).
pub fn names_other(request: Request<'_>, reply: Reply<'_>) -> bool
    ensures { result ≡ names_other (request_view request.entry) (reply_view reply.entry) }
{
    match reply {
        AnyReply::Simple => false,
        AnyReply::Complex(complex) => is_other(property_read(request), complex.property()),
        AnyReply::Error { .. } => false,
        AnyReply::Reject(_) => false,
    }
}
