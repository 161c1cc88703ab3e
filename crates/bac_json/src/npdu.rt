//! NPDUs.
ghost use Rattle.std.specs.Prelude.{◌≡◌, IfOk};
ghost use Rattle.std.specs.Option.{option_map};
ghost use Rattle.bac_json.specs.Forms.{optional_number};
ghost use Rattle.bac_json.specs.Layers.{npdu_form, optional_destination, optional_message, optional_source};
ghost use Rattle.bac_npdu.specs.Views.{destination_view, message_view, npdu_view, route_view};
ghost use Rattle.serde_json.specs.View.{view};

use crate::members::Members;
use crate::text::octets_json;
use bac_npdu::{Destination, Message, Npdu, Route};
use serde_json::Value as Json;
use std::alloc::{AllocError, Global};

fn destination_json(alloc: Global, to: Option<Destination>) -> Result<Json, AllocError>
    ensures { IfOk result (λ v. view v ≡ optional_destination (option_map destination_view to)) }
{
    let Some(to) = to else {
        return Ok(Json::Null);
    };
    let address = octets_json(alloc, to.address.octets())?;
    Members::new(alloc)
        .json("address", address)
        .number("hops", u64::from(to.hops))
        .number("network", u64::from(to.network))
        .end()
}

fn source_json(alloc: Global, from: Option<Route>) -> Result<Json, AllocError>
    ensures { IfOk result (λ v. view v ≡ optional_source (option_map route_view from)) }
{
    let Some(from) = from else {
        return Ok(Json::Null);
    };
    let address = octets_json(alloc, from.address.octets())?;
    Members::new(alloc)
        .json("address", address)
        .number("network", u64::from(from.network))
        .end()
}

/// The identifier of a vendor; Null where there is none.
fn vendor_json(vendor: Option<u16>) -> Json
    ensures { view result ≡ optional_number vendor }
{
    match vendor {
        Some(vendor) => Json::from(vendor),
        None => Json::Null,
    }
}

fn message_json(
    alloc: Global,
    message: Option<Message>,
    contents: &[u8],
) -> Result<Json, AllocError>
    ensures { IfOk result (λ v. view v ≡ optional_message contents.now (option_map message_view message)) }
{
    let Some(message) = message else {
        return Ok(Json::Null);
    };
    let vendor = vendor_json(message.vendor);
    let octets = octets_json(alloc, contents)?;
    Members::new(alloc)
        .json("octets", octets)
        .number("type", u64::from(message.kind))
        .json("vendor", vendor)
        .end()
}

/// An NPDU: its members, under the names that `decode` prints, with Null for those that it does not have. An Err is out of memory.
pub fn npdu_json(alloc: Global, npdu: Npdu<'_>) -> Result<Json, AllocError>
    ensures { IfOk result (λ v. view v ≡ npdu_form (npdu_view npdu.entry)) }
{
    let to = destination_json(alloc, npdu.destination)?;
    let from = source_json(alloc, npdu.source)?;
    let message = message_json(alloc, npdu.message, npdu.contents)?;
    Members::new(alloc)
        .flag("expecting", npdu.expecting)
        .json("from", from)
        .json("message", message)
        .number("priority", u64::from(npdu.priority))
        .json("to", to)
        .end()
}
