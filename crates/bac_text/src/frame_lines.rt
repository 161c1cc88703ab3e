//! The lines of a BVLL and of an NPDU.
ghost use Rattle.std.specs.Prelude.{◌≡◌, IfOk, OnOk, string_bytes};
ghost use Rattle.std.specs.Option.{option_map};
ghost use Rattle.std.specs.Io.KnownBytes.{Appends};
ghost use Rattle.bac_npdu.specs.Addresses.{address_view};
ghost use Rattle.bac_npdu.specs.Views.{destination_view, route_view, message_view, npdu_view};
ghost use Rattle.bac_text.specs.Texts.{optional, place_text, destination_text, source_text, message_text, vendor_text, bvll_text, npdu_members, npdu_text};

use bac_npdu::{Address, Destination, Message, Npdu, Route};
use std::alloc::{AllocError, Global};
use std::io;
use std::io::Write;

/// Prints a BVLL: how many octets its datagram has, as `bvll len=17`.
pub(crate) fn print_bvll<W: Write>(len: usize, out: &mut W) -> io::Result<()>
    ensures { OnOk result (Appends (W.contents out.old) (W.contents out.new) (bvll_text len)) }
{
    writeln!(out, "bvll len={len}")
}

/// A network and the address of a device on it, after a name.
fn place_text(
    alloc: Global,
    name: &str,
    network: u16,
    address: &Address,
) -> Result<String, AllocError>
    ensures { IfOk result (λ t. string_bytes t ≡ place_text name.now network (address_view address.now)) }
{
    let address = hex::encode_upper(alloc, address.octets())?;
    format!(in alloc; " {name}={network}:{address}")
}

fn destination_text(alloc: Global, to: Option<Destination>) -> Result<String, AllocError>
    ensures { IfOk result (λ t. string_bytes t ≡ optional destination_text (option_map destination_view to)) }
{
    let Some(to) = to else {
        return Ok(String::new(alloc));
    };
    let place = place_text(alloc, "to", to.network, &to.address)?;
    let hops = to.hops;
    format!(in alloc; "{place} hops={hops}")
}

fn source_text(alloc: Global, from: Option<Route>) -> Result<String, AllocError>
    ensures { IfOk result (λ t. string_bytes t ≡ optional source_text (option_map route_view from)) }
{
    match from {
        None => Ok(String::new(alloc)),
        Some(from) => place_text(alloc, "from", from.network, &from.address),
    }
}

fn vendor_text(alloc: Global, vendor: Option<u16>) -> Result<String, AllocError>
    ensures { IfOk result (λ t. string_bytes t ≡ optional vendor_text vendor) }
{
    match vendor {
        None => Ok(String::new(alloc)),
        Some(vendor) => format!(in alloc; " vendor={vendor}"),
    }
}

/// The type of a network layer message, the vendor of a proprietary one, and its contents; empty for an NPDU with an APDU.
fn message_text(
    alloc: Global,
    message: Option<Message>,
    contents: &[u8],
) -> Result<String, AllocError>
    ensures { IfOk result (λ t. string_bytes t ≡ optional (message_text contents.now) (option_map message_view message)) }
{
    let Some(message) = message else {
        return Ok(String::new(alloc));
    };
    let kind = message.kind;
    let vendor = vendor_text(alloc, message.vendor)?;
    let contents = hex::encode_upper(alloc, contents)?;
    format!(in alloc; " message={kind}{vendor} raw={contents}")
}

/// An NPDU: `npdu expecting=1 priority=0 [to=5:2A hops=255] [from=5:2A] [message=128 [vendor=261] raw=AA]`.
#[tactic(auto, unfolding(crate::specs::Texts::npdu_members))]
fn members_text(alloc: Global, npdu: Npdu<'_>) -> Result<String, AllocError>
    ensures { IfOk result (λ t. string_bytes t ≡ npdu_members (npdu_view npdu.entry)) }
{
    let expecting = u8::from(npdu.expecting);
    let priority = npdu.priority;
    let to = destination_text(alloc, npdu.destination)?;
    let from = source_text(alloc, npdu.source)?;
    let message = message_text(alloc, npdu.message, npdu.contents)?;
    format!(in alloc; "npdu expecting={expecting} priority={priority}{to}{from}{message}")
}

/// Prints the line of an NPDU.
#[tactic(auto, unfolding(crate::specs::Texts::npdu_text))]
pub(crate) fn print_npdu<W: Write>(alloc: Global, npdu: Npdu<'_>, out: &mut W) -> io::Result<()>
    ensures { OnOk result (Appends (W.contents out.old) (W.contents out.new) (npdu_text (npdu_view npdu.entry))) }
{
    let members = members_text(alloc, npdu)?;
    writeln!(out, "{members}")
}
