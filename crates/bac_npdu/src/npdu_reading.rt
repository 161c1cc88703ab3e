//! Reading an NPDU (clause 6.2).
ghost use Rattle.std.specs.Prelude.{MatchOption, ◌≡◌, ℕ, List, IfOk, IfErr, MatchResult, Ok, Err, Bool, ◌==◌, ◌/◌, ◌%◌, ◌<◌, length, IsTrue, true, false};
ghost use Rattle.std.specs.Option.{option_map};
ghost use Rattle.bac_npdu.specs.Peers.{RouteView, route_fits};
ghost use Rattle.bac_npdu.specs.Npdu.{NpduView, SpellsNpdu, destination_fits};
ghost use Rattle.bac_npdu.specs.Addresses.{address_view};
ghost use Rattle.bac_npdu.specs.Views.{place_view, route_view, destination_view, message_view, npdu_view};
ghost use Rattle.bac_value.specs.Steps.{Reads, ReadsAll, has_bit};
ghost use Rattle.bac_npdu.specs.Reading.{network_in, count_in, address_at, place_at, optional_at, hops_at, message_at, members_at};
ghost use Rattle.bac_npdu.specs.Reading.{control_at, npdu_at};

use crate::control::{self, has};
use crate::fault::FrameFault;
use crate::npdu::{Destination, Message, Npdu, VERSION};
use crate::octets::{octet, word};
use crate::place::Place;
use crate::route::Route;

/// Reads the type of a network layer message, and the vendor identifier of types 128 and above.
#[tactic(auto, unfolding(crate::specs::Reading::message_at))]
fn message(octets: &[u8]) -> Result<(Message, &[u8]), FrameFault>
    ensures { Reads message_view (λ r. r.now) octets.now result message_at }
{
    let (kind, rest) = octet(octets)?;
    if kind < 128 {
        return Ok((Message { kind, vendor: None }, rest));
    }
    let (vendor, rest) = word(rest)?;
    Ok((
        Message {
            kind,
            vendor: Some(vendor),
        },
        rest,
    ))
}

fn source(octets: &[u8], is_there: bool) -> Result<(Option<Route>, &[u8]), FrameFault>
    ensures { Reads (option_map route_view) (λ r. r.now) octets.now result (optional_at (place_at true) is_there) }
{
    if !is_there {
        return Ok((None, octets));
    }
    let (place, rest) = Place::read(octets, true)?;
    Ok((
        Some(Route {
            network: place.network,
            address: place.address,
        }),
        rest,
    ))
}

fn destination_place(octets: &[u8], is_there: bool) -> Result<(Option<Place>, &[u8]), FrameFault>
    ensures reads { Reads (option_map place_view) (λ r. r.now) octets.now result (optional_at (place_at false) is_there) }
    ensures fits { IfOk result (λ r. MatchOption r.0 (Unit {0}) (λ p. IsTrue (destination_fits p.network (length (address_view p.address))))) }
{
    if !is_there {
        return Ok((None, octets));
    }
    let (place, rest) = Place::read(octets, false)?;
    Ok((Some(place), rest))
}

/// Reads the hop count, if there is a destination.
fn destination(
    octets: &[u8],
    place: Option<Place>,
) -> Result<(Option<Destination>, &[u8]), FrameFault>
    requires { MatchOption place (Unit {0}) (λ p. IsTrue (destination_fits p.network (length (address_view p.address)))) }
    ensures { Reads (option_map destination_view) (λ r. r.now) octets.now result (hops_at (option_map place_view place)) }
{
    let Some(Place { network, address }) = place else {
        return Ok((None, octets));
    };
    let (hops, rest) = octet(octets)?;
    Ok((
        Some(Destination {
            network,
            address,
            hops,
        }),
        rest,
    ))
}

fn optional_message(octets: &[u8], is_there: bool) -> Result<(Option<Message>, &[u8]), FrameFault>
    ensures { Reads (option_map message_view) (λ r. r.now) octets.now result (optional_at message_at is_there) }
{
    if !is_there {
        return Ok((None, octets));
    }
    let (message, rest) = message(octets)?;
    Ok((Some(message), rest))
}

/// Reads the members that the control octet announces, and the contents after them.
#[tactic(auto, unfolding(crate::specs::Reading::members_at))]
fn members(octets: &[u8], bits: u8) -> Result<Npdu<'_>, FrameFault>
    ensures { ReadsAll npdu_view result (members_at bits octets.now) }
{
    let (place, rest) = destination_place(octets, has(bits, control::DESTINATION))?;
    let (source, rest) = source(rest, has(bits, control::SOURCE))?;
    let (destination, rest) = destination(rest, place)?;
    let (message, contents) = optional_message(rest, has(bits, control::NETWORK_MESSAGE))?;
    Ok(Npdu {
        destination,
        source,
        expecting: has(bits, control::EXPECTING_REPLY),
        priority: bits % 4,
        message,
        contents,
    })
}

/// Reads the whole octets as an NPDU (clause 6.2). Returns the first fault from left to right.
#[tactic(auto, unfolding(crate::specs::Reading::control_at, crate::specs::Reading::npdu_at))]
pub fn read_npdu(octets: &[u8]) -> Result<Npdu<'_>, FrameFault>
    ensures found { IfOk result (λ n. SpellsNpdu (npdu_view n) octets.now) }
    ensures refused { IfErr result (λ e. (n : NpduView) → SpellsNpdu n octets.now → ⊥) }
    // the fault is the first from left to right
    ensures exact { ReadsAll npdu_view result (npdu_at octets.now) }
{
    let (version, rest) = octet(octets)?;
    if version != VERSION {
        return Err(FrameFault::Version);
    }
    let (bits, rest) = octet(rest)?;
    if has(bits, control::RESERVED_HIGH) || has(bits, control::RESERVED_LOW) {
        return Err(FrameFault::ReservedBits);
    }
    members(rest, bits)
}
