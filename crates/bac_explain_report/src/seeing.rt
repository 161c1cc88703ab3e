//! The APDU of a transaction in a frame.
ghost use Rattle.std.specs.Prelude.{◌≡◌};
ghost use Rattle.std.specs.Option.{option_map};
ghost use Rattle.bac_value.specs.Steps.{ReadsAll};
ghost use Rattle.bac_capture.specs.BlockViews.{frame_view};
ghost use Rattle.bac_capture.specs.Views.{datagram_view, endpoint_view};
ghost use Rattle.bac_explain.specs.Sightings.{sighting_view};
ghost use Rattle.bac_explain_report.specs.Seen.{datagram_in, link_in, link_of, seen_in, seen_of, timed_seen};

use crate::unread::Unread;
use bac_capture::{Datagram, Endpoint, Frame, LinkKind, Ports, read_frame};
use bac_explain::{Sighting, read_sighting};
use bac_npdu::LinkAddress;

/// The datagram of BACnet/IP in a frame.
fn datagram_in<'a>(frame: Frame<'a>, ports: Ports) -> Result<Option<Datagram<'a>>, Unread>
    ensures { ReadsAll (option_map datagram_view) result (datagram_in ports.also (frame_view frame.entry)) }
{
    let Some(link) = LinkKind::of(frame.link) else {
        return Err(Unread::Link);
    };
    match read_frame(link, ports, frame.octets) {
        Ok(datagram) => Ok(datagram),
        Err(fault) => Err(Unread::Packet(fault)),
    }
}

/// The BACnet/IP address of an endpoint; None for IPv6.
fn link_of(end: Endpoint<'_>) -> Option<LinkAddress>
    ensures { result ≡ link_of (endpoint_view end.entry) }
{
    if end.host.len() != 4 {
        return None;
    }
    let (high, low) = ((end.port / 256) as u8, (end.port % 256) as u8);
    Some([
        end.host[0],
        end.host[1],
        end.host[2],
        end.host[3],
        high,
        low,
    ])
}

/// The APDU of a transaction that a datagram carries.
fn seen_in<'a>(datagram: Datagram<'a>) -> Option<Sighting<'a>>
    ensures { option_map sighting_view result ≡ seen_in (datagram_view datagram.entry) }
{
    let from = link_of(datagram.from)?;
    let to = link_of(datagram.to)?;
    read_sighting(from, to, datagram.octets)
}

/// The APDU with the timestamp of its frame; an Err if the frame has none.
fn timed_seen<'a>(
    moment: Option<u64>,
    seen: Option<Sighting<'a>>,
) -> Result<Option<(u64, Sighting<'a>)>, Unread>
    ensures { ReadsAll (option_map (λ s. (s.0, sighting_view s.1))) result (timed_seen moment (option_map sighting_view seen.entry)) }
{
    let Some(sighting) = seen else {
        return Ok(None);
    };
    match moment {
        Some(moment) => Ok(Some((moment, sighting))),
        None => Err(Unread::NoMoment),
    }
}

/// The APDU of a transaction that a frame carries, with the moment of the frame in milliseconds; None if it carries none. Returns an
/// Err if the frame cannot be read, or carries such an APDU but has no timestamp.
pub fn seen_of<'a>(frame: Frame<'a>, ports: Ports) -> Result<Option<(u64, Sighting<'a>)>, Unread>
    ensures { ReadsAll (option_map (λ s. (s.0, sighting_view s.1))) result (seen_of ports.also (frame_view frame.entry)) }
{
    match datagram_in(frame, ports)? {
        Some(datagram) => timed_seen(frame.moment, seen_in(datagram)),
        None => Ok(None),
    }
}
