//! Writing frames for a peer.
ghost use Rattle.std.specs.Prelude.{◌≡◌, ◌+◌, ◌≤◌, ◌<◌, ◌++◌, ◌∷◌, [], length, OnOk, OnErr, vec_len, vec_capacity, true};
ghost use Rattle.bac_value.specs.Appending.{Appends, Lengthens, Keeps, NeedsRoom};
ghost use Rattle.bac_npdu.specs.Npdu.{address_spelling, npdu_spelling, members_spelling, control_octet};
ghost use Rattle.bac_npdu.specs.Datagram.{frame, frame_head, npdu_to, IsFrameOf};
ghost use Rattle.bac_npdu.specs.Views.{peer_view};
ghost use Rattle.bac_npdu.specs.Addresses.{address_view};

use crate::bvll::{ORIGINAL_UNICAST_NPDU, TYPE};
use crate::control;
use crate::npdu::{FIRST_HOPS, VERSION};
use crate::peer::Peer;
use crate::route::Route;
use bac_value::NoMemory;
use byteorder::{BigEndian, ByteOrder};

/// How many octets of the NPDU for a peer precede its contents.
#[tactic(auto, unfolding(crate::specs::Npdu::npdu_spelling, crate::specs::Npdu::members_spelling))]
fn head_len(peer: &Peer) -> usize
    ensures head { result ≡ length (npdu_spelling (npdu_to (peer_view peer.now) true [])) }
    ensures most { result ≤ 14 }
{
    match peer.route {
        None => 2,
        Some(route) => 6 + route.address.octets().len(),
    }
}

/// Appends the network number, the address length, and the address.
fn put_address(route: &Route, out: &mut Vec<u8>) -> Result<(), NoMemory>
    ensures ok { Appends result out.old out.new (address_spelling route.now.network (address_view route.now.address)) }
    ensures len { OnOk result (vec_len out.new ≡ vec_len out.old + 3 + length (address_view route.now.address)) }
    ensures full { OnErr result (vec_capacity out.old < vec_len out.old + 3 + length (address_view route.now.address)) }
    ensures grows { vec_capacity out.old ≤ vec_capacity out.new }
{
    let address = route.address.octets();
    let mut network = [0; 2];
    BigEndian::write_u16(&mut network, route.network);
    out.extend_from_slice(&network)?;
    out.push(address.len() as u8)?;
    out.extend_from_slice(address)?;
    Ok(())
}

/// The control octet of the NPDU for a peer.
fn control_to(peer: &Peer, expecting: bool) -> u8
    ensures { result ≡ control_octet (npdu_to (peer_view peer.now) expecting []) }
{
    let expecting = if expecting {
        control::EXPECTING_REPLY
    } else {
        0
    };
    match peer.route {
        None => expecting,
        Some(_) => control::DESTINATION + expecting,
    }
}

/// Appends what is between the control octet and the contents of the NPDU for a peer.
#[tactic(auto, unfolding(crate::specs::Npdu::members_spelling))]
fn put_members(peer: &Peer, out: &mut Vec<u8>) -> Result<(), NoMemory>
    ensures ok { Appends result out.old out.new (members_spelling (npdu_to (peer_view peer.now) true [])) }
    ensures len { Lengthens result out.old out.new (members_spelling (npdu_to (peer_view peer.now) true [])) }
    ensures full { NeedsRoom result out.old (members_spelling (npdu_to (peer_view peer.now) true [])) }
    ensures grows { vec_capacity out.old ≤ vec_capacity out.new }
{
    if let Some(route) = &peer.route {
        put_address(route, out)?;
        out.push(FIRST_HOPS)?;
    }
    Ok(())
}

/// Appends the part of the frame for a peer that precedes the APDU, and reserves room for the APDU's `len` octets, at most 1,476.
/// `expecting` is whether a reply is expected. Returns `NoMemory` and changes nothing if an allocation fails.
#[tactic(auto, using(crate::proofs::Writing::head_length))]
pub fn write_frame_head(
    peer: &Peer,
    expecting: bool,
    apdu_len: usize,
    out: &mut Vec<u8>,
) -> Result<(), NoMemory>
    requires { apdu_len ≤ 1476 }
    ensures ok { Appends result out.old out.new (frame_head (peer_view peer.now) expecting apdu_len) }
    ensures room { OnOk result (vec_len out.new + apdu_len ≤ vec_capacity out.new) }
    ensures err { Keeps result out.old out.new }
    ensures full { OnErr result (vec_capacity out.old < vec_len out.old + length (frame_head (peer_view peer.now) expecting apdu_len) + apdu_len) }
{
    let len = 4 + head_len(peer) + apdu_len;
    out.reserve_exact(len)?;
    let mut total = [0; 2];
    BigEndian::write_u16(&mut total, len as u16);
    let [high, low] = total;
    let control = control_to(peer, expecting);
    out.extend_from_slice(&[TYPE, ORIGINAL_UNICAST_NPDU, high, low, VERSION, control])?;
    put_members(peer, out)?;
    Ok(())
}

/// Appends the one frame that carries the octets of an APDU, at most 1,476, to a peer. `expecting` is whether a reply is expected,
/// which is true only for Confirmed-Requests. Returns `NoMemory` and changes nothing if an allocation fails.
#[tactic(auto, using(crate::proofs::Writing::frame_length))]
pub fn write_datagram(
    peer: &Peer,
    expecting: bool,
    apdu: &[u8],
    out: &mut Vec<u8>,
) -> Result<(), NoMemory>
    requires { length apdu.now ≤ 1476 }
    ensures ok { Appends result out.old out.new (frame (peer_view peer.now) expecting apdu.now) }
    ensures spelled { IsFrameOf (npdu_to (peer_view peer.now) expecting apdu.now) (frame (peer_view peer.now) expecting apdu.now) }
    ensures err { Keeps result out.old out.new }
    ensures full { NeedsRoom result out.old (frame (peer_view peer.now) expecting apdu.now) }
{
    write_frame_head(peer, expecting, apdu.len(), out)?;
    out.extend_from_slice(apdu)?;
    Ok(())
}
