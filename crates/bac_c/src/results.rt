//! What came of the last call that did something, read by index.
ghost use Rattle.std.specs.Prelude.{◌≡◌, MatchOption, length};
ghost use Rattle.bac_node.specs.Faults.{cause_number};
ghost use Rattle.bac_c.specs.Endings.{end_of as plain_end};
ghost use Rattle.bac_c.specs.Results.{end_in, link_of, octets_ended, octets_sent, send_in, IsCopied, IsTold};

use crate::copying::copy_out;
use crate::ending::{end_of, octets_of};
use crate::handle::Handle;
use crate::records::End;
use std::alloc::Global;

/// How many datagrams are to be sent.
#[unsafe(no_mangle)]
pub extern "C" fn bac_sends(alloc: Global, handle: &mut Handle) -> usize
    ensures count { MatchOption handle.old.parked.device (result ≡ 0) (λ d. result ≡ length d.outcome.sends.items) }
    ensures same { handle.new.parked.device ≡ handle.old.parked.device }
{
    let Some(device) = handle.take(alloc) else {
        return 0;
    };
    let number = device.outcome.sends.len();
    handle.put(device);
    number
}

/// Copies a datagram that is to be sent out, with the link that it goes to: how many octets it has, 0 where there is none at that index. Where they are
/// more than there is room, no octets are copied.
#[unsafe(no_mangle)]
#[tactic(auto, using(crate::proofs::Copies::none_copied))]
pub extern "C" fn bac_send(
    alloc: Global,
    handle: &mut Handle,
    index: usize,
    to: &mut [u8; 6],
    out: &mut [u8],
) -> usize
    ensures to { IsTold link_of (send_in handle.old.parked.device index) to.old to.new }
    ensures octets { IsCopied (octets_sent (send_in handle.old.parked.device index)) out.old result out.new }
    ensures same { handle.new.parked.device ≡ handle.old.parked.device }
{
    let Some(device) = handle.take(alloc) else {
        return 0;
    };
    let len = match device.outcome.sends.get(index) {
        Some(datagram) => {
            *to = datagram.to();
            copy_out(datagram.octets(), out)
        }
        None => 0,
    };
    handle.put(device);
    len
}

/// How many asks have ended.
#[unsafe(no_mangle)]
pub extern "C" fn bac_ends(alloc: Global, handle: &mut Handle) -> usize
    ensures count { MatchOption handle.old.parked.device (result ≡ 0) (λ d. result ≡ length d.outcome.ended.items) }
    ensures same { handle.new.parked.device ≡ handle.old.parked.device }
{
    let Some(device) = handle.take(alloc) else {
        return 0;
    };
    let number = device.outcome.ended.len();
    handle.put(device);
    number
}

/// Puts out how the ask at an index ended, and copies the octets that came out: how many they are, 0 where there is none at that index. Where they are more
/// than there is room, none is copied.
#[unsafe(no_mangle)]
#[tactic(auto, using(crate::proofs::Copies::none_copied))]
pub extern "C" fn bac_end(
    alloc: Global,
    handle: &mut Handle,
    index: usize,
    end: &mut End,
    out: &mut [u8],
) -> usize
    ensures ended { IsTold plain_end (end_in handle.old.parked.device index) end.old end.new }
    ensures octets { IsCopied (octets_ended (end_in handle.old.parked.device index)) out.old result out.new }
    ensures same { handle.new.parked.device ≡ handle.old.parked.device }
{
    let Some(device) = handle.take(alloc) else {
        return 0;
    };
    let len = match device.outcome.ended.get(index) {
        Some(finish) => {
            *end = end_of(finish);
            copy_out(octets_of(finish), out)
        }
        None => 0,
    };
    handle.put(device);
    len
}

/// Why the last datagram was dropped; 0 where it was not. The others are 1 no BVLL, 2 no NPDU, 3 routed elsewhere, 4 a network message, 5 no APDU, 6
/// from the node's own link.
#[unsafe(no_mangle)]
pub extern "C" fn bac_cause(alloc: Global, handle: &mut Handle) -> u32
    ensures cause { MatchOption handle.old.parked.device (result ≡ 0) (λ d. MatchOption d.outcome.dropped (result ≡ 0) (λ c. result ≡ cause_number c)) }
    ensures same { handle.new.parked.device ≡ handle.old.parked.device }
{
    let Some(device) = handle.take(alloc) else {
        return 0;
    };
    let number = match &device.outcome.dropped {
        Some(cause) => u32::from(cause.number()),
        None => 0,
    };
    handle.put(device);
    number
}
