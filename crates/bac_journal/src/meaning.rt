//! What datagrams mean.
ghost use Rattle.std.specs.Prelude.{◌≡◌, ◌↔◌, ◌<◌, None, IfSome, IsTrue};
ghost use Rattle.bac_apdu.specs.Spelling.{SpellsApdu};
ghost use Rattle.bac_apdu.specs.Views.{apdu_view};
ghost use Rattle.bac_npdu.specs.Datagram.{Means};
ghost use Rattle.bac_npdu.specs.Peers.{PeerView};
ghost use Rattle.bac_protocol.specs.Wire.{is_from_client};
ghost use Rattle.bac_world.specs.Laws.{IsMeaningless};
ghost use Rattle.bac_world.specs.World.{transaction_of};
ghost use Rattle.bac_journal.specs.Views.{key_view};

use crate::transaction::Transaction;
use bac_apdu::Apdu;
use bac_npdu::{LinkAddress, read_datagram};
use bac_transaction::invoke_id_of;

/// The APDU of a peer that octets from a link mean; None where they mean none. It takes no memory.
pub(crate) fn meaning(from: LinkAddress, octets: &[u8]) -> Option<Apdu<'_>>
    ensures means { IfSome result (λ a. (peer : PeerView) × Means SpellsApdu from octets.now peer (apdu_view a)) }
    ensures none { result ≡ None → IsMeaningless from octets.now }
{
    let Ok((_peer, octets)) = read_datagram(from, octets) else {
        return None;
    };
    let Ok(apdu) = bac_apdu::read(octets) else {
        return None;
    };
    Some(apdu)
}

/// Whether octets from a link mean no APDU of a peer. It takes no memory.
pub fn is_meaningless(from: LinkAddress, octets: &[u8]) -> bool
    ensures { IsTrue result ↔ IsMeaningless from octets.now }
{
    match meaning(from, octets) {
        Some(_apdu) => false,
        None => true,
    }
}

/// Whether the client of a transaction sends it: a request, and a SegmentACK or an Abort with SRV 0 (clause 20.1).
fn is_from_client(apdu: &Apdu<'_>) -> bool
    ensures { result ≡ is_from_client (apdu_view apdu.now) }
{
    match apdu {
        Apdu::ConfirmedRequest { .. } => true,
        Apdu::UnconfirmedRequest { .. } => false,
        Apdu::SimpleAck { .. } => false,
        Apdu::ComplexAck { .. } => false,
        Apdu::SegmentAck { server, .. } => !*server,
        Apdu::Error { .. } => false,
        Apdu::Reject { .. } => false,
        Apdu::Abort { server, .. } => !*server,
    }
}

/// The transaction of an APDU that goes from a node to a node.
pub(crate) fn transaction_of(from: usize, to: usize, apdu: &Apdu<'_>) -> Transaction
    ensures is { key_view result ≡ transaction_of from to (apdu_view apdu.now) }
    ensures fits { result.invoke_id < 256 }
{
    let invoke_id = invoke_id_of(apdu);
    if is_from_client(apdu) {
        Transaction {
            client: from,
            server: to,
            invoke_id,
        }
    } else {
        Transaction {
            client: to,
            server: from,
            invoke_id,
        }
    }
}
