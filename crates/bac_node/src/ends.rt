//! Both ends of a node as they begin. `Node` makes them, and makes them anew where it restarts.
ghost use Rattle.std.specs.Prelude.{◌≡◌, [], IfOk};
ghost use Rattle.bac_transaction.specs.Ends.{first_after};
ghost use Rattle.bac_protocol.specs.declared.times.TheConstants.{KEEP as KEPT_FOR, REST as REST_TIME};

use bac_requester::{Client, Requester};
use bac_responder::{Responder, ServerTransaction};
use bac_slots::IndexSlots;
use bac_transaction::PeerKey;
use bac_value::NoMemory;
use std::alloc::Global;

/// The client's end and the server's, both empty, each after a restart at its moment, if there was one.
pub(crate) fn empty_ends(
    alloc: Global,
    client_slots: usize,
    reply_slots: usize,
    client_restart: Option<u64>,
    server_restart: Option<u64>,
) -> Result<
    (
        Requester<IndexSlots<PeerKey, Client>>,
        Responder<IndexSlots<PeerKey, ServerTransaction>>,
    ),
    NoMemory,
>
    ensures clients { IfOk result (λ ends. ends.0 ≡ record { slots = []; capacity = client_slots; asked = 0; asks_from = first_after REST_TIME client_restart; first_id = 0 }) }
    ensures servers { IfOk result (λ ends. ends.1 ≡ record { slots = []; capacity = reply_slots; serves_from = first_after KEPT_FOR server_restart }) }
{
    let clients = Requester::new(alloc, client_slots, client_restart)?;
    let servers = Responder::new(alloc, reply_slots, server_restart)?;
    Ok((clients, servers))
}
