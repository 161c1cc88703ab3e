//! How full the node's tables are.
ghost use Rattle.std.specs.Prelude.{◌≡◌, count_by};
ghost use Rattle.bac_transaction.specs.Ends.{is_slot_held, is_slot_live};
ghost use Rattle.bac_c.specs.Results.{Counts};

use crate::handle::Handle;
use std::alloc::Global;

/// How many client slots are held at a moment in milliseconds.
#[unsafe(no_mangle)]
pub extern "C" fn bac_held(alloc: Global, handle: &mut Handle, now: u64) -> usize
    ensures count { Counts (λ n. count_by (is_slot_held now) n.clients.slots) handle.old.parked.device result }
    ensures same { handle.new.parked.device ≡ handle.old.parked.device }
{
    let Some(device) = handle.take(alloc) else {
        return 0;
    };
    let number = match &device.node {
        Some(node) => node.held(now),
        None => 0,
    };
    handle.put(device);
    number
}

/// How many entries of the reply table are live at a moment in milliseconds.
#[unsafe(no_mangle)]
pub extern "C" fn bac_live(alloc: Global, handle: &mut Handle, now: u64) -> usize
    ensures count { Counts (λ n. count_by (is_slot_live now) n.servers.slots) handle.old.parked.device result }
    ensures same { handle.new.parked.device ≡ handle.old.parked.device }
{
    let Some(device) = handle.take(alloc) else {
        return 0;
    };
    let number = match &device.node {
        Some(node) => node.live(now),
        None => 0,
    };
    handle.put(device);
    number
}
