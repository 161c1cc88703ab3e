//! Datagrams and time.
ghost use Rattle.std.specs.Prelude.{◌≡◌, ◌≢◌, ◌≤◌, IfSome};
ghost use Rattle.bac_node.specs.Calls.{IsNotHeard};
ghost use Rattle.bac_node.specs.Waiting.{MovesAt, RestsUntil};
ghost use Rattle.bac_requester.specs.Timers.{LAST_MOMENT};
ghost use Rattle.bac_world.specs.Node.{NodeTick};
ghost use Rattle.bac_c.specs.Devices.{HasHeard, HasKept, HasRun, Holds, IsTurnStatus, Runs};
ghost use Rattle.bac_c.specs.Statuses.{DONE, NOT_STARTED, NO_MEMORY};

use crate::fault::{Fault, status};
use crate::handle::Handle;
use std::alloc::Global;

/// A datagram comes from a link, at a moment in milliseconds. Whether its client may use an invoke ID again is as the settings of the start say.
#[unsafe(no_mangle)]
pub extern "C" fn bac_on(
    alloc: Global,
    handle: &mut Handle,
    now: u64,
    from: &[u8; 6],
    octets: &[u8],
) -> u32
    ensures went { result ≡ DONE → HasHeard now from.now octets.now handle.old.parked.device handle.new.parked.device }
    ensures within { result ≡ DONE → HasKept handle.old.parked.device handle.new.parked.device }
    ensures status { IsTurnStatus now handle.old.parked.device result }
    ensures dropped { result ≡ NO_MEMORY → Holds (Runs (λ n. IsNotHeard n.link from.now octets.now → ⊥)) handle.old.parked.device }
    ensures few { result ≤ NOT_STARTED }
    ensures err { result ≢ DONE → handle.new.parked.device ≡ handle.old.parked.device }
{
    let Some(mut device) = handle.take(alloc) else {
        return status(Err(Fault::NotOpen));
    };
    let done = device.on(now, *from, octets);
    handle.put(device);
    status(done)
}

/// A tick, at a moment in milliseconds.
#[unsafe(no_mangle)]
pub extern "C" fn bac_tick(alloc: Global, handle: &mut Handle, now: u64) -> u32
    ensures went { result ≡ DONE → HasRun (NodeTick now) handle.old.parked.device handle.new.parked.device }
    ensures status { IsTurnStatus now handle.old.parked.device result }
    ensures few { result ≤ NOT_STARTED }
    ensures err { result ≢ DONE → handle.new.parked.device ≡ handle.old.parked.device }
{
    let Some(mut device) = handle.take(alloc) else {
        return status(Err(Fault::NotOpen));
    };
    let done = device.tick(now);
    handle.put(device);
    status(done)
}

/// The first moment at which a tick does anything, in milliseconds; 2^64 - 1 where the handle holds no node that is started, or nothing is due.
#[unsafe(no_mangle)]
pub extern "C" fn bac_next_due(alloc: Global, handle: &mut Handle) -> u64
    ensures rests { IfSome handle.old.parked.device (λ d. IfSome d.node (RestsUntil result)) }
    ensures moves { result ≢ LAST_MOMENT → Holds (Runs (MovesAt result)) handle.old.parked.device }
    ensures same { handle.new.parked.device ≡ handle.old.parked.device }
{
    let Some(device) = handle.take(alloc) else {
        return u64::MAX;
    };
    let due = device.next_due();
    handle.put(device);
    due.unwrap_or(u64::MAX)
}
