//! How the transactions of each server ended.
ghost use Rattle.std.specs.Prelude.{◌≡◌, ◌≤◌, ◌<◌, OnOk, length, map};
ghost use Rattle.std.specs.Option.{option_map};
ghost use Rattle.bac_explain.specs.Closings.{closed_view};
ghost use Rattle.bac_npdu.specs.Views.{peer_view};
ghost use Rattle.bac_explain_report.specs.Counting.{with_device, with_devices};
ghost use Rattle.bac_explain_report.specs.DeviceViews.{device_view};
ghost use Rattle.bac_explain_report.specs.Devices.{counted, counted_in, counting, place_of};
ghost use Rattle.bac_explain_report.specs.Totals.{none};

use crate::ending::{Ending, delay_of, ending_of};
use crate::totals::Totals;
use bac_explain::Closed;
use bac_npdu::Peer;
use std::alloc::AllocError;

/// The greatest number of servers whose transactions are counted by server (own).
pub const MOST_DEVICES: usize = 4_096;

/// A server, and how its transactions ended.
#[derive(Clone, Copy, Debug)]
pub struct Device {
    pub server: Peer,
    pub totals: Totals,
}

impl Device {
    /// With one more transaction.
    fn counting(self, ending: Ending, delay: Option<u64>) -> Device
        ensures { device_view result ≡ counting ending delay (device_view self) }
    {
        Device {
            server: self.server,
            totals: self.totals.with_one(ending, delay),
        }
    }
}

/// The place of a server; the number of devices if it has none.
fn place_of(server: Peer, devices: &[Device]) -> usize
    ensures place { result ≡ place_of (peer_view server) (map device_view devices.now) }
    ensures bound { result ≤ length devices.now }
{
    for place in 0..devices.len() {
        if devices[place].server == server {
            return place;
        }
    }
    devices.len()
}

impl Device {
    /// A server of which no transaction was counted.
    fn new(server: Peer) -> Device
        ensures { device_view result ≡ record { server = peer_view server; totals = none } }
    {
        Device {
            server,
            totals: Totals::none(),
        }
    }
}

/// Counts one more transaction of the device at that place.
#[tactic(auto, using(crate::proofs::Counted::set_at))]
fn count_at(
    devices: &mut Vec<Device>,
    place: usize,
    server: Peer,
    ending: Ending,
    delay: Option<u64>,
)
    requires there { place < length devices.old.items }
    requires place { place ≡ place_of (peer_view server) (map device_view devices.old.items) }
    ensures { map device_view devices.new.items ≡ counted_in (peer_view server) ending delay (map device_view devices.old.items) }
{
    devices[place] = devices[place].counting(ending, delay);
}

/// Counts the first transaction of a server.
#[tactic(auto, using(crate::proofs::Counted::add_at))]
fn count_first(
    devices: &mut Vec<Device>,
    server: Peer,
    ending: Ending,
    delay: Option<u64>,
) -> Result<(), AllocError>
    requires { place_of (peer_view server) (map device_view devices.old.items) ≡ length devices.old.items }
    ensures { OnOk result (map device_view devices.new.items ≡ counted_in (peer_view server) ending delay (map device_view devices.old.items)) }
{
    let device = Device::new(server);
    devices.push(device.counting(ending, delay))?;
    Ok(())
}

/// Counts one more transaction of a server.
fn count(
    devices: &mut Vec<Device>,
    server: Peer,
    ending: Ending,
    delay: Option<u64>,
) -> Result<(), AllocError>
    ensures { OnOk result (map device_view devices.new.items ≡ counted (peer_view server) ending delay (map device_view devices.old.items)) }
{
    let place = place_of(server, devices);
    if place >= MOST_DEVICES {
        return Ok(());
    }
    if place < devices.len() {
        count_at(devices, place, server, ending, delay);
        return Ok(());
    }
    count_first(devices, server, ending, delay)
}

/// Counts a closed transaction at its server.
pub(crate) fn count_closed(devices: &mut Vec<Device>, closed: &Closed) -> Result<(), AllocError>
    ensures { OnOk result (map device_view devices.new.items ≡ with_device (closed_view closed.now) (map device_view devices.old.items)) }
{
    let transaction = &closed.transaction;
    count(
        devices,
        closed.key.server,
        ending_of(transaction),
        delay_of(transaction),
    )
}

/// Counts a closed transaction at its server, if there is one.
fn count_one(devices: &mut Vec<Device>, closed: &Option<Closed>) -> Result<(), AllocError>
    ensures { OnOk result (map device_view devices.new.items ≡ with_devices (option_map closed_view closed.now) (map device_view devices.old.items)) }
{
    match closed {
        Some(closed) => count_closed(devices, closed),
        None => Ok(()),
    }
}

/// Counts two closed transactions at their servers, as far as they are there.
pub(crate) fn count_both(
    devices: &mut Vec<Device>,
    first: &Option<Closed>,
    second: &Option<Closed>,
) -> Result<(), AllocError>
    ensures { OnOk result (map device_view devices.new.items
        ≡ with_devices (option_map closed_view second.now) (with_devices (option_map closed_view first.now) (map device_view devices.old.items))) }
{
    count_one(devices, first)?;
    count_one(devices, second)
}
