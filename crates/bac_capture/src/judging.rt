//! Checking a frame.
ghost use Rattle.bac_capture.specs.BlockViews.{frame_view};
ghost use Rattle.bac_capture.specs.Judged.{IsDatagramVerdict, IsVerdict};

use crate::check_fault::{CapturedFault, Verdict};
use crate::{Frame, LinkKind, OtherBvll, Ports, read_frame};
use bac_text::{check_datagram, function_in};

fn judge_datagram(datagram: &[u8]) -> Verdict
    ensures { IsDatagramVerdict datagram.now result }
{
    if let Some(other) = OtherBvll::of(datagram) {
        return Verdict::Other(other);
    }
    match check_datagram(datagram) {
        Ok(()) => Verdict::Good,
        Err(fault) => {
            let function = function_in(datagram);
            Verdict::Bad(CapturedFault::Datagram { fault, function })
        }
    }
}

/// Checks a frame, by the number of its link layer and its octets: whether it carries a datagram of BACnet/IP at these ports, and whether that has a fault.
pub fn judge(frame: Frame<'_>, ports: Ports) -> Verdict
    ensures { IsVerdict ports.also (frame_view frame.entry) result }
{
    let Some(link) = LinkKind::of(frame.link) else {
        return Verdict::Bad(CapturedFault::Link);
    };
    match read_frame(link, ports, frame.octets) {
        Ok(None) => Verdict::Nothing,
        Ok(Some(datagram)) => judge_datagram(datagram.octets),
        Err(fault) => Verdict::Bad(CapturedFault::Packet(fault)),
    }
}
