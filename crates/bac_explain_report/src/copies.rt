//! The last datagrams that were drawn, to find repetitions.
ghost use Rattle.std.specs.Prelude.{◌≡◌, IfOk, OnOk, map};
ghost use Rattle.bac_explain_report.specs.Copies.{are_same, is_again, is_copy, with_drawn};
ghost use Rattle.bac_explain_report.specs.CopyViews.{drawn_view};

use bac_protocol::times::KEEP;
use std::alloc::AllocError;

/// The greatest number of datagrams that are kept: sequence numbers, which wrap at 256, do not repeat among so few.
pub(crate) const MOST_KEPT: usize = 255;

/// A datagram that was drawn.
#[derive(Drop)]
pub(crate) struct Drawn {
    /// When it was seen, in milliseconds.
    pub moment: u64,
    /// The column of its sender.
    pub from: u64,
    /// The column of its receiver.
    pub to: u64,
    /// The octets of its APDU.
    pub octets: Vec<u8>,
}

fn are_same(one: &[u8], other: &[u8]) -> bool
    ensures { result ≡ are_same one.now other.now }
{
    one == other
}

impl Drawn {
    /// Whether it repeats this earlier one: the same octets in the same direction, at most 65,000 ms before.
    fn is_copy(&self, earlier: &Drawn) -> bool
        ensures { result ≡ is_copy (drawn_view self.now) (drawn_view earlier.now) }
    {
        earlier.from == self.from
            && earlier.to == self.to
            && self.moment.saturating_sub(earlier.moment) <= KEEP
            && are_same(&earlier.octets, &self.octets)
    }

    /// Whether it repeats one of these.
    pub(crate) fn is_again(&self, drawn: &[Drawn]) -> bool
        ensures { result ≡ is_again (drawn_view self.now) (map drawn_view drawn.now) }
    {
        for earlier in drawn {
            if self.is_copy(earlier) {
                return true;
            }
        }
        false
    }
}

/// Keeps a datagram, in place of the oldest if the greatest number is kept.
pub(crate) fn keep(datagram: Drawn, drawn: &mut Vec<Drawn>) -> Result<(), AllocError>
    ensures { OnOk result (map drawn_view drawn.new.items ≡ with_drawn (drawn_view datagram) (map drawn_view drawn.old.items)) }
{
    if drawn.len() >= MOST_KEPT {
        drawn.remove(0);
    }
    drawn.push(datagram)?;
    Ok(())
}
