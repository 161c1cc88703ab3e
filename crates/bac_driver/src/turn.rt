//! What a turn returns. Observers and programs read the fields: a change of them is a change of the interface.
ghost use Rattle.std.specs.Prelude.{◌≡◌, ◌≤◌};
ghost use Rattle.std.specs.Option.{option_map};
ghost use Rattle.bac_node.specs.Views.{cause_view, outcome_view, performed_view};
ghost use Rattle.bac_driver.specs.Serving.{count_of};
ghost use Rattle.bac_driver.specs.Turns.{dropped_of, performed_of, sends_of, skipped_in};
ghost use Rattle.bac_driver.specs.Views.{turn_view};

use bac_node::{Act, Cause, Outcome};
use bac_npdu::LinkAddress;
use bac_transaction::Datagram;

/// The sender of the datagram that came, and how many octets it has: they are the first of `BoundNode::buffer`. None where no datagram came.
pub(crate) type Received = Option<(LinkAddress, usize)>;

/// What a turn of a bound node returns. All that it sends has been handed to the link; in a round it is handed over when the round is kept.
#[derive(Drop)]
pub struct Turn {
    /// The moment at which the node acted, in milliseconds.
    pub at: u64,
    /// The sender of the datagram that came, and how many octets it has: they are the first of `BoundNode::buffer`. None where no datagram came.
    pub received: Option<(LinkAddress, usize)>,
    /// What the node returned for the datagram. None where no datagram came, or where taking it failed to allocate: then it changed nothing, and the datagram
    /// is lost.
    pub heard: Option<Outcome>,
    /// What its tick returned. None where the tick failed to allocate: then it changed nothing, and the next turn ticks again. A node that gets no memory may
    /// report that in each turn, for ever.
    pub ticked: Option<Outcome>,
    /// How many sends failed, at most 2^64 - 1. 0 in a round, whose sends come later.
    pub lost: u64,
}

impl Turn {
    /// Why the node dropped the datagram that came, if it did.
    pub fn dropped(&self) -> Option<&Cause>
        ensures { option_map (λ c. cause_view c.now) result ≡ dropped_of (turn_view self.now).heard }
    {
        match &self.heard {
            Some(outcome) => outcome.dropped.as_ref(),
            None => None,
        }
    }

    /// The request that the node performed, with its reply, if it performed one. A tick performs none.
    pub fn effect(&self) -> Option<&Act>
        ensures { option_map (λ a. performed_view a.now) result ≡ performed_of (turn_view self.now).heard }
    {
        match &self.heard {
            Some(outcome) => outcome.effect.as_ref(),
            None => None,
        }
    }

    /// How many requests the node performed: 0 or 1.
    pub(crate) fn effects(&self) -> u64
        ensures number { result ≡ count_of (performed_of (turn_view self.now).heard) }
        ensures few { result ≤ 1 }
    {
        match self.effect() {
            Some(_) => 1,
            None => 0,
        }
    }

    /// How many of the two steps, to take the datagram that came and to tick, failed to allocate: 0 to 2.
    pub fn skipped(&self) -> u8
        ensures { result ≡ skipped_in (turn_view self.now) }
    {
        let is_unheard = self.received.is_some() && self.heard.is_none();
        u8::from(is_unheard) + u8::from(self.ticked.is_none())
    }
}

/// The datagrams that one step of a turn, `heard` or `ticked`, has sent, in order; none where it is None.
pub fn sends_of(step: &Option<Outcome>) -> &[Datagram]
    ensures { result.now ≡ sends_of (option_map outcome_view step.now) }
{
    match step {
        Some(outcome) => &outcome.sends,
        None => &[],
    }
}
