//! The progress of an ask, on a terminal.
ghost use Rattle.std.specs.Prelude.{⊤};

use bac_driver::{Node, Observer, Turn, sends_of};
use bac_transaction::Datagram;
use std::io::Write;

/// How many milliseconds pass at least before progress is shown, and from one time to the next.
const BETWEEN: u64 = 250;

/// Shows on one line of a terminal how many octets of datagrams the turns of an ask have sent and received; nothing of an ask that ends soon.
#[derive(Drop)]
pub(crate) struct Progress {
    /// Whether there is a terminal.
    is_shown: bool,
    sent: usize,
    received: usize,
    /// The next moment at which it is shown; None before the first turn.
    due: Option<u64>,
    /// Whether the line has something.
    is_begun: bool,
}

fn octets_of(datagrams: &[Datagram]) -> usize {
    let mut octets = 0usize;
    for datagram in datagrams {
        octets = octets.saturating_add(datagram.octets().len());
    }
    octets
}

impl Progress {
    /// The progress of an ask that takes its first turn next.
    pub(crate) fn new(is_shown: bool) -> Progress {
        Progress {
            is_shown,
            sent: 0,
            received: 0,
            due: None,
            is_begun: false,
        }
    }

    fn count(&mut self, turn: &Turn) {
        self.sent = self
            .sent
            .saturating_add(octets_of(sends_of(&turn.heard)))
            .saturating_add(octets_of(sends_of(&turn.ticked)));
        if let Some((_, len)) = turn.received {
            self.received = self.received.saturating_add(len);
        }
    }

    /// Whether it is shown at a moment, in milliseconds; the first turn begins the time until then.
    fn is_due(&mut self, now: u64) -> bool {
        let is_due = match self.due {
            Some(due) => due <= now,
            None => false,
        };
        if is_due || self.due.is_none() {
            self.due = Some(now.saturating_add(BETWEEN));
        }
        is_due
    }

    /// Empties the line, where it has something. A terminal that cannot be written shows nothing.
    pub(crate) fn end<W: Write>(self, out: &mut W) {
        if self.is_begun {
            let _ = out.write_all(b"\r\x1b[K");
        }
    }
}

impl<W: Write> Observer<W> for Progress {
    ghost State = { Unit {0} };

    ghost state = { λ _ _. tt };

    ghost Sees = { λ _ _ _. ⊤ };

    fn on_turn(&mut self, _node: &Node, _buffer: &[u8], turn: &Turn, out: &mut W) {
        if !self.is_shown {
            return;
        }
        self.count(turn);
        if self.is_due(turn.at) {
            self.is_begun = true;
            let sent = self.sent;
            let received = self.received;
            // a terminal that cannot be written shows nothing
            let _ = write!(out, "\r{sent} octets sent, {received} received\x1b[K");
        }
    }
}
