//! Which transactions are printed, and which findings.
ghost use Rattle.std.specs.Prelude.{◌≡◌};
ghost use Rattle.std.specs.Option.{option_map};
ghost use Rattle.bac_npdu.specs.Views.{peer_view};
ghost use Rattle.bac_explain.specs.Closings.{closed_view};
ghost use Rattle.bac_explain.specs.KeyViews.{key_view};
ghost use Rattle.bac_explain.specs.SentViews.{sent_view};
ghost use Rattle.bac_explain.specs.Views.{transaction_view};
ghost use Rattle.bac_explain_report.specs.Selections.{exceeds, has_finding, has_peer, is_at, is_host, is_narrow, is_port, is_printed, is_repeated, is_sent_again, is_slow_enough, is_slower, is_wrong, passes, shown, takes_alone};

use crate::ending::{delay_of, is_refused, is_unanswered};
use bac_explain::{Closed, Sent, Transaction, TransactionKey};
use bac_npdu::{LinkAddress, Peer};

/// The address of a client or a server: an IPv4 address, and a UDP port or any. A peer behind a router has the router's.
#[derive(Clone, Copy, Debug)]
pub struct PeerFilter {
    /// The IPv4 address, the octet that is written first at the front.
    pub host: [u8; 4],
    /// The UDP port; None for any.
    pub port: Option<u16>,
}

/// Which transactions are printed: those that pass each filter that is given.
#[derive(Clone, Copy, Debug)]
pub struct Selection {
    /// Only those without an answer: its end was not seen, nor an Abort of the server. The client may have given up.
    pub unanswered: bool,
    /// Only those that ended by an Error, a Reject or an Abort.
    pub errors: bool,
    /// Only those whose request, or a segment of it, was sent more than once, with an answer or without. Segments are counted, not told apart, so one that came
    /// again is not seen where the capture lacks as many others of its request.
    pub repeated: bool,
    /// Only those with a finding.
    pub findings: bool,
    /// Only those whose answer began more than so many milliseconds after the request, and those without an answer.
    pub slower: Option<u64>,
    /// Only those whose client or server has this address.
    pub peer: Option<PeerFilter>,
}

/// What a report prints, and what counts as a fault.
#[derive(Clone, Copy, Debug)]
pub struct ReportOptions {
    /// The transactions that are printed.
    pub selection: Selection,
    /// Whether the status is that of the printed transactions, and an unanswered one is a fault.
    pub strict: bool,
    /// Whether a transaction in words has the numbers of its frames; other forms have them anyway.
    pub frames: bool,
    /// Whether another request with the invoke ID of a transaction that is over is a finding, for 65,000 ms.
    pub strict_ids: bool,
    /// Whether a transaction is printed once it is over, and what follows of it has lines of its own; otherwise it is printed when it is closed.
    pub early: bool,
    /// Whether what is printed of a frame goes out at once.
    pub flush: bool,
}

fn is_host(host: [u8; 4], link: LinkAddress) -> bool
    ensures { result ≡ is_host host link }
{
    link[0] == host[0] && link[1] == host[1] && link[2] == host[2] && link[3] == host[3]
}

fn is_port(port: Option<u16>, link: LinkAddress) -> bool
    ensures { result ≡ is_port port link }
{
    match port {
        None => true,
        Some(port) => u32::from(link[4]) * 256 + u32::from(link[5]) == u32::from(port),
    }
}

impl PeerFilter {
    /// Whether a peer has this address.
    fn is_at(self, peer: Peer) -> bool
        ensures { result ≡ is_at self (peer_view peer) }
    {
        is_host(self.host, peer.link) && is_port(self.port, peer.link)
    }
}

/// Whether the client or the server of a transaction has this address, if one is given.
fn has_peer(peer: Option<PeerFilter>, key: TransactionKey) -> bool
    ensures { result ≡ has_peer peer (key_view key) }
{
    match peer {
        None => true,
        Some(filter) => filter.is_at(key.client) || filter.is_at(key.server),
    }
}

fn has_finding(transaction: &Transaction) -> bool
    ensures { result ≡ has_finding (transaction_view transaction.now) }
{
    transaction.findings > 0
}

/// Whether a request was sent more than once, or a segment of it: its first APDU was seen again, or more of its other segments were seen
/// than precede the last one.
fn is_sent_again(request: &Sent) -> bool
    ensures { result ≡ is_sent_again (sent_view request.now) }
{
    request.times > 1 || request.segments > request.index
}

fn is_repeated(transaction: &Transaction) -> bool
    ensures { result ≡ is_repeated (transaction_view transaction.now) }
{
    is_sent_again(&transaction.request)
}

/// Whether a delay is longer than so many milliseconds; true without one.
fn exceeds(limit: u64, delay: Option<u64>) -> bool
    ensures { result ≡ exceeds limit delay }
{
    match delay {
        None => true,
        Some(delay) => delay > limit,
    }
}

/// Whether the answer took longer than that, if a limit is given.
fn is_slow_enough(slower: Option<u64>, transaction: &Transaction) -> bool
    ensures { result ≡ is_slow_enough slower (transaction_view transaction.now) }
{
    match slower {
        None => true,
        Some(limit) => is_unanswered(transaction) || exceeds(limit, delay_of(transaction)),
    }
}

/// Whether a strict report counts a transaction as wrong: it is unanswered, or has a finding.
pub(crate) fn is_wrong(transaction: &Transaction) -> bool
    ensures { result ≡ is_wrong (transaction_view transaction.now) }
{
    is_unanswered(transaction) || has_finding(transaction)
}

/// Whether a transaction is printed when it is closed, or was told before.
pub(crate) fn is_printed(
    selection: Selection,
    key: TransactionKey,
    transaction: &Transaction,
) -> bool
    ensures { result ≡ is_printed selection (key_view key) (transaction_view transaction.now) }
{
    transaction.told || selection.passes(key, transaction)
}

impl Selection {
    /// All transactions.
    pub const ALL: Selection = Selection {
        unanswered: false,
        errors: false,
        repeated: false,
        findings: false,
        slower: None,
        peer: None,
    };

    /// Whether a filter is given.
    pub(crate) fn is_narrow(self) -> bool
        ensures { result ≡ is_narrow self }
    {
        self.unanswered
            || self.errors
            || self.repeated
            || self.findings
            || self.slower.is_some()
            || self.peer.is_some()
    }

    /// Whether a transaction passes each filter that is given.
    pub fn passes(self, key: TransactionKey, transaction: &Transaction) -> bool
        ensures { result ≡ passes self (key_view key) (transaction_view transaction.now) }
    {
        (!self.unanswered || is_unanswered(transaction))
            && (!self.errors || is_refused(transaction))
            && (!self.repeated || is_repeated(transaction))
            && (!self.findings || has_finding(transaction))
            && is_slow_enough(self.slower, transaction)
            && has_peer(self.peer, key)
    }

    /// A closed transaction, if it passes and was not told before.
    pub(crate) fn shown(self, closed: Option<Closed>) -> Option<Closed>
        ensures { option_map closed_view result ≡ shown self (option_map closed_view closed) }
    {
        let closed = closed?;
        let told = closed.transaction.told;
        if !told && self.passes(closed.key, &closed.transaction) {
            Some(closed)
        } else {
            None
        }
    }

    /// Whether an answer to no request between the peers of this key is printed.
    pub(crate) fn takes_alone(self, key: TransactionKey) -> bool
        ensures { result ≡ takes_alone self (key_view key) }
    {
        !self.unanswered
            && !self.errors
            && !self.repeated
            && self.slower.is_none()
            && has_peer(self.peer, key)
    }
}
