//! Copies of the datagrams that nodes send.
ghost use Rattle.std.specs.Prelude.{◌≡◌, ◌≢◌, ◌↔◌, IsTrue, ℕ, ◌<◌, List, Some, None, IfSome, length, slice_get};
ghost use Rattle.bac_protocol.specs.Service.{Octets};
ghost use Rattle.bac_world.specs.Node.{Node};
ghost use Rattle.bac_world.specs.World.{IsCopied};
ghost use Rattle.bac_journal.specs.Views.{copy_view, AreLinks};

use crate::meaning::{meaning, transaction_of};
use crate::transaction::Transaction;
use bac_npdu::LinkAddress;
use bac_transaction::Datagram;

/// A datagram that was sent: when, in milliseconds, from which node to which, and in which transaction.
#[derive(Debug, Drop)]
pub struct Copy {
    /// The moment of its sending, in milliseconds.
    pub moment: u64,
    /// The node that sent it.
    pub from: usize,
    /// The node that it is for.
    pub to: usize,
    /// The transaction of the APDU in it.
    pub transaction: Transaction,
    /// The datagram.
    pub octets: Vec<u8>,
    /// How many copies of its transaction were sent before it.
    pub before: usize,
}

/// Whether two links are one.
fn is_link(one: LinkAddress, other: LinkAddress) -> bool
    ensures { IsTrue result ↔ (one ≡ other) }
{
    one == other
}

/// Whether a node is at that link.
fn is_at(links: &[LinkAddress], node: usize, link: LinkAddress) -> bool
    ensures { IsTrue result ↔ (slice_get links.now node ≡ Some link) }
{
    match links.get(node) {
        Some(other) => is_link(*other, link),
        None => false,
    }
}

/// The node at a link, if there is one.
pub(crate) fn node_at(links: &[LinkAddress], link: LinkAddress) -> Option<usize>
    ensures some { IfSome result (λ n. slice_get links.now n ≡ Some link) }
    ensures none { result ≡ None → (n : ℕ) → slice_get links.now n ≢ Some link }
{
    for n in 0..links.len() {
        if is_at(links, n, link) {
            return Some(n);
        }
    }
    None
}

/// What a datagram becomes that a node sends, where it means an APDU and goes to a node.
pub(crate) fn copy_of(
    links: &[LinkAddress],
    now: u64,
    sender: usize,
    datagram: Datagram,
) -> Option<Copy>
    requires sender { sender < length links.now }
    ensures some { (nodes : List Node) → AreLinks nodes links.now → IfSome result (λ c. IsCopied nodes now sender datagram (copy_view c)) }
    ensures fits { IfSome result (λ c. c.transaction.invoke_id < 256) }
    ensures none { (nodes : List Node) → AreLinks nodes links.now → (c : _) → IsCopied nodes now sender datagram c → result ≢ None }
{
    let to = node_at(links, datagram.to())?;
    let apdu = meaning(links[sender], datagram.octets())?;
    let transaction = transaction_of(sender, to, &apdu);
    Some(Copy {
        moment: now,
        from: sender,
        to,
        transaction,
        octets: datagram.into_octets(),
        before: 0,
    })
}
