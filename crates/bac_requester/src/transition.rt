//! What one event makes one transaction do: send datagrams, and perhaps end.
//!
//! The handlers of the states (`await_confirmation`, `segmented_request`, `segmented_conf`, `transaction_tick`) return it, and the requester turns it
//! into a [`Reaction`](crate::Reaction). Nothing here is public, so all of it may change with those files.
ghost use Rattle.std.specs.Prelude.{◌≡◌, [], Some, None};
ghost use Rattle.bac_protocol.specs.Client.Reaction.{Stays};
ghost use Rattle.bac_requester.specs.Transitions.{MakesTransition};

use crate::ending::Ending;
use crate::transaction::ClientTransaction;
use bac_transaction::{Context, Datagram};
use std::alloc::Global;

/// What one event makes a transaction send, and how it ends the transaction.
#[derive(Drop)]
pub(crate) struct Transition {
    /// The datagrams to send, in order.
    pub(crate) sends: Vec<Datagram>,
    /// How the transaction ends, if it does.
    pub(crate) ending: Option<Ending>,
}

/// A transition that ends the transaction.
#[derive(Drop)]
pub(crate) struct Closing {
    /// The last datagrams to send, in order.
    pub(crate) sends: Vec<Datagram>,
    /// How the transaction ends.
    pub(crate) ending: Ending,
}

/// No datagram and no ending.
pub(crate) fn nothing(alloc: Global) -> Transition
    ensures sends { result.sends.items ≡ [] }
    ensures ending { result.ending ≡ None }
{
    Transition {
        sends: Vec::new(alloc),
        ending: None,
    }
}

/// The transaction does not change.
pub(crate) fn stays(alloc: Global, context: &Context, transaction: &ClientTransaction) -> Transition
    ensures { MakesTransition context.now transaction.now Stays result transaction.now }
{
    // so that the prover sees that it is open
    let _phase = &transaction.phase;
    nothing(alloc)
}

/// The transaction ends, and sends nothing.
pub(crate) fn ends(alloc: Global, ending: Ending) -> Transition
    ensures sends { result.sends.items ≡ [] }
    ensures ending { result.ending ≡ Some ending }
{
    Transition {
        sends: Vec::new(alloc),
        ending: Some(ending),
    }
}

/// The transaction ends, with these last datagrams.
pub(crate) fn closes(closing: Closing) -> Transition
    ensures sends { result.sends.items ≡ closing.sends.items }
    ensures ending { result.ending ≡ Some closing.ending }
{
    Transition {
        sends: closing.sends,
        ending: Some(closing.ending),
    }
}
