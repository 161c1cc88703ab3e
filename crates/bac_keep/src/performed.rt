//! Noting a request by its reply.
ghost use Rattle.std.specs.Prelude.{◌≡◌, IfErr, OnOk};
ghost use Rattle.bac_service.specs.Views.{reply_view, request_view};
ghost use Rattle.bac_store.specs.Changes.{after, is_done as is_done_in};
ghost use Rattle.bac_store.specs.Replies.{reply_to};
ghost use Rattle.bac_store.specs.Stores.{Store as Objects};
ghost use Rattle.bac_keep.specs.Causes.{IsUnnoted};
ghost use Rattle.bac_keep.specs.Made.Made.{Performed};

use crate::fault::KeepFault;
use crate::keeper::Keeper;
use crate::made::Made;
use bac_service::{AnyReply, Reply, Request};
use bac_store::{Store, writes_change_one_thing};

/// Whether a request with this reply is performed: the reply is not an Error.
fn is_done(reply: Reply<'_>) -> bool
    ensures { result ≡ is_done_in (reply_view reply.entry) }
{
    match reply {
        AnyReply::Simple | AnyReply::Complex(_) => true,
        AnyReply::Error { .. } | AnyReply::Reject(_) => false,
    }
}

/// Notes a request that a node got, by its reply; the store is what it is now. A request whose reply is an Error changed nothing.
pub fn note_request<K: Keeper>(
    keeper: &mut K,
    request: Request<'_>,
    reply: Reply<'_>,
    store: &Store,
) -> Result<(), KeepFault>
    requires open { K.IsHonest keeper.old → K.IsOpen keeper.old }
    requires made { K.IsHonest keeper.old → store.now ≡ after (K.noted keeper.old) (request_view request) }
    requires reply { K.IsHonest keeper.old → reply_view reply ≡ reply_to (K.noted keeper.old) (request_view request) }
    ensures honest { K.IsHonest keeper.new → K.IsHonest keeper.old }
    ensures open { OnOk result (K.IsHonest keeper.new → K.IsOpen keeper.new) }
    ensures noted { OnOk result (K.IsHonest keeper.new → K.noted keeper.new ≡ store.now) }
    ensures kept { OnOk result (K.IsHonest keeper.new → K.kept keeper.new ≡ K.kept keeper.old) }
    ensures refused { IfErr result (λ e. K.IsHonest keeper.new → IsUnnoted (Performed (request_view request.entry)) (K.failed keeper.old keeper.new) e) }
    ensures crash { K.IsHonest keeper.new → (s : Objects) → K.may_find keeper.new s → K.may_find keeper.old s }
    ensures base { K.base keeper.new ≡ K.base keeper.old }
{
    // a request whose reply is an Error changes nothing
    writes_change_one_thing();
    if !is_done(reply) {
        return Ok(());
    }
    keeper.note(&Made::Performed(request), store)?;
    Ok(())
}
