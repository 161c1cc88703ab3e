//! The commit of a performance that was prepared (replying). Nothing else changes the store.
ghost use Rattle.std.specs.Prelude.{◌≡◌};
ghost use Rattle.bac_responder.specs.Preparing.{CanCommit, IsCommitted};
ghost use Rattle.bac_transaction.specs.Services.{store_after};
ghost use Rattle.bac_responder.specs.TransactionViews.{performed_view};

use crate::effect::Effect;
use crate::replying::Commit;
use bac_store::Store;

/// Performs a request that was prepared, if any. It takes no memory.
pub(crate) fn commit(commit: Option<Commit>, store: &mut Store) -> Option<Effect>
    requires { CanCommit store.old commit }
    ensures effect { IsCommitted store.old commit (performed_view result) }
    ensures store { store.new ≡ store_after store.old (performed_view result) }
{
    match commit {
        None => None,
        Some(Commit { request, plan }) => {
            let reply = store.commit(plan);
            Some(Effect { request, reply })
        }
    }
}
