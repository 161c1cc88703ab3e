//! The changes that make of the store of a document the store of the document as it is now.
ghost use Rattle.std.specs.Prelude.{◌≡◌, map, IfErr, IfOk, IsOk, None};
ghost use Rattle.bac_store.specs.Stores.{Store as Objects};
ghost use Rattle.bac_store.specs.Views.{change_view, object_view};
ghost use Rattle.bac_follow.specs.Following.{IsFollowFault, IsRefusal, all_news, first_refused, followed, made, other_object as other_object_of};

use crate::fault::FollowFault;
use crate::likeness::other_object;
use crate::news::news_of;
use bac_store::{Change, Object, Store};
use std::alloc::Global;

/// The stores that a document meant before, and means now.
#[derive(Clone, Copy)]
pub struct Documents<'a> {
    pub before: &'a Store,
    pub now: &'a Store,
}

/// A copy of a store, with all these changes.
fn made_of(alloc: Global, store: &Store, changes: &[Change]) -> Result<Store, FollowFault>
    ensures made { IfOk result (λ s. s ≡ made (map change_view changes.now) store.now) }
    ensures all { IsOk result → first_refused (map change_view changes.now) store.now ≡ None }
    ensures refused { IfErr result (IsRefusal (map change_view changes.now) store.now) }
{
    let mut store = store.copy(alloc)?;
    for change in changes {
        if let Err(fault) = store.change(alloc, change) {
            return Err(FollowFault::of(change, fault));
        }
    }
    Ok(store)
}

/// The changes that make of the store of a document before the one that it means now. `objects` are those that the document lists now, `served` those
/// that it listed before.
///
/// Made at any store, they give each property the document's values where those differ from what the document said before, each file its octets where they
/// differ, and leave all else: what a client wrote stays unless the document's own value changed.
///
/// `Cannot` for the first property or file that the served objects cannot give what the document says now, and `Other` where the documents differ in more than
/// values and octets, with the first object that does: then the server has to be started again to follow the document. `NoMemory` if an allocation fails.
#[tactic(auto, using(crate::proofs::Followed::follows))]
pub fn changes_between(
    alloc: Global,
    documents: Documents<'_>,
    served: &[Object],
    objects: &[Object],
) -> Result<Vec<Change>, FollowFault>
    ensures whole { IfOk result (λ v. made (map change_view v.items) documents.entry.before.now ≡ documents.entry.now.now) }
    ensures fault { IfErr result (IsFollowFault (all_news documents.entry.before.now documents.entry.now.now (map object_view objects.now)) documents.entry.before.now documents.entry.now.now
        (other_object_of (map object_view served.now) (map object_view objects.now))) }
    ensures followed { IfOk result (λ v. (s : Objects) → made (map change_view v.items) s ≡ followed documents.entry.before.now documents.entry.now.now s) }
{
    let changes = news_of(alloc, documents, objects)?;
    let store = made_of(alloc, documents.before, &changes)?;
    if !store.same(documents.now) {
        return Err(FollowFault::Other {
            object: other_object(served, objects),
        });
    }
    Ok(changes)
}
