//! Laws of the definitions: empty functions whose contracts are the laws.
ghost use Rattle.std.specs.Prelude.{◌≡◌, ◌≢◌, ◌≤◌, ℕ, ℤ, false, true, List, None, Option, Some};
ghost use Rattle.bac_service.specs.Choices.{is_read_choice};
ghost use Rattle.bac_service.specs.Values.{choice_of, Reference, Request};
ghost use Rattle.bac_service.specs.Values.Request.{WriteFile, WriteProperty};
ghost use Rattle.bac_service.specs.Values.WriteAccess.{WriteStream};
ghost use Rattle.bac_value.specs.Data.{IsData};
ghost use Rattle.bac_value.specs.Value.{ObjectId};
ghost use Rattle.bac_value.specs.Octets.{IsBytes};
ghost use Rattle.bac_store.specs.AtNode.{change_fault, changed, whole, Change};
ghost use Rattle.bac_store.specs.Changes.{after, is_done, IsGranted, resized, size_of};
ghost use Rattle.bac_store.specs.Kinds.{kind_of, IsOneValue};
ghost use Rattle.bac_store.specs.Limits.{FILE_SIZE};
ghost use Rattle.bac_store.specs.Objects.{IsStoreOf};
ghost use Rattle.bac_store.specs.Replies.{reply_to};
ghost use Rattle.bac_store.specs.ReplyKinds.{FitsChoice};
ghost use Rattle.bac_store.specs.ReplyLengths.{DATA_LIMIT, reply_length};
ghost use Rattle.bac_store.specs.Stores.{Store as Objects};
ghost use Rattle.bac_store.specs.Writes.{IsFileChange, IsFileWrite, IsValueWrite};

use crate::store::Store;

/// The kind of octets that encode one application value is the number in its tag; other octets have no kind.
pub fn kinds_are_values()
    ensures value { (values : List ℕ) (k : ℕ) → IsOneValue k values → kind_of values ≡ Some k }
    ensures only { (values : List ℕ) (k : ℕ) → IsBytes values → kind_of values ≡ Some k → IsOneValue k values }
{}

/// Replies, and the store after a request, depend only on what is found by identifier and number: the order of objects and of
/// their properties is irrelevant.
pub fn order_says_nothing()
    ensures replies { (objects s : Objects) → IsStoreOf objects s → (r : Request) → reply_to s r ≡ reply_to objects r }
    ensures after { (objects s : Objects) → IsStoreOf objects s → (r : Request) → IsStoreOf (after objects r) (after s r) }
{}

/// A write whose reply is not an Error changes the values of one listed property, or the octets of one file, and nothing else. A new file-size cuts
/// the file, or makes it longer by zeros. A read, and a request whose reply is an Error, change nothing.
pub fn writes_change_one_thing()
    ensures values { (s : Objects) (r : Reference) (values : List ℕ) (priority : Option ℕ) → r.property ≢ FILE_SIZE
        → IsGranted s (WriteProperty r values priority) → IsValueWrite r values s (after s (WriteProperty r values priority)) }
    ensures size { (s : Objects) (r : Reference) (values : List ℕ) (priority : Option ℕ) → r.property ≡ FILE_SIZE
        → IsGranted s (WriteProperty r values priority)
        → IsFileChange r.object (resized (size_of values)) s (after s (WriteProperty r values priority)) }
    ensures octets { (s : Objects) (id : ObjectId) (start : ℤ) (octets : List ℕ) → IsGranted s (WriteFile id (WriteStream start octets))
        → IsFileWrite id start octets s (after s (WriteFile id (WriteStream start octets))) }
    ensures refused { (s : Objects) (r : Request) → is_done (reply_to s r) ≡ false → after s r ≡ s }
    ensures read { (s : Objects) (r : Request) → is_read_choice (choice_of r) ≡ true → after s r ≡ s }
{}

/// A local change gives one listed property new values, or one file new octets, and changes nothing else: flags and kinds stay.
/// Data that may be written over the network to a listed property can also be set by the node, with the same effect.
pub fn changes_change_one_thing()
    ensures value { (s : Objects) (id : ObjectId) (n : ℕ) (octets : List ℕ)
        → IsValueWrite (whole id n) octets s (changed (Change.Value id n octets) s) }
    ensures file { (s : Objects) (id : ObjectId) (octets : List ℕ) → IsFileChange id (λ _. octets) s (changed (Change.File id octets) s) }
    ensures granted { (s : Objects) (r : Reference) (values : List ℕ) (priority : Option ℕ) → r.property ≢ FILE_SIZE → IsData values
        → IsGranted s (WriteProperty r values priority) → change_fault s (Change.Value r.object r.property values) ≡ None }
    ensures same { (s : Objects) (r : Reference) (values : List ℕ) (priority : Option ℕ) → r.property ≢ FILE_SIZE
        → IsGranted s (WriteProperty r values priority) → after s (WriteProperty r values priority) ≡ changed (Change.Value r.object r.property values) s }
{}

/// A reply of a store is never a Reject, and fits the service choice of its request. It is an Error, or a SimpleACK to WriteProperty, or a ComplexACK
/// with that choice to the other three.
pub fn replies_fit_requests()
    ensures { (s : Objects) (r : Request) → FitsChoice (choice_of r) (reply_to s r) }
{}

/// No reply of a store has more octets of service data than can be sent, in one APDU or in segments.
pub fn replies_can_be_sent(store: &Store)
    ensures { (r : Request) → reply_length (reply_to store.now r) ≤ DATA_LIMIT }
{
    // the law depends on the invariant of the store's fields
    let _objects = &store.objects;
}
