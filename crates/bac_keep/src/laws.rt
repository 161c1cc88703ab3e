//! Laws of the definitions: empty functions whose contracts are the laws.
ghost use Rattle.std.specs.Prelude.{◌≡◌, ◌⊎◌, ◌<◌, ◌≤◌, ◌*◌, true, Some, ℕ, List, length};
ghost use Rattle.bac_value.specs.Value.{ObjectId};
ghost use Rattle.bac_store.specs.Changes.{with_object, with_octets, with_values};
ghost use Rattle.bac_store.specs.Kept.{IsInOrder};
ghost use Rattle.bac_store.specs.Stores.{File, Property, Store as Objects};
ghost use Rattle.bac_store.specs.Writes.{file_at, listed_at};
ghost use Rattle.bac_keep.specs.Cells.{Cells, Fits, NUMBERS, value_place, with_cell};
ghost use Rattle.bac_keep.specs.Overlay.{CHUNK, overlay, with_file};

use crate::keeper::Keeper;

/// What a document and its cells make changes with the cells as the store changes. New values of a writable property are one cell, and new octets of
/// a writable file are its chunks and their number.
pub fn cells_are_writes()
    ensures value { (document : Objects) (cells : Cells) (id : ObjectId) (n : ℕ) (values : List ℕ) (p : Property) → IsInOrder document → Fits id
        → n < NUMBERS → listed_at document id n ≡ Some p → p.writable ≡ true
        → overlay (with_cell (value_place id n) values cells) document ≡ with_object id (with_values n values) (overlay cells document) }
    ensures octets { (document : Objects) (cells : Cells) (id : ObjectId) (octets : List ℕ) (count : ℕ) (f : File) → IsInOrder document → Fits id
        → count < 256 → length octets ≤ count * CHUNK → file_at document id ≡ Some f → f.writable ≡ true
        → overlay (with_file id octets count cells) document ≡ with_object id (with_octets (λ _. octets)) (overlay cells document) }
{}

/// A power cut after notes and one `keep` leaves one of two stores: the one that was kept before the notes, or the one with all of them. No call of
/// `first` has failed, `mid` is the keeper after the notes, and `last` the one after the `keep`, at Ok and Err alike.
pub fn power_cuts_leave_one_of_two<K: Keeper>()
    ensures { (first mid last : K) → K.IsHonest first → K.IsOpen first
        → ((s : Objects) → K.may_find mid s → K.may_find first s)
        → ((s : Objects) → K.may_find last s → K.may_find mid s ⊎ (s ≡ K.noted mid))
        → (s : Objects) → K.may_find last s → (s ≡ K.kept first) ⊎ (s ≡ K.noted mid) }
{}
