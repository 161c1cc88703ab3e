//! Laws of the definitions: empty functions whose contracts are the laws.
ghost use Rattle.std.specs.Prelude.{◌≡◌, None, Some, ℕ};
ghost use Rattle.bac_value.specs.Value.{ObjectId};
ghost use Rattle.bac_store.specs.Stores.{Store, object_in};
ghost use Rattle.bac_store.specs.Writes.{listed_at};
ghost use Rattle.bac_keep.specs.Cells.{Cells};
ghost use Rattle.bac_keep.specs.Overlay.{overlay};
ghost use Rattle.bac_keep_file.specs.Forgotten.{is_selected, without};

/// What was forgotten of a property, or of an object, is the document's own at the next start.
pub fn forgotten_is_of_the_document()
    ensures property { (document : Store) (cells : Cells) (id : ObjectId) (n : ℕ)
        → listed_at (overlay (without (is_selected id (Some n)) cells) document) id n ≡ listed_at document id n }
    ensures object { (document : Store) (cells : Cells) (id : ObjectId)
        → object_in (overlay (without (is_selected id None) cells) document) id ≡ object_in document id }
{}
