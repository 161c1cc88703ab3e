//! What worlds are made of, as what can be compared.
use crate::lists::Alike;
use bac_node::Node;
use bac_store::Store;

impl Alike for Store {
    ghost use Rattle.bac_store.specs.Stores as stores;

    ghost Seen = { stores.Store };

    ghost seen = { λ s. s };

    fn is_alike(&self, other: &Store) -> bool {
        self.same(other)
    }
}

impl Alike for Node {
    ghost use Rattle.bac_world.specs.Node as world;

    ghost Seen = { world.Node };

    ghost seen = { λ n. n };

    fn is_alike(&self, other: &Node) -> bool {
        self.same(other)
    }
}

impl Alike for bool {
    ghost use Rattle.std.specs.Prelude.{Bool};

    ghost Seen = { Bool };

    ghost seen = { λ s. s };

    fn is_alike(&self, other: &bool) -> bool {
        *self == *other
    }
}
