//! A node that loses its tables: it restarts, or another program begins at its link.
ghost use Rattle.std.specs.Prelude.{◌≡◌, OnErr, OnOk};
ghost use Rattle.bac_transaction.specs.Ends.{first_after};
ghost use Rattle.bac_protocol.specs.declared.times.TheConstants.{REST as REST_TIME};
ghost use Rattle.bac_world.specs.Node.{begun_again, restarted, store_after_restart};
ghost use Rattle.bac_node.specs.Fresh.{renewed};

use crate::ends::empty_ends;
use crate::node::Node;
use bac_store::Store;
use bac_value::NoMemory;

/// Puts another store in place of the old one, if there is another one.
fn put_store(store: &mut Store, other: Option<Store>)
    ensures { store.new ≡ store_after_restart store.old other }
{
    if let Some(other) = other {
        *store = other;
    }
}

impl Node {
    /// Restarts the node at a moment in milliseconds, which may be before the latest one. It is then as after `restarted`, with the store that it
    /// has, or with another one. `NoMemory` where its tables can't be allocated; it is then as before.
    pub fn restart(&mut self, now: u64, store: Option<Store>) -> Result<(), NoMemory>
        ensures went { OnOk result (self.new ≡ restarted now (store_after_restart self.old.store store) self.old) }
        ensures err { OnErr result (self.new ≡ self.old) }
    {
        let first_id = self.clients.first_id();
        self.renew(now, Some(now), first_id, store)
    }

    /// Another program begins at the node's link at a moment in milliseconds, which may be before the latest one. It has the store that was there, or
    /// another one. Its client is as of a new node, and its invoke IDs begin at `first_id`; its server waits as after `restarted`. Use it once all is
    /// over that the client before it sent. `NoMemory` where its tables can't be allocated; the node is then as before.
    pub fn begin_again(
        &mut self,
        now: u64,
        first_id: u8,
        store: Option<Store>,
    ) -> Result<(), NoMemory>
        ensures went { OnOk result (self.new ≡ begun_again now first_id (store_after_restart self.old.store store) self.old) }
        ensures err { OnErr result (self.new ≡ self.old) }
    {
        self.renew(now, None, first_id, store)
    }

    /// Both tables are lost at that moment. The server waits from then on, and the client from a restart on, if there was one.
    fn renew(
        &mut self,
        now: u64,
        client_restart: Option<u64>,
        first_id: u8,
        store: Option<Store>,
    ) -> Result<(), NoMemory>
        ensures went { OnOk result (self.new ≡ renewed now (first_after REST_TIME client_restart) first_id (store_after_restart self.old.store store) self.old) }
        ensures err { OnErr result (self.new ≡ self.old) }
    {
        let client_slots = self.clients.capacity();
        let reply_slots = self.servers.capacity();
        let (mut clients, servers) = empty_ends(
            self.alloc,
            client_slots,
            reply_slots,
            client_restart,
            Some(now),
        )?;
        // from here on nothing can fail
        clients.set_first_invoke_id(first_id);
        put_store(&mut self.store, store);
        self.clients = clients;
        self.servers = servers;
        self.latest = now;
        Ok(())
    }
}
