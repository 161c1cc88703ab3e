//! What names a transaction.
ghost use Rattle.std.specs.Prelude.{◌<◌};

/// A transaction: the numbers of its client and its server among the nodes, and its invoke ID (clause 5.4).
#[derive(Clone, Copy, Debug, PartialEq, Eq)]
pub struct Transaction {
    /// The node that asks.
    pub client: usize,
    /// The node that is asked.
    pub server: usize,
    /// The invoke ID, which the client chose.
    pub invoke_id: u8,
}

impl Transaction {
    /// An invoke ID is one octet (clause 20.1.2.6).
    pub(crate) fn fits(&self)
        ensures { self.now.invoke_id < 256 }
    {
        let _invoke_id = self.invoke_id;
    }
}
