//! The rules of a server: what it does of its own beside the standard.
ghost use Rattle.std.specs.Prelude.{◌≡◌, Some};
ghost use Rattle.bac_transaction.specs.Given.{ANEW, STRICTLY, rules_of};
ghost use Rattle.bac_transaction.specs.Views.{share_view};

/// How reads are served: ReadProperty and AtomicReadFile (clauses 15.5 and 14.1).
#[derive(Clone, Copy, Debug, PartialEq, Eq)]
pub enum ReadRule {
    /// As each request: its reply is kept, and goes again to a copy of it. While the reply is kept, for 65,000 ms, its client uses the invoke ID for no other
    /// request (own rule of this profile).
    Kept,
    /// A read is performed each time that it comes, and its reply is kept only while it goes in segments. A client may use an invoke ID again as soon as its
    /// transaction is over (clause 5.4).
    Fresh,
}

/// The rules of a server.
#[derive(Clone, Copy, Debug, PartialEq, Eq)]
pub struct Rules {
    /// How reads are served.
    pub reads: ReadRule,
    /// For how many milliseconds, from its beginning on, a request that is over is remembered: so long an equal one gets the kept reply. `None`: as long as its
    /// entry lives, 65,000 ms; more than that is the same.
    pub remember: Option<u64>,
    /// How many octets of requests and replies the server keeps at the most; `None`: as many as can be allocated. Where slots are shared, the last sixteenth is
    /// only for a request whose IP address holds no live entry but that of its own key.
    pub memory: Option<usize>,
    /// Whether slots are shared among IP addresses, where reads are performed anew (own rule of this profile). A new request then begins an entry only where its
    /// address, whatever the port, holds at most 15 live entries for each slot that stays free. So one address alone fills at most (15 n + 1)/16 of n slots, and one
    /// that holds no entry gets the last free slot. A request that ends an entry of its key takes its slot. Where replies to reads are kept too, slots are
    /// never shared.
    pub share: bool,
}

impl Rules {
    /// The strict rules, without a bound on memory: each reply is kept, for as long as its entry lives, and one address may use all slots.
    pub const fn strict() -> Rules
        ensures { result ≡ STRICTLY }
    {
        Rules {
            reads: ReadRule::Kept,
            remember: None,
            memory: None,
            share: false,
        }
    }

    /// Reads are performed anew, without a bound on memory: a client may use an invoke ID again as soon as its transaction is over, and other requests that are
    /// over are remembered for as long as their entries live. Slots are shared among addresses, so that none shuts out the others.
    pub const fn fresh() -> Rules
        ensures { result ≡ ANEW }
    {
        Rules {
            reads: ReadRule::Fresh,
            remember: None,
            memory: None,
            share: true,
        }
    }

    /// Whether slots are shared among addresses: only where reads are performed anew, too.
    pub const fn shares(&self) -> bool
        ensures { result ≡ share_view self.now.reads self.now.share }
    {
        match self.reads {
            ReadRule::Kept => false,
            ReadRule::Fresh => self.share,
        }
    }

    /// `fresh` where clients may use invoke IDs again, otherwise `strict`.
    pub const fn of(reuse: bool) -> Rules
        ensures { result ≡ rules_of reuse }
    {
        if reuse {
            Rules::fresh()
        } else {
            Rules::strict()
        }
    }

    /// The same rules, with that many octets at the most.
    pub const fn within(self, memory: usize) -> Rules
        ensures { result ≡ record self { memory = Some memory } }
    {
        Rules {
            memory: Some(memory),
            ..self
        }
    }
}
