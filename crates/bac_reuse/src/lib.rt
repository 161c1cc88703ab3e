//! At most once among nodes some of which let clients use an invoke ID again as soon as its transaction is over: laws.
//!
//! The machine of such a server is `Reuse` of bac_protocol, and `specs/Runs` has the runs in which servers go by it. The functions here have no body: each
//! carries a law as its contract.
#![tactic(auto)]

pub mod examples;
pub mod moves;
pub mod stretches;

ghost use Rattle.std.specs.Prelude.{◌≡◌, ℕ, true, List, Ok};
ghost use Rattle.bac_value.specs.Octets.{IsBytes};
ghost use Rattle.bac_service.specs.Services.{request_at};
ghost use Rattle.bac_service.specs.Values.{Request};
ghost use Rattle.bac_store.specs.Changes.{after};
ghost use Rattle.bac_store.specs.Stores.{Store};
ghost use Rattle.bac_protocol.specs.Claims.{IsBounded};
ghost use Rattle.bac_protocol.specs.Log.{Fact, StoreModel, IsOnce};
ghost use Rattle.bac_protocol.specs.Pace.{Pace, IsTimely};
ghost use Rattle.bac_protocol.specs.Transaction.{Rules};
ghost use Rattle.bac_protocol.specs.World.{Event, World, run, start};
ghost use Rattle.bac_reuse.specs.Claims.{AnswersAreOfTheirTime, WritesAreOnce, is_stack_read};
ghost use Rattle.bac_reuse.specs.Once.{HasNoRead, IsOnceSo};
ghost use Rattle.bac_reuse.specs.Runs.{AskNoRead, NoneReuses, ReadsChangeNothing, Reusing, run_so};

/// The headline in both modes: after every run, whichever nodes let invoke IDs be used again, where reads change no store. Each accepted ask that is no read,
/// or whose server does not let them be, takes effect at most once, and exactly once where a service answer reached its client; the request performed and the
/// answer are its own, whole. Any other read is performed as it was asked, each time that its server takes it, and its answer is one of the replies with which
/// it was performed. Each server's store is that of its last start, after the performed requests and the changes made at that node since, in the log's order.
/// Strangers may send any octets at any moment: what a server performs for them is in the log, with the reply of its store as it then is, and how often is not
/// said here.
#[tactic(auto, using(crate::proofs::Stored::once_so))]
pub fn at_most_once<S>()
    ensures { (model : StoreModel S) (opening : ℕ → S) (W : ℕ) (rules : Rules) → IsBounded W rules → (reusing : Reusing) → ReadsChangeNothing S model reusing.reads
        → (pace : Pace) → IsTimely pace → (clocks : ℕ → ℕ) → (events : List Event)
        → IsOnceSo S model reusing opening (run_so S model rules reusing events (start S pace clocks opening)).net.log
        (run_so S model rules reusing events (start S pace clocks opening)).stores }
{}

/// What such a log says. An ask that is no read was not performed before it is performed. Each answer that ends an ask was given between its ask and its end:
/// the ask was performed with that reply, which its server's store, as it then was, gives to its request. Where nothing that was performed is a read, or no
/// node lets invoke IDs be used again, the log is right in the headline's own sense.
#[tactic(auto, using(crate::proofs::Claimed::writes_once, crate::proofs::Claimed::of_their_time, crate::proofs::Claimed::without_reads, crate::proofs::Claimed::without_reuse))]
pub fn right_logs<S>()
    ensures writes { (model : StoreModel S) (reusing : Reusing) (opening : ℕ → S) (log : List Fact) (stores : ℕ → S)
        → IsOnceSo S model reusing opening log stores → WritesAreOnce reusing.reads log }
    ensures answers { (model : StoreModel S) (reusing : Reusing) (opening : ℕ → S) (log : List Fact) (stores : ℕ → S)
        → IsOnceSo S model reusing opening log stores → AnswersAreOfTheirTime S model reusing opening log }
    ensures without_reads { (model : StoreModel S) (reusing : Reusing) (opening : ℕ → S) (log : List Fact) (stores : ℕ → S) → HasNoRead reusing.reads log
        → IsOnceSo S model reusing opening log stores → IsOnce S model opening log stores }
    ensures without_reuse { (model : StoreModel S) (reusing : Reusing) (opening : ℕ → S) (log : List Fact) (stores : ℕ → S) → NoneReuses reusing
        → IsOnceSo S model reusing opening log stores → IsOnce S model opening log stores }
{}

/// Where no node lets invoke IDs be used again, a run is one of bac_protocol, event for event.
pub fn none_reuses<S>()
    ensures { (model : StoreModel S) (rules : Rules) (reusing : Reusing) → NoneReuses reusing → (events : List Event) (world : World S)
        → run_so S model rules reusing events world ≡ run S model rules events world }
{}

/// Where no node asks another one for a read, what is said of runs in which no invoke ID is used again holds word for word, whichever nodes let them be.
pub fn at_most_once_without_reads<S>()
    ensures { (model : StoreModel S) (opening : ℕ → S) (W : ℕ) (rules : Rules) → IsBounded W rules → (reusing : Reusing) → ReadsChangeNothing S model reusing.reads
        → (pace : Pace) → IsTimely pace → (clocks : ℕ → ℕ) → (events : List Event) → AskNoRead reusing.reads events
        → IsOnce S model opening (run_so S model rules reusing events (start S pace clocks opening)).net.log
        (run_so S model rules reusing events (start S pace clocks opening)).stores }
{}

/// The reads of the stack's own services change no store, which is what these laws assume of reads.
#[tactic(auto, using(crate::proofs::StackReads::stack_reads))]
pub fn stack_reads_change_nothing()
    ensures { (store : Store) (choice : ℕ) (octets : List ℕ) (request : Request) → IsBytes octets → request_at choice octets ≡ Ok request
        → is_stack_read choice ≡ true → after store request ≡ store }
{}
