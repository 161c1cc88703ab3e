//! The straight run: where nothing is lost, repeated or reordered, an ask is answered.

ghost use Rattle.std.specs.Prelude.{ℕ, List};
ghost use Rattle.bac_protocol.specs.Pace.{IsTimely};
ghost use Rattle.bac_world.specs.World.{World, Event, WorldRun, IsFresh, IsBounded};
ghost use Rattle.bac_liveness.specs.StraightAnswers.{StraightAnswers};
ghost use Rattle.bac_liveness.specs.StraightRuns.{CopiesAreItsOwn, DeliveriesGoOn, IsRunOfDeliveries};

/// In every world that a run of a fresh one led to, each straight run answers its ask: where the ask is accepted, its server has a slot without a live
/// entry, and the reply goes in one APDU or in segments that the client takes, the ask is performed once, as it was asked, and ends with the reply of its
/// server's store; that store becomes the one after the request, and all others are as they were. For n datagrams of the request and m of the reply there
/// are at most 2n + 2m deliveries, past 256 segments too. Windows are from 1, and the client's is no greater than the number of copies that may overtake
/// one; a reply has at most 65,535 octets of service data, as every reply of a `Store` (bac_store's `replies_can_be_sent`).
pub fn straight_run_answers()
    ensures { (W overtake : ℕ) (first old : World) → IsFresh first → IsTimely first.time.pace → IsBounded W overtake first → (events : List Event)
        → WorldRun overtake first events old
        → StraightAnswers overtake old }
{}

/// A straight run is a run: of its ask, and then of as many deliveries of the copies that arose from it, each once, in order of sending.
pub fn straight_run_is_run()
    ensures { (overtake : ℕ) (old : World) → IsRunOfDeliveries overtake old }
{}

/// In every world that a run of a fresh one led to, each copy that arises in a straight run is of its ask's transaction.
pub fn straight_copies_are_its_own()
    ensures { (W overtake : ℕ) (first old : World) → IsFresh first → IsTimely first.time.pace → IsBounded W overtake first → (events : List Event)
        → WorldRun overtake first events old
        → CopiesAreItsOwn overtake old }
{}

/// A straight run goes on by one more delivery, as a loop over the numbers of copies makes them; where the loop stops, since the ticket has ended or no copy is
/// left, it was a straight run, with the ending that the log has.
#[tactic(auto, using(crate::proofs::StraightRuns::Loops::deliveries_go_on))]
pub fn deliveries_go_on()
    ensures { DeliveriesGoOn }
{}
