//! What must come of an ask in every world that a run reached, whatever is lost, repeated or reordered: a law each.
ghost use Rattle.std.specs.Prelude.{ℕ, List};
ghost use Rattle.bac_protocol.specs.Pace.{IsTimely};
ghost use Rattle.bac_world.specs.World.{World, Event, WorldRun, IsFresh, IsBounded};
ghost use Rattle.bac_liveness.specs.WorldEnds.{AsksEnd};
ghost use Rattle.bac_liveness.specs.WorldRoundTrip.{RoundTripSuffices};
ghost use Rattle.bac_liveness.specs.WorldRepeats.{RepeatsSuffice};

/// Each ask ends: in every world that a run reached, each ask that is accepted has at most one ending, and once a tick of its client has come more than
/// 60,000 ms later by the client's own clock, or a copy of its server's in this transaction was delivered then, it has exactly one, for good, whatever
/// happens in between, but for a restart of its client, which loses the ask, and afterwards.
pub fn asks_end()
    ensures { (W overtake : ℕ) (opening reached : World) → IsFresh opening → IsTimely opening.time.pace → IsBounded W overtake opening
        → (events : List Event) → WorldRun overtake opening events reached → AsksEnd overtake reached }
{}

/// One round trip suffices: in every world that a run reached, an ask of one APDU is accepted; after any events, while it has no ending, a copy of its
/// request is delivered to a server with no live entry for it and a free slot, whose reply goes in one APDU. Then one answer is sent; and where it is
/// delivered after any further events, while the ask has no ending and no more than 60,000 ms have passed by its client's clock since it was accepted, the ask
/// has ended with the reply with which it was performed, and so say the logs of all worlds that follow. Its client does not restart in between.
pub fn round_trip_suffices()
    ensures { (W overtake : ℕ) (opening reached : World) → IsFresh opening → IsTimely opening.time.pace → IsBounded W overtake opening
        → (events : List Event) → WorldRun overtake opening events reached → RoundTripSuffices overtake reached }
{}

/// Repeats suffice: in every world that a run reached, an ask of one APDU is accepted. Until 12,000 ms have passed by the clock of its client, which does
/// not restart, and as long as each copy of its request that is delivered to a server with no live entry for it finds a free slot and a reply that goes in
/// one APDU, the ask waits for its answer, with a repeat left wherever its timer is due, or is answered, whatever is lost, repeated, reordered or asked of
/// others; and each answer that is delivered leaves the ask ended with the reply with which it was performed. Each copy of the request that is delivered
/// brings one answer, also where its client has restarted, while no more real time has passed than the slowest clock takes for 60,000 ms.
pub fn repeats_suffice()
    ensures { (W overtake : ℕ) (opening reached : World) → IsFresh opening → IsTimely opening.time.pace → IsBounded W overtake opening
        → (events : List Event) → WorldRun overtake opening events reached → RepeatsSuffice overtake reached }
{}
