//! What must come of an ask where nodes let clients use an invoke ID again as soon as its transaction is over (*fresh reads*): a law each. Which nodes do so is
//! left open: `asks_end` of `worlds` and `nodes_are_in_order` of `node` are the laws here where none does.
ghost use Rattle.std.specs.Prelude.{ℕ, List};
ghost use Rattle.bac_protocol.specs.Pace.{IsTimely};
ghost use Rattle.bac_world.specs.ReusingLogs.{Reuses};
ghost use Rattle.bac_world.specs.ReusingWorlds.{WorldRunSo};
ghost use Rattle.bac_world.specs.World.{World, Event, IsFresh, IsBounded};
ghost use Rattle.bac_liveness.specs.FreshNodes.{AnswerEndsSo, RepeatIsRemembered, RequestIsPerformedAnew};
ghost use Rattle.bac_liveness.specs.FreshRoundTrip.{NewAskIsAnswered, RoundTripSufficesAnew};
ghost use Rattle.bac_liveness.specs.WorldEnds.{AsksEndSo, NodesAreInOrder};

/// Each ask ends, by the same bound: in every world that a run reached, each ask that is accepted has at most one ending, and once a tick of its client has
/// come more than 60,000 ms later by the client's own clock, or a copy of its server's in this transaction was delivered then, it has exactly one, for good,
/// whatever happens in between, but for a restart of its client, which loses the ask, and afterwards.
pub fn asks_end()
    ensures { (u : Reuses) (W overtake : ℕ) (opening reached : World) → IsFresh opening → IsTimely opening.time.pace → IsBounded W overtake opening
        → (events : List Event) → WorldRunSo overtake u opening events reached → AsksEndSo overtake u reached }
{}

/// In every world that a run reached, the slots of each table of a node have different keys, and its open tickets have different numbers and have not ended.
pub fn nodes_are_in_order()
    ensures { (u : Reuses) (W overtake : ℕ) (opening reached : World) → IsFresh opening → IsTimely opening.time.pace → IsBounded W overtake opening
        → (events : List Event) → WorldRunSo overtake u opening events reached → NodesAreInOrder reached }
{}

/// One round trip at a server of fresh reads suffices: in every world that a run reached, an ask of one APDU is accepted; after any events, while it has no
/// ending, a copy of its request is delivered to such a server, whose reply goes in one APDU. A read is served where no entry of its key is live or that one is
/// over, whether a slot is free or not, also where it was performed before; any other request where none is live, and its address has a free slot. Then it is
/// performed with the reply of the server's store as it is then, and one answer is sent; and where it is delivered after any further events, while the ask
/// waits, has no ending, and no more than 60,000 ms have passed by its client's clock since it was accepted, the ask has ended with that reply, and so say the
/// logs of all worlds that follow. Its client does not restart in between.
pub fn round_trip_suffices()
    ensures { (u : Reuses) (W overtake : ℕ) (opening reached : World) → IsFresh opening → IsTimely opening.time.pace → IsBounded W overtake opening
        → (events : List Event) → WorldRunSo overtake u opening events reached → RoundTripSufficesAnew overtake u reached }
{}

/// A new ask at a server of fresh reads, over a network that delivers: where its request goes in one APDU, and is a read or finds a free slot for its address,
/// and the reply of the server's store goes in one APDU, the delivery of the request and then of its answer perform it with that reply, and end it so.
pub fn new_ask_is_answered()
    ensures { (u : Reuses) (W overtake : ℕ) (opening reached : World) → IsFresh opening → IsTimely opening.time.pace → IsBounded W overtake opening
        → (events : List Event) → WorldRunSo overtake u opening events reached → NewAskIsAnswered overtake u reached }
{}

/// An APDU of a server that comes for an open ticket of a node of either rule, more than 60,000 ms after its first sending, ends it as Expired, once.
pub fn answer_ends()
    ensures { AnswerEndsSo }
{}

/// A Confirmed-Request without SEG, whose service data spell a request, and whose reply fits one APDU, is performed by a node of fresh reads, and the one datagram
/// of its reply goes out: a read each time that it comes, where no entry of its key is live or that one is over; any other request where none is live, and its
/// address has a free slot.
pub fn request_is_performed()
    ensures { RequestIsPerformedAnew }
{}

/// A Confirmed-Request without SEG that is no read, and comes again for its live entry at a node of fresh reads, gets the kept reply of one APDU: nothing is
/// performed, and nothing changes but the latest moment.
pub fn repeat_is_remembered()
    ensures { RepeatIsRemembered }
{}
