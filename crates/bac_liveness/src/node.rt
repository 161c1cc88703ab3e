//! How an ask ends at its node.

ghost use Rattle.std.specs.Prelude.{ℕ, List};
ghost use Rattle.bac_protocol.specs.Pace.{IsTimely};
ghost use Rattle.bac_world.specs.World.{World, Event, WorldRun, IsFresh, IsBounded};
ghost use Rattle.bac_liveness.specs.WorldEnds.{TickEnds, AnswerEnds, NodesAreInOrder};

/// A tick leaves no ticket open whose first sending is more than 60,000 ms ago; each that was open ends in that very tick as Expired, once.
#[tactic(auto, using(crate::proofs::AtNode::tick_ends))]
pub fn tick_ends()
    ensures { TickEnds }
{}

/// An APDU of a server that comes for an open ticket more than 60,000 ms after its first sending ends it as Expired, once.
pub fn answer_ends()
    ensures { AnswerEnds }
{}

/// In every world that a run reached, the slots of each table of a node have different keys, and its open tickets have different numbers and have not ended.
pub fn nodes_are_in_order()
    ensures { (W overtake : ℕ) (opening reached : World) → IsFresh opening → IsTimely opening.time.pace → IsBounded W overtake opening
        → (events : List Event) → WorldRun overtake opening events reached → NodesAreInOrder reached }
{}
