//! Ends that are computed: they show that the definitions do what the protocol's tables say.
ghost use Rattle.bac_transaction.specs.Examples.{LeastInvokeId, LeastAround, HeldFor, SlotHeldFor, TickOrder, KeptReply, FullTable, WaitsToAsk, WaitsToServe};
ghost use Rattle.bac_transaction.specs.ReuseExamples.{InSegments, UsedAgain, WithoutRoom};
ghost use Rattle.bac_transaction.specs.ServingExamples.{RemembersSoLong};
ghost use Rattle.bac_transaction.specs.SharingExamples.{OfFour, OfSixteen};

/// Which invoke ID an ask takes, and how long a slot is held.
#[tactic(auto, using(crate::proofs::Computed::least_invoke_id, crate::proofs::Computed::least_around, crate::proofs::Computed::held_for, crate::proofs::Computed::slot_held_for))]
pub fn invoke_ids()
    ensures least { LeastInvokeId }
    ensures around { LeastAround }
    ensures held { HeldFor }
    ensures slot { SlotHeldFor }
{}

/// In which order a tick sends.
#[tactic(auto, using(crate::proofs::Computed::tick_order))]
pub fn order_of_a_tick()
    ensures { TickOrder }
{}

/// What a repeated request and a full reply table get.
#[tactic(auto, using(crate::proofs::Computed::kept_reply, crate::proofs::Computed::full_table))]
pub fn reply_table()
    ensures kept { KeptReply }
    ensures full { FullTable }
{}

/// How long a restarted end waits.
#[tactic(auto, using(crate::proofs::Computed::waits_to_ask, crate::proofs::Computed::waits_to_serve))]
pub fn waits()
    ensures asks { WaitsToAsk }
    ensures serves { WaitsToServe }
{}

/// What becomes of an invoke ID that is used again, where the server's end lets it.
#[tactic(auto, using(crate::proofs::ReuseComputed::used_again, crate::proofs::ReuseComputed::without_room, crate::proofs::ReuseComputed::in_segments))]
pub fn invoke_ids_again()
    ensures again { UsedAgain }
    ensures room { WithoutRoom }
    ensures segments { InSegments }
{}

/// For how long a server's end remembers a request that is over.
#[tactic(auto, using(crate::proofs::ServingComputed::remembers_so_long))]
pub fn ends_by_their_rules()
    ensures { RemembersSoLong }
{}

/// How many slots one address fills, where a server's end shares them.
#[tactic(auto, using(crate::proofs::SharingComputed::of_sixteen, crate::proofs::SharingComputed::of_four))]
pub fn slots_that_are_shared()
    ensures sixteen { OfSixteen }
    ensures four { OfFour }
{}
