//! For each law a run that meets its premises: no premise is empty.

ghost use Rattle.bac_liveness.specs.WorldExamples.{LateTick, SlowTick, LateAnswer, OneRoundTrip, SecondSending};
ghost use Rattle.bac_liveness.specs.StraightExamples.{OfOneApdu, InSegments};

/// An ask that ends at a tick at 60,001.
#[tactic(auto, using(crate::proofs::WorldComputed::late_tick))]
pub fn late_tick()
    ensures { LateTick }
{}

/// An ask that ends by its client's clock, which is slow: only after 60,061 ms.
#[tactic(auto, using(crate::proofs::WorldComputed::slow_tick))]
pub fn slow_tick()
    ensures { SlowTick }
{}

/// An answer that comes to its node at 60,001 ends the ask.
#[tactic(auto, using(crate::proofs::WorldComputed::late_answer))]
pub fn late_answer()
    ensures { LateAnswer }
{}

/// A request and its answer are delivered.
#[tactic(auto, using(crate::proofs::WorldComputed::one_round_trip))]
pub fn one_round_trip()
    ensures { OneRoundTrip }
{}

/// The first copy is lost, and the second finds its server, whose answer is delivered.
#[tactic(auto, using(crate::proofs::WorldComputed::second_sending))]
pub fn second_sending()
    ensures { SecondSending }
{}

/// Straight runs from a fresh world, of a request of one APDU and of one in two segments, which meet all that the law supposes, with 2 and 5 deliveries.
#[tactic(auto, using(crate::proofs::StraightRuns::ShortRun::of_one_apdu, crate::proofs::StraightRuns::LongRun::in_segments))]
pub fn straight_runs()
    ensures one_apdu { OfOneApdu }
    ensures segments { InSegments }
{}
