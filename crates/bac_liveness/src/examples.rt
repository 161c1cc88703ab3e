//! For each law a run that meets its premises: no premise is empty.

ghost use Rattle.bac_liveness.specs.Examples.{LateTick, LateAnswer, OneRoundTrip, SecondRoundTrip, RoundTripOfSegment, FourthSending, LateTurn, StoppedReply};
ghost use Rattle.bac_liveness.specs.Examples.{HalfWindow};

/// An ask that ends late: at a tick, and as its answer comes.
#[tactic(auto, using(crate::proofs::Computed::late_tick, crate::proofs::Computed::late_answer))]
pub fn late_asks()
    ensures at_a_tick { LateTick }
    ensures at_an_answer { LateAnswer }
{}

/// A round trip whose copy of the request is performed, one whose copy finds its reply kept, and one of a segment.
#[tactic(auto, using(crate::proofs::Computed::one_round_trip, crate::proofs::Computed::second_round_trip, crate::proofs::Computed::round_trip_of_segment))]
pub fn round_trips()
    ensures performs { OneRoundTrip }
    ensures keeps { SecondRoundTrip }
    ensures of_segment { RoundTripOfSegment }
{}

/// Three sendings are lost, and the fourth gets through.
#[tactic(auto, using(crate::proofs::Computed::fourth_sending))]
pub fn four_sendings()
    ensures { FourthSending }
{}

/// A turn after 40,000 ms, with two sendings lost before.
#[tactic(auto, using(crate::proofs::Computed::late_turn))]
pub fn late_turn()
    ensures { LateTurn }
{}

/// A reply that stops, and goes on as the request comes again.
#[tactic(auto, using(crate::proofs::Computed::stopped_reply))]
pub fn stopped_reply()
    ensures { StoppedReply }
{}

/// A request of ten segments whose window was lost in part: a tick and 24 deliveries answer it.
#[tactic(auto, using(crate::proofs::Computed::half_window))]
pub fn half_window()
    ensures { HalfWindow }
{}
