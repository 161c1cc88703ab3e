//! Runs of a plant, and of worlds, that are computed.
ghost use Rattle.bac_plant.specs.Example.{AnsweredRound, AnsweredTurns, CutRounds};
ghost use Rattle.bac_pairs.specs.Pairs.{port_at};
ghost use Rattle.bac_plant.specs.AnswersExamples.{AnsweredBySecond};
ghost use Rattle.bac_plant.specs.ClientsExample.{ClientAsks, TwoClients};
ghost use Rattle.std.specs.Prelude.{◌≡◌, ℕ, true, false, List};
ghost use Rattle.bac_plant.specs.WritesExamples.{ActsFirstAlone, ActsThreeTimes, WriteOfStranger, WritesTwice};

/// Two stations: one asks the other, and three turns perform and answer that.
#[tactic(auto, using(crate::proofs::Answered::answered_turns))]
pub fn answered_turns()
    ensures { AnsweredTurns }
{}

/// Two stations: one asks the other, which takes a round. It sends the answer after the turn that performed the request.
#[tactic(auto, using(crate::proofs::Answered::answered_round))]
pub fn answered_round()
    ensures { AnsweredRound }
{}

/// The power of the other one is cut before it sends the answer. If it starts with the store before that turn, the request was not performed; if it starts
/// with the store after it, it was.
#[tactic(auto, using(crate::proofs::Answered::cut_rounds))]
pub fn cut_rounds()
    ensures { CutRounds }
{}

/// A read is performed twice, and the file changes in between: the second reply may be the answer, and is another one than the first. A reply that the store gave
/// before the ask alone may not.
#[tactic(auto, using(crate::proofs::AnswersComputed::answered_by_second))]
pub fn answered_by_second()
    ensures { AnsweredBySecond }
{}

/// On, off and on again: a server that lets clients use an invoke ID again performs all three, and no copy of the last. One that does not performs the first.
#[tactic(auto, using(crate::proofs::WritesComputed::acts_three_times, crate::proofs::WritesComputed::acts_first_alone))]
pub fn on_off_on()
    ensures reusing { ActsThreeTimes }
    ensures not_reusing { ActsFirstAlone }
{}

/// A write that comes again after 65,000 ms is not performed again, at a server of either setting; after 65,001 ms it is.
#[tactic(auto, using(crate::proofs::WritesComputed::writes_twice_reusing, crate::proofs::WritesComputed::writes_twice))]
pub fn equal_writes()
    ensures reusing { WritesTwice true }
    ensures not_reusing { WritesTwice false }
{}

/// In a world a stranger's write that a server performs: what the law supposes is met.
#[tactic(auto, using(crate::proofs::WritesHeard::write_of_stranger))]
pub fn write_of_stranger()
    ensures { WriteOfStranger }
{}

/// Two clients of a host at one port. The second one may start 135.889 seconds after the last ask of the first. None may start there 100 seconds after the first
/// one did. That holds whatever the host's key is.
pub fn two_clients()
    ensures { (key : List ℕ) (port : ℕ) → port_at key 80000000 ≡ port → TwoClients key port }
{}

/// The first of them starts and asks a station. That one restarts, takes a turn, and does so again with other settings. What the laws of clients suppose is met.
pub fn client_asks()
    ensures { (key : List ℕ) (port : ℕ) → port_at key 80000000 ≡ port → ClientAsks key port }
{}
