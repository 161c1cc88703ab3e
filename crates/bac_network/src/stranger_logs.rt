//! Logs of strangers that are computed: they show what the clause `strangers` of a world adds.
ghost use Rattle.bac_network.specs.StrangerLogs.{RightStrangers, WrongStrangers};

/// Two logs that are right with the stores, though in no world their peers are strangers. One has a request of a node that was performed twice, the
/// second time as a stranger's. The other has a node that was asked as a stranger. A peer at a link of no node is one.
#[tactic(auto, using(crate::proofs::StrangerLogs::right_strangers, crate::proofs::StrangerLogs::wrong_strangers))]
pub fn logs_of_strangers()
    ensures right { RightStrangers }
    ensures wrong { WrongStrangers }
{}
