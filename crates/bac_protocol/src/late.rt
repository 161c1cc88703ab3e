//! Nodes that begin late, and clients that begin one after another at one address, as runs that are computed.

ghost use Rattle.bac_protocol.specs.LateStarts.{Late, BegunActive, AfterEnd, AfterAsk, WithServer};

/// A client and a server begin when others have run for a time, each with a clock of its own. A node that asked or served begins no more: a server that began again
/// beside its entry could perform a request twice, and a client that began again beside its ticket could end an ask with the answer to the one before.
#[tactic(auto, using(crate::proofs::LateStarted::late, crate::proofs::LateStarted::begun_active))]
pub fn nodes_begin_late()
    ensures late { Late }
    ensures active { BegunActive }
{}

/// How long after one client another may begin at its node: 75,001 ms after an end that was seen, and 135,001 ms after the last ask of one whose end nobody saw. A
/// millisecond earlier it does not begin: if it did, it could take a segment of the reply to the client before it. A server that served goes on.
#[tactic(auto, using(crate::proofs::LateStarted::after_end, crate::proofs::LateStarted::after_ask, crate::proofs::LateStarted::with_server))]
pub fn clients_begin_one_after_another()
    ensures after_end { AfterEnd }
    ensures after_ask { AfterAsk }
    ensures server { WithServer }
{}
