//! The answers that clients get, of servers of either setting: a law.
//!
//! The definitions are in `specs/Answers` and `specs/Moments`, and `examples` has logs that are computed. The functions here have no body: each carries a law as its contract.
ghost use Rattle.std.specs.Prelude.{List};
ghost use Rattle.bac_world.specs.Once.{Fact, IsOnce, Stores};
ghost use Rattle.bac_world.specs.ReusingLogs.{IsOnceSo, Reuses};
ghost use Rattle.bac_plant.specs.Answers.{AnswersAreReplies};
ghost use Rattle.bac_plant.specs.Moments.{AnswersAreOfMoments, AnswersInLog, OfLongWorldRuns, OfWorldRuns, StoresAreReplayed};

/// After every run of a fresh world, each answer that ends an ask is the reply of its server's store to its request. The request may be a read, a
/// write or an append. The store is as it was at a moment between the ask and its end. That holds whichever nodes let clients use an invoke ID again,
/// with a clock for each node and strangers among them.
///
/// In the log (`runs`) that moment is where the request was performed. The store is that of the server's last start, after the requests performed and
/// the changes made at that node since, in the log's order. So are all stores of nodes, after each run (`stores`). In the run (`moments`) it is the
/// store that the server's node has in a world to which the run has come. Any log that is right with the stores says so too: in the words for servers
/// of either setting (`logs`), or in those of the headline (`headline`).
#[tactic(auto, using(crate::proofs::Answers::in_logs, crate::proofs::Answers::in_logs_of_headline))]
pub fn answers_are_replies()
    ensures runs { OfWorldRuns AnswersInLog }
    ensures moments { OfWorldRuns AnswersAreOfMoments }
    ensures stores { OfWorldRuns StoresAreReplayed }
    ensures logs { (u : Reuses) (opening : Stores) (log : List Fact) (stores : Stores) → IsOnceSo u opening log stores → AnswersAreReplies opening log }
    ensures headline { (opening : Stores) (log : List Fact) (stores : Stores) → IsOnce opening log stores → AnswersAreReplies opening log }
{}

/// The same whatever overtakes what, if all nodes take APDUs of 480 octets or more, and who asks one knows that. No reply in the log is longer than can be sent,
/// as none of a store of this stack is.
pub fn answers_are_replies_with_long_apdus()
    ensures runs { OfLongWorldRuns AnswersInLog }
    ensures moments { OfLongWorldRuns AnswersAreOfMoments }
    ensures stores { OfLongWorldRuns StoresAreReplayed }
{}
