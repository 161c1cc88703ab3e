//! How facts come into the log.
ghost use Rattle.std.specs.Prelude.{◌≡◌, ◌+◌, ◌≤◌, List, [], ◌∷◌, Some, length, map, slice_get, vec_capacity};
ghost use Rattle.std.specs.Option.{option_map};
ghost use Rattle.bac_node.specs.Views.{performed_view};
ghost use Rattle.bac_requester.specs.TransactionViews.{ending_view};
ghost use Rattle.bac_requester.specs.Views.{ended_view};
ghost use Rattle.bac_world.specs.Node as world;
ghost use Rattle.bac_world.specs.Once as once;
ghost use Rattle.bac_slots.specs.Slots.{value_at};
ghost use Rattle.bac_protocol.specs.Server.{ServerTransaction};
ghost use Rattle.bac_transaction.specs.Keys.{same_key};
ghost use Rattle.bac_transaction.specs.Views.{peer_key_view};
ghost use Rattle.bac_world.specs.ReusingWorlds.{IsServedSo};
ghost use Rattle.bac_world.specs.World.{AreEnded, IsLogged, IsOfNone, IsServedTo, ending_fact};
ghost use Rattle.bac_journal.specs.Views.{AreLinks};
ghost use Rattle.bac_network.specs.Entries.{AreNoted, EntersLog, HasClient, HaveClient, IsAskOf, IsKeptFor, performances};
ghost use Rattle.bac_network.specs.Views.{fact_view, log_view};

use crate::fact::Fact;
use bac_journal::{Journal, Transaction};
use bac_node::{Act, Effect, Node};
use bac_requester::{Ended, Ending};
use bac_transaction::PeerKey;

/// The ending of an ask of that number, of a node or of a stranger.
fn ending_fact(away: bool, number: usize, how: Ending) -> Fact
    ensures { fact_view result ≡ ending_fact away number (ending_view how) }
{
    if away {
        Fact::EndedAway { number, how }
    } else {
        Fact::Ended { number, how }
    }
}

/// The ending of a node's ticket comes into the log, which has room for it.
fn log_ending(log: &mut Vec<Fact>, journal: &Journal, node: usize, finish: Ended)
    requires room { length log.old.items + 1 ≤ vec_capacity log.old }
    requires noted { AreNoted journal.now.notes node (ended_view finish ∷ []) }
    ensures log { AreEnded journal.now.notes node (ended_view finish ∷ []) (log_view log.old.items) (log_view log.new.items) }
    ensures many { length log.new.items ≡ length log.old.items + 1 }
    ensures room { vec_capacity log.new ≡ vec_capacity log.old }
{
    let Ended { ticket, ending } = finish;
    // each ask that was accepted is noted
    let Some(number) = journal.ask_of(node, ticket) else {
        unreachable!()
    };
    log.push_reserved(ending_fact(journal.is_away(number), number, ending));
}

/// The endings of a node's tickets come into the log, which has room for them.
pub(crate) fn log_endings(log: &mut Vec<Fact>, journal: &Journal, node: usize, ended: Vec<Ended>)
    requires room { length log.old.items + length ended.items ≤ vec_capacity log.old }
    requires noted { AreNoted journal.now.notes node (map ended_view ended.items) }
    ensures log { AreEnded journal.now.notes node (map ended_view ended.items) (log_view log.old.items) (log_view log.new.items) }
    ensures many { length log.new.items ≡ length log.old.items + length ended.items }
    ensures room { vec_capacity log.new ≡ vec_capacity log.old }
{
    for finish in ended {
        log_ending(log, journal, node, finish);
    }
}

/// What was performed for a node, which asked it last under that number.
fn performed_fact(journal: &Journal, client: usize, node: usize, act: Act) -> Fact
    requires asked { IsAskOf journal.now.notes client node (performed_view act) }
    requires is { slice_get journal.now.links client ≡ Some act.key.peer.link }
    ensures { (nodes : List world.Node) → AreLinks nodes journal.now.links → (log : List once.Fact)
        → IsLogged nodes journal.now.notes node (performed_view act) log (fact_view result ∷ log) }
{
    let Act { key, effect } = act;
    let Effect { request, reply } = effect;
    let transaction = Transaction {
        client,
        server: node,
        invoke_id: key.invoke_id,
    };
    // what a node performs for another one was asked, and so noted
    let Some(number) = journal.newest(&transaction) else {
        unreachable!()
    };
    Fact::Performed {
        number,
        request,
        reply,
    }
}

/// When the entry began in which a request was performed: now, where a read has none.
fn begin_of(after: &Node, key: &PeerKey) -> u64
    ensures { (entry : ServerTransaction) → value_at same_key (peer_key_view key.now) after.now.servers.slots ≡ Some entry → result ≡ entry.begin }
{
    match after.entry_begin(key) {
        Some(begin) => begin,
        None => after.latest(),
    }
}

/// What was performed for a stranger, in an entry if the node keeps one.
fn served_fact(after: &Node, node: usize, act: Act) -> Fact
    ensures kept { IsKeptFor after.now (performed_view act) → (nodes : List world.Node) → IsOfNone nodes act.key.peer.link → (log : List once.Fact)
        → IsServedTo nodes node after.now (performed_view act) log (fact_view result ∷ log) }
    ensures served { (nodes : List world.Node) → IsOfNone nodes act.key.peer.link → (log : List once.Fact)
        → IsServedSo nodes node (performed_view act) log (fact_view result ∷ log) }
{
    let Act { key, effect } = act;
    let Effect { request, reply } = effect;
    let begin = begin_of(after, &key);
    Fact::Served {
        peer: key.peer,
        node,
        invoke_id: key.invoke_id,
        begin,
        request,
        reply,
    }
}

/// What was performed, as a fact: for a node or for a stranger.
fn act_fact(after: &Node, journal: &Journal, node: usize, act: Act) -> Fact
    requires client { HasClient journal.now node (performed_view act) }
    ensures { (nodes : List world.Node) → AreLinks nodes journal.now.links → (log : List once.Fact)
        → EntersLog nodes journal.now.notes node after.now (Some (performed_view act)) log (fact_view result ∷ log) }
{
    match journal.node_of(act.key.peer.link) {
        Some(client) => performed_fact(journal, client, node, act),
        None => served_fact(after, node, act),
    }
}

/// What was performed comes into the log, which has room for it, if anything was.
pub(crate) fn log_performed(
    after: &Node,
    log: &mut Vec<Fact>,
    journal: &Journal,
    node: usize,
    act: Option<Act>,
)
    requires room { length log.old.items + performances (option_map performed_view act) ≤ vec_capacity log.old }
    requires client { HaveClient journal.now node (option_map performed_view act) }
    ensures log { (nodes : List world.Node) → AreLinks nodes journal.now.links
        → EntersLog nodes journal.now.notes node after.now (option_map performed_view act) (log_view log.old.items) (log_view log.new.items) }
{
    if let Some(act) = act {
        log.push_reserved(act_fact(after, journal, node, act));
    }
}
