//! How what comes of a node's call enters the journal and the log.
ghost use Rattle.std.specs.Prelude.{◌+◌, ◌<◌, ◌≤◌, length, vec_capacity};
ghost use Rattle.bac_node.specs.Views.{outcome_view};
ghost use Rattle.bac_network.specs.Entries.{CanBeEntered, performances, SendsAlone, Enters};
ghost use Rattle.bac_network.specs.Views.{log_view};

use crate::fact::Fact;
use crate::logging::{log_endings, log_performed};
use bac_journal::Journal;
use bac_node::{Node, Outcome};

/// What comes of a node's call enters; `after` is the node after it. What it sends becomes copies, and what has ended and what was performed comes
/// into the log. There is room for all of it. It takes no memory.
pub(crate) fn enter(
    after: &Node,
    journal: &mut Journal,
    log: &mut Vec<Fact>,
    node: usize,
    outcome: Outcome,
)
    requires can { CanBeEntered journal.old node (outcome_view outcome) }
    requires sender { node < length journal.old.links }
    requires room { length (outcome_view outcome).sends ≤ journal.old.room }
    requires log_room { length log.old.items + length (outcome_view outcome).ended + performances (outcome_view outcome).performed ≤ vec_capacity log.old }
    ensures entered { Enters node after.now (outcome_view outcome) journal.old journal.new (log_view log.old.items) (log_view log.new.items) }
    ensures same { SendsAlone journal.old journal.new }
{
    let Outcome {
        sends,
        effect,
        ended,
        dropped: _dropped,
        turned_away: _turned_away,
    } = outcome;
    log_endings(log, journal, node, ended);
    log_performed(after, log, journal, node, effect);
    journal.send(node, sends);
    journal.act(node);
}
