//! What a document that changed makes of the store of a node: the node makes the changes, and the log tells them.
ghost use Rattle.bac_serving.specs.Stretches.{IsChanged};

use crate::listing::kept_words;
use bac_driver::{BoundNode, Link};
use bac_log_json::{KeptPart, LogEvent};
use bac_server::LevelLog;
use bac_store::{Change, ChangeFault, Store};
use std::alloc::Global;
use std::io::Write;

/// What a document changes of the store that it meant before.
#[derive(Clone, Copy)]
pub(crate) struct DocumentNews<'n> {
    /// The store that it means now.
    pub document: &'n Store,
    /// The changes that make it of the store that it meant before, in order.
    pub changes: &'n [Change],
}

/// What the document gave to a property or a file.
fn part_of(change: &Change) -> KeptPart<'_> {
    match change {
        Change::Value {
            object,
            property,
            octets,
        } => KeptPart::Values {
            object: *object,
            property: *property,
            octets: octets.as_slice(),
        },
        Change::File { object, octets } => KeptPart::File {
            object: *object,
            length: octets.len() as u64,
        },
    }
}

/// The node makes a change, and the log tells it.
fn make<L: Link, E: Write>(
    alloc: Global,
    moment: u64,
    bound_node: &mut BoundNode<L>,
    change: &Change,
    log: &mut LevelLog,
    err: &mut E,
) -> Result<(), ChangeFault>
    ensures { IsChanged bound_node.old bound_node.new }
{
    let part = part_of(change);
    let words = if log.is_on() {
        kept_words(alloc, part)?
    } else {
        Vec::new(alloc)
    };
    bound_node.change(change)?;
    let words = words.as_slice();
    log.write_event(moment, LogEvent::Document { part, words }, err);
    Ok(())
}

/// The node makes changes at a moment, in order, and the log tells each. At a fault the rest is not made.
pub(crate) fn make_all<L: Link, E: Write>(
    alloc: Global,
    moment: u64,
    bound_node: &mut BoundNode<L>,
    changes: &[Change],
    log: &mut LevelLog,
    err: &mut E,
) -> Result<(), ChangeFault>
    ensures { IsChanged bound_node.old bound_node.new }
{
    for change in changes {
        make(alloc, moment, bound_node, change, log, err)?;
    }
    Ok(())
}
