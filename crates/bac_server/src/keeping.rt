//! `bac serve --keep`: a node that serves in rounds, and whose store is kept.
ghost use Rattle.std.specs.Prelude.{◌≡◌, IfOk, OnOk};
ghost use Rattle.bac_driver.specs.Kept.{keeper_of};
ghost use Rattle.bac_driver.specs.Observed.{observed};
ghost use Rattle.bac_driver.specs.Rounds.{IsKept};
ghost use Rattle.bac_driver.specs.Runs.{timed};
ghost use Rattle.std.specs.Io.KnownBytes.{Appends};
ghost use Rattle.bac_commands.specs.Reports.{served_line};
ghost use Rattle.bac_server.specs.Kept.{AllIsKept, EndsKept, IsKeptByStatus, KeptText, ReportsKept, Unseen, unwatched};

use bac_commands::CommandError;
use bac_driver::{BoundNode, Clock, Link, Observer, Round, RunLimit};
use bac_keep::{KeepFault, Keeper};
use bac_text::Status;
use std::io::Write;

/// A node on its link, the clock at whose moments it acts, and who keeps its store.
#[derive(Drop)]
pub struct KeptServer<L: Link, C: Clock, K: Keeper> {
    /// The node.
    pub bound_node: BoundNode<L>,
    /// The clock.
    pub clock: C,
    /// Who keeps the store of the node.
    pub round: Round<K>,
    /// Why the store could not be kept, once it could not.
    pub fault: Option<KeepFault>,
}

/// Prints how many requests a server performed.
fn print_served<O: Write>(effects: u64, out: &mut O) -> Result<(), CommandError>
    ensures { IfOk result (λ _. Appends (O.contents out.old) (O.contents out.new) (served_line effects)) }
{
    writeln!(out, "served {effects}")?;
    out.flush()?;
    Ok(())
}

fn serve_rounds<L: Link, C: Clock, K: Keeper, V: Observer<E>, O: Write, E: Write>(
    server: &mut KeptServer<L, C, K>,
    limit: &RunLimit,
    watch: &mut V,
    out: &mut O,
    err: &mut E,
) -> Result<(), CommandError>
    requires { K.IsHonest (keeper_of server.old.round) → IsKept K.IsOpen K.kept K.noted (keeper_of server.old.round) server.old.bound_node.node.store }
    ensures printed { IfOk result (λ _. KeptText V.Sees limit.now.wait_limit limit.now.turns
        (observed (timed server.old.bound_node (C.told server.old.clock)) (V.state watch.old err.old))
        (observed (timed server.new.bound_node (C.told server.new.clock)) (V.state watch.new err.new)) (O.contents out.old) (O.contents out.new)) }
    ensures all { OnOk result (AllIsKept K.IsHonest K.IsOpen K.kept K.noted (keeper_of server.new.round) server.new.bound_node.node.store) }
    ensures honest { K.IsHonest (keeper_of server.new.round) → K.IsHonest (keeper_of server.old.round) }
    ensures base { K.base (keeper_of server.new.round) ≡ K.base (keeper_of server.old.round) }
    ensures kept { EndsKept Unseen limit.now.wait_limit limit.now.turns K.IsHonest K.IsOpen K.kept K.noted K.may_find (keeper_of server.new.round)
        (unwatched (timed server.old.bound_node (C.told server.old.clock))) (unwatched (timed server.new.bound_node (C.told server.new.clock))) }
{
    let effects = server
        .bound_node
        .serve_kept(&mut server.clock, limit, &mut server.round, watch, err)?;
    print_served(effects, out)?;
    Ok(())
}

/// Serves as [`serve`](crate::serve), but in rounds, and what a client is told is kept before it is told.
///
/// `link fault` and `clock fault` on `err` as by `serve`; `keep fault` where the keeper fails, with status `Output`. Then nothing of the last round was sent.
pub fn serve_kept<L: Link, C: Clock, K: Keeper, V: Observer<E>, O: Write, E: Write>(
    server: &mut KeptServer<L, C, K>,
    limit: &RunLimit,
    watch: &mut V,
    out: &mut O,
    err: &mut E,
) -> Status
    requires { K.IsHonest (keeper_of server.old.round) → IsKept K.IsOpen K.kept K.noted (keeper_of server.old.round) server.old.bound_node.node.store }
    ensures printed { ReportsKept result V.Sees limit.now.wait_limit limit.now.turns
        (observed (timed server.old.bound_node (C.told server.old.clock)) (V.state watch.old err.old))
        (observed (timed server.new.bound_node (C.told server.new.clock)) (V.state watch.new err.new)) (O.contents out.old) (O.contents out.new) }
    ensures all { IsKeptByStatus result K.IsHonest K.IsOpen K.kept K.noted (keeper_of server.new.round) server.new.bound_node.node.store }
    ensures honest { K.IsHonest (keeper_of server.new.round) → K.IsHonest (keeper_of server.old.round) }
    ensures base { K.base (keeper_of server.new.round) ≡ K.base (keeper_of server.old.round) }
    ensures kept { EndsKept Unseen limit.now.wait_limit limit.now.turns K.IsHonest K.IsOpen K.kept K.noted K.may_find (keeper_of server.new.round)
        (unwatched (timed server.old.bound_node (C.told server.old.clock))) (unwatched (timed server.new.bound_node (C.told server.new.clock))) }
{
    match serve_rounds(server, limit, watch, out, err) {
        Ok(()) => Status::Done,
        Err(command_error) => {
            // for the caller, who tells it with the path of the file
            server.fault = command_error.keep_fault();
            command_error.report_at(server.bound_node.node().link(), err)
        }
    }
}
