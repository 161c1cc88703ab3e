//! `bac serve`: a node that serves.
ghost use Rattle.std.specs.Prelude.{IfOk};
ghost use Rattle.bac_driver.specs.Runs.{timed};
ghost use Rattle.bac_commands.specs.Reports.{ReportsServing, ServedText, ServingIsWatched, WatchedServing};

use bac_commands::CommandError;
use bac_driver::{BoundNode, Clock, Link, Observer, RunLimit};
use bac_text::Status;
use std::io::Write;

fn serve_and_print<L: Link, C: Clock, V: Observer<E>, O: Write, E: Write>(
    bound_node: &mut BoundNode<L>,
    clock: &mut C,
    limit: &RunLimit,
    watch: &mut V,
    out: &mut O,
    err: &mut E,
) -> Result<(), CommandError>
    ensures printed { IfOk result (λ _. ServedText limit.now.wait_limit limit.now.turns
        (timed bound_node.old (C.told clock.old)) (timed bound_node.new (C.told clock.new)) (O.contents out.old) (O.contents out.new)) }
    ensures watched { IfOk result (λ _. WatchedServing V.Sees limit.now.wait_limit limit.now.turns
        (timed bound_node.old (C.told clock.old)) (timed bound_node.new (C.told clock.new)) (V.state watch.old err.old) (V.state watch.new err.new)) }
{
    let effects = bound_node.serve_observed(clock, limit, watch, err)?;
    writeln!(out, "served {effects}")?;
    out.flush()?;
    Ok(())
}

/// A node takes turns on its link until the limit is reached, and how many requests it performed is printed. The watcher sees each turn, and may print on
/// `err`.
///
/// `link fault` on `err` where the link can't receive, with its address, `clock fault` where the clock goes back, both with status `Output`.
pub fn serve<L: Link, C: Clock, V: Observer<E>, O: Write, E: Write>(
    bound_node: &mut BoundNode<L>,
    clock: &mut C,
    limit: &RunLimit,
    watch: &mut V,
    out: &mut O,
    err: &mut E,
) -> Status
    ensures printed { ReportsServing result limit.now.wait_limit limit.now.turns
        (timed bound_node.old (C.told clock.old)) (timed bound_node.new (C.told clock.new)) (O.contents out.old) (O.contents out.new) }
    ensures watched { ServingIsWatched result V.Sees limit.now.wait_limit limit.now.turns
        (timed bound_node.old (C.told clock.old)) (timed bound_node.new (C.told clock.new)) (V.state watch.old err.old) (V.state watch.new err.new) }
{
    match serve_and_print(bound_node, clock, limit, watch, out, err) {
        Ok(()) => Status::Done,
        Err(command_error) => command_error.report_at(bound_node.node().link(), err),
    }
}
