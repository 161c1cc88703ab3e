//! Serving in stretches, between which a program does something else.
ghost use Rattle.std.specs.Prelude.{IfErr, IfOk, OnOk};
ghost use Rattle.std.specs.Io.KnownBytes.{Appends};
ghost use Rattle.bac_driver.specs.Runs.{timed};
ghost use Rattle.bac_driver.specs.Serving.{Serves};
ghost use Rattle.bac_text.specs.Statuses.{IsFailure};
ghost use Rattle.bac_commands.specs.Reports.{served_line};

use crate::log_level::LevelLog;
use bac_commands::CommandError;
use bac_driver::{BoundNode, Clock, Link, RunLimit};
use bac_text::{Status, output_failed};
use std::io;
use std::io::Write;

/// A node takes turns until the limit is reached, and a log tells of them on `err`. Returns how many requests it performed.
///
/// `link fault` on `err` where the link can't receive, `clock fault` where the clock goes back.
pub fn serve_stretch<L: Link, C: Clock, E: Write>(
    bound_node: &mut BoundNode<L>,
    clock: &mut C,
    limit: &RunLimit,
    log: &mut LevelLog,
    err: &mut E,
) -> Result<u64, Status>
    ensures served { IfOk result (λ effects. Serves limit.now.wait_limit limit.now.turns effects
        (timed bound_node.old (C.told clock.old)) (timed bound_node.new (C.told clock.new))) }
    ensures failed { IfErr result IsFailure }
{
    match bound_node.serve_observed(clock, limit, log, err) {
        Ok(effects) => Ok(effects),
        Err(fault) => {
            let own = bound_node.node().link();
            Err(CommandError::from(fault).report_at(own, err))
        }
    }
}

/// Prints how many requests a server performed.
fn print_line<O: Write>(effects: u64, out: &mut O) -> io::Result<()>
    ensures { OnOk result (Appends (O.contents out.old) (O.contents out.new) (served_line effects)) }
{
    writeln!(out, "served {effects}")?;
    out.flush()
}

/// Prints how many requests a server performed; where that fails, `err` and the status say so.
pub fn print_served<O: Write, E: Write>(
    effects: u64,
    out: &mut O,
    err: &mut E,
) -> Result<(), Status>
    ensures printed { OnOk result (Appends (O.contents out.old) (O.contents out.new) (served_line effects)) }
    ensures failed { IfErr result IsFailure }
{
    match print_line(effects, out) {
        Ok(()) => Ok(()),
        Err(error) => Err(output_failed(err, &error)),
    }
}
