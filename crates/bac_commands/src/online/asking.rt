//! `bac ask`: a node that asks.
ghost use Rattle.std.specs.Prelude.{◌≡◌, IfOk};
ghost use Rattle.bac_driver.specs.Asking.{AskingEnds};
ghost use Rattle.bac_driver.specs.Runs.{timed};
ghost use Rattle.bac_driver.specs.Views.{question_view};
ghost use Rattle.bac_commands.specs.AskEnds.{Asked, ReportsAsking};
ghost use Rattle.bac_commands.specs.Spent.{is_spent};

use super::ask_end::print_ask_end;
use super::command_error::CommandError;
use super::output_format::OutputFormat;
use super::progress::Progress;
use bac_driver::{AskEnd, BoundNode, Clock, Link, Question, RunLimit, WaitLimit};
use bac_requester::AskFault;
use bac_text::Status;
use std::alloc::Global;
use std::io::Write;

/// The most turns that a node takes for an ask.
pub const TURNS: u64 = 100_000;

/// What a node asks, how long it waits for the answer, and how the end of the ask is printed.
#[derive(Drop)]
pub struct AskCommand<'a> {
    /// Whom it asks, and for what.
    pub question: &'a Question,
    /// How long each turn waits, and from which moment on none begins.
    pub wait_limit: WaitLimit,
    /// How the end of the ask is printed, and which ends are a success.
    pub output_format: OutputFormat,
    /// Whether progress is shown on standard error.
    pub shows_progress: bool,
}

/// Whether an ask was refused since its node has no invoke ID left for the peer, or no slot. A node that has asked nothing never refuses one for
/// that.
pub fn is_spent(fault: AskFault) -> bool
    ensures { result ≡ is_spent fault }
{
    match fault {
        AskFault::NoSlot => true,
        AskFault::NoInvokeId => true,
        AskFault::NeedsSegments => false,
        AskFault::TooLong => false,
        AskFault::SelfPeer => false,
        AskFault::ClockBack => false,
        AskFault::NoMemory => false,
    }
}

/// A node asks, and takes at most 100,000 turns on its link until the ask has ended. Answers how it did; nothing is printed of that. Where progress is shown,
/// one line of `err`, a terminal, has it until then, as [`ask`] says.
///
/// `Link` where the link can't receive, `Clock` where the clock goes back.
pub fn ask_unprinted<L: Link, C: Clock, E: Write>(
    bound_node: &mut BoundNode<L>,
    clock: &mut C,
    command: &AskCommand<'_>,
    err: &mut E,
) -> Result<AskEnd, CommandError>
    ensures { IfOk result (λ end. AskingEnds (question_view command.now.question.now) end command.now.wait_limit 100000
        (timed bound_node.old (C.told clock.old)) (timed bound_node.new (C.told clock.new))) }
{
    let limit = RunLimit {
        turns: TURNS,
        wait_limit: command.wait_limit,
    };
    let mut progress = Progress::new(command.shows_progress);
    let ended = bound_node.ask_observed(clock, command.question, &limit, &mut progress, err);
    // also before a fault is told, which needs a line of its own
    progress.end(err);
    let end = ended?;
    Ok(end)
}

/// Asks, and prints how that ended. Answers whether the ask succeeded.
fn ask_and_print<L: Link, C: Clock, O: Write, E: Write>(
    alloc: Global,
    bound_node: &mut BoundNode<L>,
    clock: &mut C,
    command: &AskCommand<'_>,
    out: &mut O,
    err: &mut E,
) -> Result<bool, CommandError>
    ensures { IfOk result (λ succeeded. Asked command.now.output_format succeeded (question_view command.now.question.now) command.now.wait_limit
        (timed bound_node.old (C.told clock.old)) (timed bound_node.new (C.told clock.new)) (O.contents out.old) (O.contents out.new)) }
{
    let end = ask_unprinted(bound_node, clock, command, err)?;
    let request = &command.question.request;
    let succeeded = print_ask_end(alloc, command.output_format, request, &end, out, err)?;
    Ok(succeeded)
}

/// A node asks, and takes at most 100,000 turns on its link until the ask has ended; how it did is printed as [`print_ask_end`](crate::print_ask_end)
/// does. Ends with `Faulty` where the ask did not succeed. Where progress is shown, one line of `err`, a terminal, has how many octets its turns have
/// sent and received. It is there from the first quarter of a second on, until the ask has ended.
///
/// `link fault` on `err` where the link can't receive, `clock fault` where the clock goes back, both with status `Output`; `no memory` where memory is
/// refused.
pub fn ask<L: Link, C: Clock, O: Write, E: Write>(
    alloc: Global,
    bound_node: &mut BoundNode<L>,
    clock: &mut C,
    command: &AskCommand<'_>,
    out: &mut O,
    err: &mut E,
) -> Status
    ensures { ReportsAsking result command.now.output_format (question_view command.now.question.now) command.now.wait_limit
        (timed bound_node.old (C.told clock.old)) (timed bound_node.new (C.told clock.new)) (O.contents out.old) (O.contents out.new) }
{
    match ask_and_print(alloc, bound_node, clock, command, out, err) {
        Ok(true) => Status::Done,
        Ok(false) => Status::Faulty,
        Err(command_error) => command_error.report_at(bound_node.node().link(), err),
    }
}
