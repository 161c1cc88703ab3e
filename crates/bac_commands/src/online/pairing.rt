//! `bac pair`: two nodes in one process.
ghost use Rattle.std.specs.Prelude.{◌≡◌, ◌&&◌, IfOk};
ghost use Rattle.bac_service.specs.Views.{owned_request_view};
ghost use Rattle.bac_driver.specs.Pairs.{paired};
ghost use Rattle.bac_driver.specs.Views.{question_view};
ghost use Rattle.bac_commands.specs.Pairs.{ReportsPair, TwoTexts, PairText, append_request, read_request};

use super::ask_end::print_end;
use super::command_error::CommandError;
use super::question::{peer_at, question_for};
use super::success::is_answered;
use bac_driver::{BoundNode, Clock, Link, Question};
use bac_npdu::LinkAddress;
use bac_service::{
    AnyRequest, OwnedRequest, PropertyReference, WriteAccess, WriteFile, WriteStream,
};
use bac_text::Status;
use bac_value::{NoMemory, ObjectIdentifier, OctetString};
use std::alloc::Global;
use std::io::Write;

/// The most turns that each node takes for an ask.
const TURNS: u64 = 10_000;

/// Appends AABBCC to file 1.
fn append_request(alloc: Global) -> Result<OwnedRequest, NoMemory>
    ensures { IfOk result (λ r. owned_request_view r ≡ append_request) }
{
    let mut octets = Vec::with_capacity(alloc, 3)?;
    octets.push(0xAA)?;
    octets.push(0xBB)?;
    octets.push(0xCC)?;
    Ok(AnyRequest::WriteFile(WriteFile {
        file: ObjectIdentifier {
            kind: 10,
            instance: 1,
        },
        access: WriteAccess::Stream(WriteStream {
            // behind the end of the file
            start: -1,
            content: OctetString { octets },
        }),
    }))
}

/// Reads the present-value of analog-input 5.
fn read_request() -> OwnedRequest
    ensures { owned_request_view result ≡ read_request }
{
    AnyRequest::ReadProperty(PropertyReference {
        object: ObjectIdentifier {
            kind: 0,
            instance: 5,
        },
        property: 85,
        index: None,
    })
}

/// The first node asks, beside the second, and how that ended is printed. Answers whether it was answered.
fn ask_beside<L: Link, C: Clock, O: Write>(
    alloc: Global,
    first: &mut BoundNode<L>,
    second: &mut BoundNode<L>,
    clock: &mut C,
    question: &Question,
    out: &mut O,
) -> Result<bool, CommandError>
    ensures { IfOk result (λ answered. PairText answered (question_view question.now)
        (paired first.old second.old (C.told clock.old)) (paired first.new second.new (C.told clock.new)) (O.contents out.old) (O.contents out.new)) }
{
    let end = bac_driver::pair(first, second, clock, question, TURNS)?;
    print_end(alloc, &end, out)?;
    out.flush()?;
    Ok(is_answered(&end))
}

/// Whether both hold.
fn are_both(first: bool, second: bool) -> bool
    ensures { result ≡ first && second }
{
    first && second
}

/// The first node asks the second to append AABBCC to file 1, and then for the present-value of analog-input 5. Answers whether both were answered.
fn ask_both<L: Link, C: Clock, O: Write>(
    alloc: Global,
    first: &mut BoundNode<L>,
    second: &mut BoundNode<L>,
    clock: &mut C,
    out: &mut O,
) -> Result<bool, CommandError>
    ensures { IfOk result (λ answered. TwoTexts answered
        (paired first.old second.old (C.told clock.old)) (paired first.new second.new (C.told clock.new)) (O.contents out.old) (O.contents out.new)) }
{
    let peer = peer_at(second.node().link());
    let append = question_for(peer, append_request(alloc)?);
    let read = question_for(peer, read_request());
    let appended = ask_beside(alloc, first, second, clock, &append, out)?;
    let was_read = ask_beside(alloc, first, second, clock, &read, out)?;
    Ok(are_both(appended, was_read))
}

/// The address of the one whose link failed; the second's where both did not.
fn failed_of<L: Link>(first: &BoundNode<L>, second: &BoundNode<L>) -> LinkAddress {
    if first.link().failures() > 0 {
        first.node().link()
    } else {
        second.node().link()
    }
}

/// Two nodes, each on its own link, take turns. The first asks the second to append AABBCC to file 1, and then to read the present-value of
/// analog-input 5, each for at most 10,000 turns. How both asks ended is printed. Ends with `Faulty` where one was not answered.
///
/// `link fault` on `err` where a link can't receive, `clock fault` where the clock goes back, both with status `Output`; `no memory` where memory is refused.
pub fn pair<L: Link, C: Clock, O: Write, E: Write>(
    alloc: Global,
    first: &mut BoundNode<L>,
    second: &mut BoundNode<L>,
    clock: &mut C,
    out: &mut O,
    err: &mut E,
) -> Status
    ensures { ReportsPair result (paired first.old second.old (C.told clock.old)) (paired first.new second.new (C.told clock.new))
        (O.contents out.old) (O.contents out.new) }
{
    match ask_both(alloc, first, second, clock, out) {
        Ok(true) => Status::Done,
        Ok(false) => Status::Faulty,
        Err(command_error) => command_error.report_at(failed_of(first, second), err),
    }
}
