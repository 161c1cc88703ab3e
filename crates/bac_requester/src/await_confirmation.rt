//! AWAIT_CONFIRMATION (clause 5.4.4.3): what an APDU of the server makes of a transaction whose request was sent.
//!
//! `transaction_on_apdu` calls [`await_confirmation_on_apdu`], also in SEGMENTED_REQUEST once all segments were sent. All here is private to the crate.
ghost use Rattle.std.specs.Prelude.{◌≡◌, ◌&&◌, [], IfOk, nat_eq};
ghost use Rattle.bac_apdu.specs.Views.{apdu_view, segment_view};
ghost use Rattle.bac_service.specs.Choices.{has_complex_ack, has_simple_ack};
ghost use Rattle.bac_service.specs.Services.{reads_reply};
ghost use Rattle.bac_protocol.specs.Client.{answered_with, await_confirmation_on_apdu, on_complex_ack, on_error, on_first_segment, on_simple_ack};
ghost use Rattle.bac_requester.specs.Transitions.{IsClosing, MakesTransition, TriesTransition};
ghost use Rattle.bac_transaction.specs.Views.{context_view};

use crate::ending::Ending;
use crate::reading::read_one;
use crate::segmented_conf::takes_segment;
use crate::transaction::{ClientTransaction, Phase};
use crate::transaction_on_apdu::on_refusal;
use crate::transition::{Closing, Transition, closes, ends, stays};
use bac_apdu::{Apdu, Segment};
use bac_protocol::reasons::OTHER;
use bac_segment::Incoming;
use bac_service::{AnyReply, Service};
use bac_transaction::{Context, only_abort};
use bac_value::NoMemory;
use std::alloc::Global;

/// Whether a request of that service choice is answered by a ComplexACK.
fn has_complex_ack(choice: u8) -> bool
    ensures { result ≡ has_complex_ack choice }
{
    match Service::of(choice) {
        Some(service) => service.has_complex_ack(),
        None => false,
    }
}

/// Whether a request of that service choice is answered by a SimpleACK.
fn has_simple_ack(choice: u8) -> bool
    ensures { result ≡ has_simple_ack choice }
{
    match Service::of(choice) {
        Some(service) => service.has_simple_ack(),
        None => false,
    }
}

/// A SimpleACK comes.
fn on_simple_ack(
    alloc: Global,
    context: &Context,
    transaction: &ClientTransaction,
    choice: u8,
) -> Transition
    ensures { MakesTransition context.now transaction.now (on_simple_ack transaction.now.ask choice) result transaction.now }
{
    // an ack that does not fit the request is ignored
    if choice != transaction.choice() || !has_simple_ack(choice) {
        return stays(alloc, context, transaction);
    }
    ends(alloc, Ending::Answered(AnyReply::Simple))
}

/// An Error comes.
fn on_error(
    alloc: Global,
    context: &Context,
    transaction: &ClientTransaction,
    choice: u8,
    class: u32,
    code: u32,
) -> Transition
    ensures { MakesTransition context.now transaction.now (on_error transaction.now.ask choice class code) result transaction.now }
{
    if choice != transaction.choice() {
        return stays(alloc, context, transaction);
    }
    ends(alloc, Ending::Answered(AnyReply::Error { class, code }))
}

/// The service data of a ComplexACK in one APDU.
fn close_with_one(
    alloc: Global,
    context: &Context,
    choice: u8,
    service: &[u8],
) -> Result<Closing, NoMemory>
    ensures { IfOk result (IsClosing context.now choice (answered_with (context_view context.now) reads_reply choice [] service.now)) }
{
    let Some(complex) = read_one(alloc, choice, service)? else {
        // what can't be read ends the transaction at both ends
        let sends = only_abort(alloc, context, false, OTHER)?;
        return Ok(Closing {
            sends,
            ending: Ending::Aborted(OTHER),
        });
    };
    Ok(Closing {
        sends: Vec::new(alloc),
        ending: Ending::Answered(AnyReply::Complex(complex)),
    })
}

/// A ComplexACK in one APDU comes.
fn on_complex_ack(
    alloc: Global,
    context: &Context,
    transaction: &ClientTransaction,
    choice: u8,
    service: &[u8],
) -> Result<Transition, NoMemory>
    ensures { TriesTransition context.now transaction.now (on_complex_ack (context_view context.now) reads_reply transaction.now.ask choice service.now) result transaction.now }
{
    // an ack that does not fit the request is ignored
    if choice != transaction.choice() || !has_complex_ack(choice) {
        return Ok(stays(alloc, context, transaction));
    }
    let closing = close_with_one(alloc, context, choice, service)?;
    Ok(closes(closing))
}

/// Whether a segment is the first of a reply that is awaited, on a node that takes segments.
fn is_first_segment(context: &Context, asked: u8, choice: u8, number: u8) -> bool
    ensures { result ≡ (nat_eq choice asked && (has_complex_ack asked && (context.now.settings.limits.takes_segments && nat_eq number 0))) }
{
    choice == asked
        && has_complex_ack(asked)
        && context.settings.limits.takes_segments
        && number == 0
}

/// A segment of a ComplexACK comes, where none has come.
fn on_first_segment(
    alloc: Global,
    context: &Context,
    transaction: &mut ClientTransaction,
    segment: Segment,
    choice: u8,
    service: &[u8],
) -> Result<Transition, NoMemory>
    ensures { TriesTransition context.now transaction.old
        (on_first_segment (context_view context.now) reads_reply transaction.old.ask (segment_view segment) choice service.now) result transaction.new }
{
    if !is_first_segment(context, transaction.choice(), choice, segment.number) {
        return Ok(stays(alloc, context, transaction));
    }
    let mut incoming = Incoming::new(alloc, segment.window, context.settings.window);
    let transition = takes_segment(
        alloc,
        context,
        &transaction.core,
        &mut incoming,
        segment,
        service,
    )?;
    // only once nothing can fail any more
    transaction.core.since = context.moment;
    transaction.phase = Phase::SegmentedConf { incoming };
    Ok(transition)
}

/// An APDU comes in AWAIT_CONFIRMATION, or in SEGMENTED_REQUEST once all segments were sent.
pub(crate) fn await_confirmation_on_apdu(
    alloc: Global,
    context: &Context,
    transaction: &mut ClientTransaction,
    apdu: &Apdu<'_>,
) -> Result<Transition, NoMemory>
    ensures { TriesTransition context.now transaction.old
        (await_confirmation_on_apdu (context_view context.now) reads_reply transaction.old.ask (apdu_view apdu.now)) result transaction.new }
{
    match *apdu {
        // SimpleACK_Received
        Apdu::SimpleAck { choice, .. } => Ok(on_simple_ack(alloc, context, transaction, choice)),
        Apdu::ComplexAck {
            segment,
            choice,
            service,
            ..
        } => match segment {
            // UnsegmentedComplexACK_Received
            None => on_complex_ack(alloc, context, transaction, choice, service),
            // SegmentedComplexACK_Received
            Some(segment) => on_first_segment(
                alloc,
                context,
                transaction,
                segment,
                choice,
                service,
            ),
        },
        // ErrorPDU_Received
        Apdu::Error {
            choice,
            class,
            code,
            ..
        } => Ok(on_error(alloc, context, transaction, choice, class, code)),
        _ => Ok(on_refusal(alloc, context, transaction, apdu)),
    }
}
