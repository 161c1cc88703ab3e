//! Asks.
ghost use Rattle.std.specs.Prelude.{◌≡◌, ◌≢◌, IfOk, IsTrue, OnErr};
ghost use Rattle.bac_c.specs.Asking.{fault_for, get_of, put_of, read_of, request_of as plain_request, write_of, HasAsked, IsAskFault, IsAskStatus, IsAsking};
ghost use Rattle.bac_c.specs.Devices.{Ran};
ghost use Rattle.bac_c.specs.Ranges.{can_ask, is_instance, is_put, is_question, is_reference, is_written};
ghost use Rattle.bac_c.specs.Statuses.{is_one_of, status_of, ASKING, DONE};

use crate::device::Device;
use crate::fault::{Fault, status};
use crate::handle::Handle;
use crate::question::Question;
use crate::records::{Reference, Target};
use crate::requests::request_of;
use bac_apdu::Limits;
use bac_node::Outcome;
use bac_npdu::Peer;
use bac_requester::{AskFault, Asked};
use std::alloc::Global;

/// The fault of an ask.
fn fault_of(fault: AskFault) -> Fault
    ensures { result ≡ fault_for fault }
{
    match fault {
        AskFault::ClockBack => Fault::ClockBack,
        AskFault::SelfPeer => Fault::SelfPeer,
        AskFault::TooLong => Fault::TooLong,
        AskFault::NeedsSegments => Fault::NeedsSegments,
        AskFault::NoInvokeId => Fault::NoInvokeId,
        AskFault::NoSlot => Fault::NoSlot,
        AskFault::NoMemory => Fault::NoMemory,
    }
}

impl Device {
    /// Asks a peer, at a moment in milliseconds: the ticket's number.
    pub fn ask(
        &mut self,
        alloc: Global,
        now: u64,
        target: &Target,
        question: &Question<'_>,
    ) -> Result<u64, Fault>
        ensures asked { IfOk result (λ t. Ran (IsAsking now target.now (plain_request question.now) t) self.old self.new) }
        ensures fault { IsAskFault (can_ask target.now (is_question question.now)) now target.now (plain_request question.now) self.old result }
        ensures few { IsTrue (is_one_of ASKING (status_of result)) }
        ensures err { OnErr result (self.new ≡ self.old) }
    {
        let Some(node) = &mut self.node else {
            return Err(Fault::NotStarted);
        };
        let Some(limits) = Limits::new(target.max_apdu, target.takes_segments, target.max_segments)
        else {
            return Err(Fault::BadRequest);
        };
        let request = request_of(alloc, question)?;
        let peer = Peer {
            link: target.link,
            route: None,
        };
        match node.ask(now, &peer, &limits, &request) {
            Ok(
                Asked {
                    ticket,
                    invoke_id: _,
                    sends,
                },
            ) => {
                self.outcome = Outcome {
                    sends,
                    effect: None,
                    ended: Vec::new(alloc),
                    dropped: None,
                    turned_away: false,
                };
                Ok(ticket)
            }
            Err(fault) => Err(fault_of(fault)),
        }
    }
}

/// Asks a peer: the status, and the ticket is put out.
#[tactic(auto, using(crate::proofs::Refusals::done_refuses, crate::proofs::Refusals::refuses))]
fn ask_by(
    alloc: Global,
    handle: &mut Handle,
    now: u64,
    target: &Target,
    question: &Question<'_>,
    ticket: &mut u64,
) -> u32
    ensures went { result ≡ DONE → HasAsked now target.now (plain_request question.now) ticket.new handle.old.parked.device handle.new.parked.device }
    ensures status { IsAskStatus (can_ask target.now (is_question question.now)) now target.now (plain_request question.now) handle.old.parked.device result }
    ensures few { IsTrue (is_one_of ASKING result) }
    ensures kept { result ≢ DONE → ticket.new ≡ ticket.old }
    ensures err { result ≢ DONE → handle.new.parked.device ≡ handle.old.parked.device }
{
    let Some(mut device) = handle.take(alloc) else {
        return status(Err(Fault::NotOpen));
    };
    let asked = device.ask(alloc, now, target, question);
    handle.put(device);
    match asked {
        Ok(number) => {
            *ticket = number;
            status(Ok(()))
        }
        Err(fault) => status(Err(fault)),
    }
}

/// Asks for a property, at a moment in milliseconds.
#[unsafe(no_mangle)]
pub extern "C" fn bac_ask_read(
    alloc: Global,
    handle: &mut Handle,
    now: u64,
    target: &Target,
    reference: &Reference,
    ticket: &mut u64,
) -> u32
    ensures went { result ≡ DONE → HasAsked now target.now (read_of reference.now) ticket.new handle.old.parked.device handle.new.parked.device }
    ensures status { IsAskStatus (can_ask target.now (is_reference reference.now)) now target.now (read_of reference.now) handle.old.parked.device result }
    ensures few { IsTrue (is_one_of ASKING result) }
    ensures kept { result ≢ DONE → ticket.new ≡ ticket.old }
    ensures err { result ≢ DONE → handle.new.parked.device ≡ handle.old.parked.device }
{
    let question = Question::Read(*reference);
    ask_by(alloc, handle, now, target, &question, ticket)
}

/// Asks to write octets of data to a property, with a priority where it is not 0.
#[unsafe(no_mangle)]
pub extern "C" fn bac_ask_write(
    alloc: Global,
    handle: &mut Handle,
    now: u64,
    target: &Target,
    reference: &Reference,
    octets: &[u8],
    priority: u8,
    ticket: &mut u64,
) -> u32
    ensures went { result ≡ DONE → HasAsked now target.now (write_of reference.now octets.now priority) ticket.new handle.old.parked.device handle.new.parked.device }
    ensures status { IsAskStatus (can_ask target.now (is_written reference.now octets.now priority)) now target.now (write_of reference.now octets.now priority) handle.old.parked.device result }
    ensures few { IsTrue (is_one_of ASKING result) }
    ensures kept { result ≢ DONE → ticket.new ≡ ticket.old }
    ensures err { result ≢ DONE → handle.new.parked.device ≡ handle.old.parked.device }
{
    let question = Question::Write {
        reference: *reference,
        octets,
        priority,
    };
    ask_by(alloc, handle, now, target, &question, ticket)
}

/// Asks to write octets to a file from a position on; position -1 appends them.
#[unsafe(no_mangle)]
pub extern "C" fn bac_ask_put(
    alloc: Global,
    handle: &mut Handle,
    now: u64,
    target: &Target,
    file: u32,
    position: i64,
    octets: &[u8],
    ticket: &mut u64,
) -> u32
    ensures went { result ≡ DONE → HasAsked now target.now (put_of file position octets.now) ticket.new handle.old.parked.device handle.new.parked.device }
    ensures status { IsAskStatus (can_ask target.now (is_put file octets.now)) now target.now (put_of file position octets.now) handle.old.parked.device result }
    ensures few { IsTrue (is_one_of ASKING result) }
    ensures kept { result ≢ DONE → ticket.new ≡ ticket.old }
    ensures err { result ≢ DONE → handle.new.parked.device ≡ handle.old.parked.device }
{
    let question = Question::Put {
        file,
        position,
        octets,
    };
    ask_by(alloc, handle, now, target, &question, ticket)
}

/// Asks for so many octets of a file from a position on.
#[unsafe(no_mangle)]
pub extern "C" fn bac_ask_get(
    alloc: Global,
    handle: &mut Handle,
    now: u64,
    target: &Target,
    file: u32,
    position: i64,
    count: u64,
    ticket: &mut u64,
) -> u32
    ensures went { result ≡ DONE → HasAsked now target.now (get_of file position count) ticket.new handle.old.parked.device handle.new.parked.device }
    ensures status { IsAskStatus (can_ask target.now (is_instance file)) now target.now (get_of file position count) handle.old.parked.device result }
    ensures few { IsTrue (is_one_of ASKING result) }
    ensures kept { result ≢ DONE → ticket.new ≡ ticket.old }
    ensures err { result ≢ DONE → handle.new.parked.device ≡ handle.old.parked.device }
{
    let question = Question::Get {
        file,
        position,
        count,
    };
    ask_by(alloc, handle, now, target, &question, ticket)
}
