//! Nodes on links of the machine: what `ask` and `pair` do.
ghost use Rattle.std.specs.Prelude.{◌≡◌, map, IfErr, IfOk};
ghost use Rattle.bac_npdu.specs.Views.{peer_view};
ghost use Rattle.bac_commands.specs.Questions.{ReadsQuestion};
ghost use Rattle.bac_asking.specs.AskedOne.{IsAsked, ReadsAsked, is_printed_by};
ghost use Rattle.bac_asking.specs.Online.{ArePaired, IsHouseAt, IsPair};
ghost use Rattle.bac_environment.specs.Sockets.{OnClock, OnPort};
ghost use Rattle.bac_driver.specs.Udp.{LOCAL_HOST};
ghost use Rattle.bac_driver.specs.Views.{question_view};
ghost use Rattle.bac_text.specs.Statuses.{IsFailure};

use crate::asking::Asking;
use crate::rounds::{Asked, ask_by_client};
use bac_commands::{Style, bound_house, clock_unread, read_question};
use bac_driver::{BoundNode, Question};
use bac_environment::{
    ClientSockets, Environment, Guard, LOCAL_HOST, OpenFiles, print_bad_words, print_no_link,
};
use bac_npdu::Peer;
use bac_service_text::{FormFault, reads_file};
use bac_text::{Status, no_memory};
use std::alloc::Global;
use std::io::Write;

/// The question for a peer that some words are, as `bac ask` takes them. Returns `NoForm` if they are no request, and `NoMemory` if an allocation fails.
pub fn question_in(alloc: Global, peer: Peer, words: &[&str]) -> Result<Question, FormFault>
    ensures { ReadsQuestion (peer_view peer) (map (λ w. w.now) words.now) result }
{
    let mut octets = Vec::new(alloc);
    for word in words {
        if octets.push(word.as_bytes()).is_err() {
            return Err(FormFault::NoMemory);
        }
    }
    read_question(alloc, peer, &octets)
}

/// Whether a question can be printed so: octets of a file are there only for one that asks for them.
fn is_printed_by(style: Style, question: &Question) -> bool
    ensures { result ≡ is_printed_by style (question_view question.now).request }
{
    match style {
        Style::Numbers => true,
        Style::Words => true,
        Style::Octets => reads_file(question.request.as_request()),
    }
}

/// The same where it can be printed so; `NoForm` also where it can't.
fn asked_in(alloc: Global, style: Style, peer: Peer, words: &[&str]) -> Result<Question, FormFault>
    ensures { ReadsAsked style (peer_view peer) (map (λ w. w.now) words.now) result }
{
    let question = question_in(alloc, peer, words)?;
    if is_printed_by(style, &question) {
        Ok(question)
    } else {
        Err(FormFault::NoForm)
    }
}

/// A client asks a node, in rounds where they are wanted; how each ask ended is printed as is wanted. Words that are no request: `bad words` on `err`, and in
/// words which is bad.
pub(crate) fn ask<F: OpenFiles, M: ClientSockets, O: Write, E: Write>(
    environment: &Environment<'_, F, M>,
    asking: &Asking,
    peer: Peer,
    words: &[&str],
    out: &mut O,
    err: &mut E,
) -> Status
    ensures { IsAsked (OnPort M.is_bound M.Link.failures M.Link.calls) (OnClock M.is_made M.Timer.told) result asking.now (peer_view peer) (map (λ w. w.now) words.now)
        (O.contents out.old) (O.contents out.new) }
{
    let alloc = environment.alloc;
    let style = asking.output_format.style;
    let question = match asked_in(alloc, style, peer, words) {
        Ok(question) => question,
        Err(FormFault::NoForm) => {
            return match print_bad_words(alloc, style, words, err) {
                Ok(()) => Status::CommandLine,
                Err(_) => no_memory(err),
            };
        }
        Err(FormFault::NoMemory) => return no_memory(err),
    };
    let asked = Asked::One(question);
    ask_by_client(alloc, environment.machine, asking, &asked, out, err)
}

/// A new node with the house store, at a free port of this machine. Where there is none, `err` and the status say so.
fn house_here<M: ClientSockets, E: Write>(
    alloc: Global,
    machine: &M,
    err: &mut E,
) -> Result<BoundNode<M::Link>, Status>
    ensures house { IfOk result (λ b. IsHouseAt (OnPort M.is_bound M.Link.failures M.Link.calls) LOCAL_HOST 0 b) }
    ensures failed { IfErr result IsFailure }
{
    let guard = Guard::open();
    let bound = match machine.bind(LOCAL_HOST, 0, &guard) {
        Ok(bound) => bound,
        Err(error) => return Err(print_no_link(LOCAL_HOST, 0, &error, err)),
    };
    let address = bound.1;
    let Ok(bound_node) = bound_house(alloc, bound.0, address, 0) else {
        return Err(no_memory(err));
    };
    Ok(bound_node)
}

/// One of two nodes asks the other, beside a new clock; prints both results. Where there is no clock, `err` and the status say so.
fn pair_nodes<M: ClientSockets, O: Write, E: Write>(
    alloc: Global,
    machine: &M,
    first: &mut BoundNode<M::Link>,
    second: &mut BoundNode<M::Link>,
    out: &mut O,
    err: &mut E,
) -> Status
    ensures { ArePaired (OnClock M.is_made M.Timer.told) result first.old second.old (O.contents out.old) (O.contents out.new) }
{
    match machine.timer() {
        Some(mut timer) => bac_commands::pair(alloc, first, second, &mut timer, out, err),
        None => clock_unread(err),
    }
}

/// Binds two new nodes to free ports, and one asks the other; prints both results.
pub fn pair<M: ClientSockets, O: Write, E: Write>(
    alloc: Global,
    machine: &M,
    out: &mut O,
    err: &mut E,
) -> Status
    ensures { IsPair (OnPort M.is_bound M.Link.failures M.Link.calls) (OnClock M.is_made M.Timer.told) result
        (O.contents out.old) (O.contents out.new) }
{
    let mut first = match house_here(alloc, machine, err) {
        Ok(first) => first,
        Err(status) => return status,
    };
    let mut second = match house_here(alloc, machine, err) {
        Ok(second) => second,
        Err(status) => {
            drop(first);
            return status;
        }
    };
    let status = pair_nodes(alloc, machine, &mut first, &mut second, out, err);
    drop(second);
    drop(first);
    status
}
