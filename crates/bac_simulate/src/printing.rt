//! What came of an event, line by line.
ghost use Rattle.std.specs.Prelude.{◌≡◌, ◌++◌, false, drop, length, map, slice_get, string_bytes, IfOk, OnOk};
ghost use Rattle.std.specs.Io.KnownBytes.{Appends};
ghost use Rattle.bac_journal.specs.Notes.{note_view};
ghost use Rattle.bac_journal.specs.Views.{copy_view};
ghost use Rattle.bac_network.specs.Views.{fact_view};
ghost use Rattle.bac_npdu.specs.Views.{peer_view};
ghost use Rattle.bac_service.specs.Views.{owned_reply_view};
ghost use Rattle.bac_commands.specs.Facts.{sent_line};
ghost use Rattle.bac_service_text.specs.Answers.{reply_text};
ghost use Rattle.bac_text.specs.Texts.{line_end};
ghost use Rattle.bac_simulate.specs.Printed.{asked_away_line, asked_text, copies_text, fact_text, facts_text, is_as_before, lost_line, news_text, outcome_text};
ghost use Rattle.bac_simulate.specs.Printed.{pace_text, paced_line, restarted_line, served_head, served_line};

use bac_commands::{
    print_asked, print_changed, print_ended, print_nothing, print_performed, print_refused,
    print_sent,
};
use bac_journal::{Copy, Note};
use bac_network::{Fact, World};
use bac_npdu::Peer;
use bac_requester::AskFault;
use bac_service::OwnedReply;
use bac_service_text::print_reply;
use bac_text::peer_text;
use std::alloc::{AllocError, Global};
use std::io;
use std::io::Write;

/// How many facts and copies there are.
#[derive(Clone, Copy)]
pub(crate) struct Seen {
    pub(crate) facts: usize,
    pub(crate) copies: usize,
}

impl Seen {
    /// What there is in a world now.
    pub(crate) fn of(world: &World) -> Seen
        ensures facts { result.facts ≡ length world.now.log }
        ensures copies { result.copies ≡ length world.now.copies }
    {
        Seen {
            facts: world.log().len(),
            copies: world.copies().len(),
        }
    }
}

fn print_accepted<W: Write>(asks: &[Note], number: usize, out: &mut W) -> io::Result<()>
    ensures { OnOk result (Appends (W.contents out.old) (W.contents out.new) (asked_text number (slice_get (map note_view asks.now) number))) }
{
    match asks.get(number) {
        Some(note) => print_asked(number as u64, note.transaction.invoke_id, out),
        None => Ok(()),
    }
}

/// Prints that the node with that number restarted.
fn print_restarted<W: Write>(node: u64, out: &mut W) -> io::Result<()>
    ensures { OnOk result (Appends (W.contents out.old) (W.contents out.new) (restarted_line node)) }
{
    writeln!(out, "restarted {node}")
}

/// Prints a reply, and the end of the line.
fn print_reply_line<W: Write>(alloc: Global, reply: &OwnedReply, out: &mut W) -> io::Result<()>
    ensures { OnOk result (Appends (W.contents out.old) (W.contents out.new) (reply_text (owned_reply_view reply.now) ++ line_end)) }
{
    print_reply(alloc, reply.as_reply(), out)?;
    out.write_all(b"\n")
}

/// Prints of which stranger a request was performed, and at which node.
fn print_served_head<W: Write>(alloc: Global, node: u64, peer: Peer, out: &mut W) -> io::Result<()>
    ensures { OnOk result (Appends (W.contents out.old) (W.contents out.new) (served_head node (peer_view peer))) }
{
    let peer = peer_text(alloc, peer)?;
    write!(out, "served {node} {peer}: ")
}

/// Prints that a request of a stranger was performed, with that reply.
fn print_served<W: Write>(
    alloc: Global,
    node: u64,
    peer: Peer,
    reply: &OwnedReply,
    out: &mut W,
) -> io::Result<()>
    ensures { OnOk result (Appends (W.contents out.old) (W.contents out.new) (served_line node (peer_view peer) (owned_reply_view reply.now))) }
{
    print_served_head(alloc, node, peer, out)?;
    print_reply_line(alloc, reply, out)
}

/// Prints that an ask of a stranger was accepted.
fn print_asked_away<W: Write>(alloc: Global, number: u64, peer: Peer, out: &mut W) -> io::Result<()>
    ensures { OnOk result (Appends (W.contents out.old) (W.contents out.new) (asked_away_line number (peer_view peer))) }
{
    let peer = peer_text(alloc, peer)?;
    writeln!(out, "asked {number} {peer}")
}

/// By how many parts in a million a clock is fast, or slow after a minus.
pub(crate) fn pace_text(alloc: Global, rate: u32) -> Result<String, AllocError>
    ensures { IfOk result (λ t. string_bytes t ≡ pace_text rate) }
{
    if rate >= 1_000_000 {
        let parts = rate - 1_000_000;
        format!(in alloc; "{parts}")
    } else {
        let parts = 1_000_000 - rate;
        format!(in alloc; "-{parts}")
    }
}

/// Prints that a node's clock goes so fast from now on.
pub(crate) fn print_paced<W: Write>(
    alloc: Global,
    node: u64,
    rate: u32,
    out: &mut W,
) -> io::Result<()>
    ensures { OnOk result (Appends (W.contents out.old) (W.contents out.new) (paced_line node rate)) }
{
    let pace = pace_text(alloc, rate)?;
    writeln!(out, "paced {node} {pace}")
}

fn print_fact<W: Write>(alloc: Global, asks: &[Note], fact: &Fact, out: &mut W) -> io::Result<()>
    ensures { OnOk result (Appends (W.contents out.old) (W.contents out.new) (fact_text (map note_view asks.now) (fact_view fact.now))) }
{
    match fact {
        Fact::Asked { number, .. } => print_accepted(asks, *number, out),
        Fact::Performed { number, .. } => print_performed(*number as u64, out),
        Fact::Ended { number, how } => print_ended(alloc, *number as u64, how, out),
        Fact::Changed { node, .. } => print_changed(*node as u64, out),
        Fact::Restarted { node, .. } => print_restarted(*node as u64, out),
        Fact::Served {
            peer,
            node,
            reply,
            ..
        } => print_served(alloc, *node as u64, *peer, reply, out),
        Fact::AskedAway { number, peer, .. } => {
            print_asked_away(alloc, *number as u64, *peer, out)
        }
        Fact::EndedAway { number, how } => print_ended(alloc, *number as u64, how, out),
    }
}

fn print_copy<W: Write>(alloc: Global, number: usize, copy: &Copy, out: &mut W) -> io::Result<()>
    ensures { OnOk result (Appends (W.contents out.old) (W.contents out.new) (sent_line number copy.now.from copy.now.to copy.now.octets.items)) }
{
    print_sent(
        alloc,
        number as u64,
        copy.from as u64,
        copy.to as u64,
        &copy.octets,
        out,
    )
}

/// Prints the facts after so many.
fn print_facts<W: Write>(
    alloc: Global,
    asks: &[Note],
    log: &[Fact],
    before: usize,
    out: &mut W,
) -> io::Result<()>
    ensures { OnOk result (Appends (W.contents out.old) (W.contents out.new)
        (facts_text (map note_view asks.now) (drop before (map fact_view log.now)))) }
{
    for number in before..log.len() {
        print_fact(alloc, asks, &log[number], out)?;
    }
    Ok(())
}

/// Prints the copies after so many.
fn print_copies<W: Write>(
    alloc: Global,
    copies: &[Copy],
    before: usize,
    out: &mut W,
) -> io::Result<()>
    ensures { OnOk result (Appends (W.contents out.old) (W.contents out.new) (copies_text before (drop before (map copy_view copies.now)))) }
{
    for number in before..copies.len() {
        print_copy(alloc, number, &copies[number], out)?;
    }
    Ok(())
}

/// Prints that a copy counts as lost.
pub(crate) fn print_lost<W: Write>(copy: u64, out: &mut W) -> io::Result<()>
    ensures { OnOk result (Appends (W.contents out.old) (W.contents out.new) (lost_line copy)) }
{
    writeln!(out, "lost {copy}")
}

/// Whether no fact and no copy is new in a world.
pub(crate) fn is_as_before(world: &World, before: Seen) -> bool
    ensures { result ≡ is_as_before before.facts before.copies world.now }
{
    let seen = Seen::of(world);
    seen.facts == before.facts && seen.copies == before.copies
}

fn print_news<W: Write>(alloc: Global, world: &World, before: Seen, out: &mut W) -> io::Result<()>
    ensures { OnOk result (Appends (W.contents out.old) (W.contents out.new) (news_text false before.facts before.copies world.now)) }
{
    print_facts(alloc, world.asks(), world.log(), before.facts, out)?;
    print_copies(alloc, world.copies(), before.copies, out)
}

/// Prints what came of an event: a refused ask, what is new in the log, and what was sent; or that nothing did.
pub(crate) fn print_outcome<W: Write>(
    alloc: Global,
    world: &World,
    before: Seen,
    refused: Option<AskFault>,
    out: &mut W,
) -> io::Result<()>
    ensures { OnOk result (Appends (W.contents out.old) (W.contents out.new) (outcome_text refused before.facts before.copies world.now)) }
{
    if let Some(fault) = refused {
        return print_refused(fault.number(), out);
    }
    if is_as_before(world, before) {
        return print_nothing(out);
    }
    print_news(alloc, world, before, out)
}
