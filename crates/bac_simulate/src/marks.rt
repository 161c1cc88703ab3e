//! What there is to draw of a world.
ghost use Rattle.std.specs.Prelude.{◌≡◌, ◌≤◌, ◌-◌, ◌&&◌, ◌++◌, nat_le, codes, decimal, map, slice_get, IfOk, OnOk};
ghost use Rattle.std.specs.Option.{option_map};
ghost use Rattle.bac_chart.specs.Marks as plain;
ghost use Rattle.bac_chart.specs.Views.{arrow_view, mark_view};
ghost use Rattle.bac_journal.specs.Notes.{note_view};
ghost use Rattle.bac_journal.specs.Views.{copy_view, key_view};
ghost use Rattle.bac_network.specs.Views.{fact_view};
ghost use Rattle.bac_npdu.specs.Views.{peer_view};
ghost use Rattle.bac_simulate.specs.Views.{happening_view};
ghost use Rattle.bac_protocol.specs.World.{same_key};
ghost use Rattle.bac_simulate.specs.Traces.{arrow_of, asked_away_words, client_in, coming_in, coming_mark, delivered_mark, ended_mark, ended_words, fact_mark};
ghost use Rattle.bac_simulate.specs.Traces.{optional_marks, paced_mark, performed_mark, place_of, refused_mark, served_words, stranger_words, AddsMarks};
ghost use Rattle.bac_requester.specs.TransactionViews.{ending_view};
ghost use Rattle.bac_world.specs.World.{count_of};

use crate::moments::{ms_now, parts_in};
use crate::printing::pace_text;
use bac_chart::{Arrow, Mark, datagram_words};
use bac_commands::print_ending;
use bac_journal::{Copy, Note, Transaction};
use bac_network::{Event, Fact, World};
use bac_npdu::{LinkAddress, Peer};
use bac_requester::Ending;
use bac_text::{link_text, peer_text};
use std::alloc::{AllocError, Global};
use std::io;

// Copies.

fn is_of(copy: &Copy, transaction: &Transaction) -> bool
    ensures { result ≡ same_key (copy_view copy.now).key (key_view transaction.now) }
{
    let own = &copy.transaction;
    own.client == transaction.client
        && own.server == transaction.server
        && own.invoke_id == transaction.invoke_id
}

/// How many of these are the transaction's.
pub(crate) fn count_of(transaction: &Transaction, copies: &[Copy]) -> usize
    ensures is { result ≡ count_of (key_view transaction.now) (map copy_view copies.now) }
{
    let mut count = 0;
    for copy in copies {
        if is_of(copy, transaction) {
            count += 1;
        }
    }
    count
}

/// Whether a copy may come to its node: it was sent no longer ago than a copy lives, and not too many later ones are of its transaction.
fn may_come(overtake: u8, life: u64, now: u64, later: usize, copy: &Copy) -> bool
    ensures { result ≡ (nat_le (now - copy.now.moment) life && nat_le later overtake) }
{
    now.saturating_sub(copy.moment) <= life && later <= usize::from(overtake)
}

/// Where so many parts of a moment are a millisecond.
pub(crate) fn arrow_of(
    alloc: Global,
    parts: u64,
    number: usize,
    copy: &Copy,
) -> Result<Arrow, AllocError>
    requires { 1 ≤ parts }
    ensures { IfOk result (λ a. arrow_view a ≡ arrow_of parts number (copy_view copy.now)) }
{
    Ok(Arrow {
        number: number as u64,
        sent: copy.moment / parts,
        from: copy.from as u64,
        to: copy.to as u64,
        words: datagram_words(alloc, &copy.octets)?,
    })
}

/// The mark of something that happens at a node.
fn note(moment: u64, node: usize, words: Vec<u8>) -> Mark
    ensures { mark_view result ≡ plain.Note moment node words.items }
{
    Mark::Note {
        moment,
        node: node as u64,
        words,
    }
}

fn coming_mark(
    alloc: Global,
    is_deliverable: bool,
    parts: u64,
    now: u64,
    number: usize,
    copy: &Copy,
) -> Result<Mark, AllocError>
    requires { 1 ≤ parts }
    ensures { IfOk result (λ m. mark_view m ≡ coming_mark is_deliverable parts now number (copy_view copy.now)) }
{
    if is_deliverable {
        let arrow = arrow_of(alloc, parts, number, copy)?;
        return Ok(Mark::Came { moment: now, arrow });
    }
    let words = format!(in alloc; "{number} comes too late")?;
    Ok(note(now, copy.to, words.into_bytes()))
}

fn delivered_mark(alloc: Global, world: &World, number: usize) -> Result<Option<Mark>, AllocError>
    ensures { IfOk result (λ o. option_map mark_view o
        ≡ delivered_mark world.now number (slice_get world.now.copies number)) }
{
    let copies = world.copies();
    if number >= copies.len() {
        return Ok(None);
    }
    let copy = &copies[number];
    let later = count_of(&copy.transaction, &copies[number + 1..]);
    let comes = may_come(world.overtake(), world.life(), world.now(), later, copy);
    let mark = coming_mark(alloc, comes, parts_in(world), ms_now(world), number, copy)?;
    Ok(Some(mark))
}

/// Octets of a stranger: from which link, and what they are.
fn stranger_words(alloc: Global, from: LinkAddress, octets: &[u8]) -> Result<Vec<u8>, AllocError>
    ensures { IfOk result (λ t. t.items ≡ stranger_words from octets.now) }
{
    let link = link_text(alloc, from)?;
    let datagram = datagram_words(alloc, octets)?;
    let mut words = format!(in alloc; "from {link} ")?.into_bytes();
    words.extend_from_slice(datagram.as_slice())?;
    Ok(words)
}

/// What comes to a node in an event that is about to happen.
pub(crate) fn coming_in(
    alloc: Global,
    world: &World,
    event: &Event,
) -> Result<Option<Mark>, AllocError>
    ensures { IfOk result (λ o. option_map mark_view o ≡ coming_in world.now (happening_view event.now)) }
{
    match event {
        Event::Deliver { number } => delivered_mark(alloc, world, *number),
        Event::Noise { node, .. } => {
            let words = Vec::from_slice(alloc, b"noise")?;
            Ok(Some(note(ms_now(world), *node, words)))
        }
        Event::Stranger { node, from, octets } => {
            let words = stranger_words(alloc, *from, octets)?;
            Ok(Some(note(ms_now(world), *node, words)))
        }
        _ => Ok(None),
    }
}

// Facts.

fn performed_mark(
    alloc: Global,
    now: u64,
    ask: usize,
    noted: Option<&Note>,
) -> Result<Option<Mark>, AllocError>
    ensures { IfOk result (λ o. option_map mark_view o ≡ performed_mark now ask (option_map (λ n. note_view n.now) noted.entry)) }
{
    let Some(noted) = noted else {
        return Ok(None);
    };
    let words = format!(in alloc; "performed {ask}")?;
    Ok(Some(note(now, noted.transaction.server, words.into_bytes())))
}

fn ended_words(alloc: Global, ask: usize, how: &Ending) -> io::Result<Vec<u8>>
    ensures { IfOk result (λ t. t.items ≡ ended_words ask (ending_view how.now)) }
{
    let mut words = format!(in alloc; "ended {ask} ")?.into_bytes();
    print_ending(alloc, how, &mut words)?;
    Ok(words)
}

/// The node that asked, by what is noted of its ask.
fn client_of(asks: &[Note], ask: usize) -> Option<usize>
    ensures { result ≡ client_in (map note_view asks.now) ask }
{
    match asks.get(ask) {
        Some(noted) => Some(noted.transaction.client),
        None => None,
    }
}

fn ended_mark(
    alloc: Global,
    now: u64,
    asks: &[Note],
    ask: usize,
    how: &Ending,
) -> io::Result<Option<Mark>>
    ensures { IfOk result (λ o. option_map mark_view o ≡ ended_mark now ask (ending_view how.now) (client_in (map note_view asks.now) ask)) }
{
    let Some(client) = client_of(asks, ask) else {
        return Ok(None);
    };
    let words = ended_words(alloc, ask, how)?;
    Ok(Some(note(now, client, words)))
}

fn asked_mark(alloc: Global, now: u64, ask: usize, client: usize) -> Result<Mark, AllocError>
    ensures { IfOk result (λ m. mark_view m ≡ plain.Note now client (codes "asked " ++ decimal ask)) }
{
    let words = format!(in alloc; "asked {ask}")?;
    Ok(note(now, client, words.into_bytes()))
}

fn served_mark(alloc: Global, now: u64, node: usize, peer: Peer) -> Result<Mark, AllocError>
    ensures { IfOk result (λ m. mark_view m ≡ plain.Note now node (served_words (peer_view peer))) }
{
    let peer = peer_text(alloc, peer)?;
    let words = format!(in alloc; "served {peer}")?;
    Ok(note(now, node, words.into_bytes()))
}

fn asked_away_mark(
    alloc: Global,
    now: u64,
    ask: usize,
    client: usize,
    peer: Peer,
) -> Result<Mark, AllocError>
    ensures { IfOk result (λ m. mark_view m ≡ plain.Note now client (asked_away_words ask (peer_view peer))) }
{
    let peer = peer_text(alloc, peer)?;
    let words = format!(in alloc; "asked {ask} {peer}")?;
    Ok(note(now, client, words.into_bytes()))
}

fn plain_mark(alloc: Global, now: u64, node: usize, words: &[u8]) -> Result<Mark, AllocError>
    ensures { IfOk result (λ m. mark_view m ≡ plain.Note now node words.now) }
{
    Ok(note(now, node, Vec::from_slice(alloc, words)?))
}

/// What there is to draw of a fact, where these notes are of the accepted asks.
pub(crate) fn fact_mark(
    alloc: Global,
    now: u64,
    asks: &[Note],
    fact: &Fact,
) -> io::Result<Option<Mark>>
    ensures { IfOk result (λ o. option_map mark_view o ≡ fact_mark now (map note_view asks.now) (fact_view fact.now)) }
{
    let mark = match fact {
        Fact::Asked { number, client, .. } => asked_mark(alloc, now, *number, *client)?,
        Fact::Performed { number, .. } => {
            return Ok(performed_mark(alloc, now, *number, asks.get(*number))?);
        }
        Fact::Ended { number, how } | Fact::EndedAway { number, how } => {
            return Ok(ended_mark(alloc, now, asks, *number, how)?);
        }
        Fact::Changed { node, .. } => plain_mark(alloc, now, *node, b"changed")?,
        Fact::Served { peer, node, .. } => served_mark(alloc, now, *node, *peer)?,
        Fact::AskedAway {
            number,
            client,
            peer,
            ..
        } => asked_away_mark(alloc, now, *number, *client, *peer)?,
        Fact::Restarted { node, .. } => plain_mark(alloc, now, *node, b"restarted")?,
    };
    Ok(Some(mark))
}

// Refused events.

/// The node at which an event is refused.
fn place_of(event: &Event) -> usize
    ensures { result ≡ place_of (happening_view event.now) }
{
    match event {
        Event::Ask { client, .. } => *client,
        Event::Noise { node, .. }
        | Event::Stranger { node, .. }
        | Event::AskStranger { node, .. }
        | Event::Tick { node }
        | Event::Change { node, .. }
        | Event::Restart { node, .. }
        | Event::Begin { node }
        | Event::BeginAgain { node, .. } => *node,
        Event::Deliver { .. } | Event::Advance { .. } => 0,
    }
}

/// The mark of an event that was refused, at the node that the event is of, with the number of the fault.
pub(crate) fn refused_mark(
    alloc: Global,
    now: u64,
    event: &Event,
    fault: u8,
) -> Result<Mark, AllocError>
    ensures { IfOk result (λ m. mark_view m ≡ refused_mark now (happening_view event.now) fault) }
{
    let words = format!(in alloc; "refused {fault}")?;
    Ok(note(now, place_of(event), words.into_bytes()))
}

/// The mark that says that a node's clock goes at this rate from then on.
pub(crate) fn paced_mark(alloc: Global, now: u64, node: u64, rate: u32) -> Result<Mark, AllocError>
    ensures { IfOk result (λ m. mark_view m ≡ paced_mark now node rate) }
{
    let pace = pace_text(alloc, rate)?;
    let words = format!(in alloc; "pace {pace}")?;
    Ok(note(now, node as usize, words.into_bytes()))
}

/// A mark more, where there is one.
pub(crate) fn add(mark: Option<Mark>, marks: &mut Vec<Mark>) -> Result<(), AllocError>
    ensures { OnOk result (AddsMarks marks.old.items marks.new.items (optional_marks (option_map mark_view mark))) }
{
    match mark {
        Some(mark) => {
            marks.push(mark)?;
            Ok(())
        }
        None => Ok(()),
    }
}
