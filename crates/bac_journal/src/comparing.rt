//! Whether links, copies and notes are the same to contracts.
ghost use Rattle.std.specs.Prelude.{◌≡◌, ◌↔◌, IsTrue, map, MatchBool};
ghost use Rattle.std.specs.Option.{option_map};
ghost use Rattle.bac_npdu.specs.Views.{peer_view};
ghost use Rattle.bac_journal.specs.Clocks.{own_view, view_of_own};
ghost use Rattle.bac_journal.specs.Notes.{note_view};
ghost use Rattle.bac_journal.specs.Views.{key_view, copy_view};

use crate::clocks::{NodeClock, OwnClocks};
use crate::copies::Copy;
use crate::lives::Life;
use crate::noting::Note;
use crate::transaction::Transaction;
use bac_npdu::{LinkAddress, Peer};

fn is_same_transaction(one: &Transaction, other: &Transaction) -> bool
    ensures { MatchBool result (key_view one.now ≡ key_view other.now) (key_view one.now ≡ key_view other.now → ⊥) }
{
    if one.client != other.client {
        return false;
    }
    if one.server != other.server {
        return false;
    }
    one.invoke_id == other.invoke_id
}

fn is_same_copy(one: &Copy, other: &Copy) -> bool
    ensures { MatchBool result (copy_view one.now ≡ copy_view other.now) (copy_view one.now ≡ copy_view other.now → ⊥) }
{
    if one.moment != other.moment {
        return false;
    }
    if one.from != other.from {
        return false;
    }
    if one.to != other.to {
        return false;
    }
    if !is_same_transaction(&one.transaction, &other.transaction) {
        return false;
    }
    one.octets == other.octets
}

/// Whether both are the same copies in the same order.
pub(crate) fn are_same_copies(ones: &[Copy], others: &[Copy]) -> bool
    ensures { MatchBool result (map copy_view ones.now ≡ map copy_view others.now) (map copy_view ones.now ≡ map copy_view others.now → ⊥) }
{
    if ones.len() != others.len() {
        return false;
    }
    for at in 0..ones.len() {
        if !is_same_copy(&ones[at], &others[at]) {
            return false;
        }
    }
    true
}

fn is_same_peer(one: &Peer, other: &Peer) -> bool
    ensures { MatchBool result (peer_view one.now ≡ peer_view other.now) (peer_view one.now ≡ peer_view other.now → ⊥) }
{
    one == other
}

/// Whether both asked the same stranger, or neither asked one.
fn is_same_stranger(one: &Option<Peer>, other: &Option<Peer>) -> bool
    ensures { MatchBool result (option_map peer_view one.now ≡ option_map peer_view other.now)
        (option_map peer_view one.now ≡ option_map peer_view other.now → ⊥) }
{
    match one {
        Some(peer) => match other {
            Some(another) => is_same_peer(peer, another),
            None => false,
        },
        None => other.is_none(),
    }
}

fn is_same_note(one: &Note, other: &Note) -> bool
    ensures { MatchBool result (note_view one.now ≡ note_view other.now) (note_view one.now ≡ note_view other.now → ⊥) }
{
    if !is_same_transaction(&one.transaction, &other.transaction) {
        return false;
    }
    if one.ticket != other.ticket {
        return false;
    }
    is_same_stranger(&one.stranger, &other.stranger)
}

/// Whether both are the same notes in the same order.
pub(crate) fn are_same_notes(ones: &[Note], others: &[Note]) -> bool
    ensures { MatchBool result (map note_view ones.now ≡ map note_view others.now) (map note_view ones.now ≡ map note_view others.now → ⊥) }
{
    if ones.len() != others.len() {
        return false;
    }
    for at in 0..ones.len() {
        if !is_same_note(&ones[at], &others[at]) {
            return false;
        }
    }
    true
}

fn is_same_clock(one: &NodeClock, other: &NodeClock) -> bool
    ensures { MatchBool result (one.now ≡ other.now) (one.now ≡ other.now → ⊥) }
{
    if one.exact != other.exact {
        return false;
    }
    if one.since != other.since {
        return false;
    }
    one.rate == other.rate
}

/// Whether both are the same clocks in the same order.
fn are_same_nodes(ones: &[NodeClock], others: &[NodeClock]) -> bool
    ensures { MatchBool result (ones.now ≡ others.now) (ones.now ≡ others.now → ⊥) }
{
    if ones.len() != others.len() {
        return false;
    }
    for at in 0..ones.len() {
        if !is_same_clock(&ones[at], &others[at]) {
            return false;
        }
    }
    true
}

fn are_same_own(one: &OwnClocks, other: &OwnClocks) -> bool
    ensures { MatchBool result (own_view one.now ≡ own_view other.now) (own_view one.now ≡ own_view other.now → ⊥) }
{
    if one.elapsed != other.elapsed {
        return false;
    }
    if one.pace.drift != other.pace.drift {
        return false;
    }
    if one.pace.life != other.pace.life {
        return false;
    }
    are_same_nodes(&one.nodes, &other.nodes)
}

/// Whether nodes have the same clocks in both.
pub(crate) fn are_same_clocks(one: &Option<OwnClocks>, other: &Option<OwnClocks>) -> bool
    ensures { MatchBool result (view_of_own one.now ≡ view_of_own other.now) (view_of_own one.now ≡ view_of_own other.now → ⊥) }
{
    match one {
        Some(one) => match other {
            Some(other) => are_same_own(one, other),
            None => false,
        },
        None => match other {
            Some(_other) => false,
            None => true,
        },
    }
}

fn is_same_life(one: &Life, other: &Life) -> bool
    ensures { MatchBool result (one.now ≡ other.now) (one.now ≡ other.now → ⊥) }
{
    if one.active != other.active {
        return false;
    }
    one.sends_until == other.sends_until
}

/// Whether nodes did the same in both.
pub(crate) fn are_same_lives(ones: &[Life], others: &[Life]) -> bool
    ensures { MatchBool result (ones.now ≡ others.now) (ones.now ≡ others.now → ⊥) }
{
    if ones.len() != others.len() {
        return false;
    }
    for at in 0..ones.len() {
        if !is_same_life(&ones[at], &others[at]) {
            return false;
        }
    }
    true
}

/// Whether both are the same links in the same order.
pub(crate) fn are_same_links(ones: &[LinkAddress], others: &[LinkAddress]) -> bool
    ensures { IsTrue result ↔ (ones.now ≡ others.now) }
{
    ones == others
}
