//! Sending the datagrams that a node returned. `bound_node` calls it; all here is private to the crate.
ghost use Rattle.std.specs.Prelude.{◌≡◌, ◌≤◌, length, map};
ghost use Rattle.bac_driver.specs.Calls.{with_call};
ghost use Rattle.bac_driver.specs.Rounds.{sends_in, sends_of_all};
ghost use Rattle.bac_driver.specs.Turns.{counted, call_of, with_calls};
ghost use Rattle.bac_driver.specs.Views.{turn_view};

use crate::Link;
use crate::turn::{Turn, sends_of};
use bac_transaction::Datagram;

/// Sends a datagram; returns how many sends failed: 0 or 1.
fn send_one<L: Link>(link: &mut L, datagram: &Datagram) -> u64
    ensures count { L.failures link.new ≡ counted (L.failures link.old) result }
    ensures told { L.calls link.new ≡ with_call (L.calls link.old) (call_of datagram.now) }
    ensures most { result ≤ 1 }
{
    match link.send(datagram.to(), datagram.octets()) {
        Ok(()) => 0,
        Err(_) => 1,
    }
}

/// Sends datagrams, each once, in their order. Returns how many sends failed: those are lost.
pub(crate) fn send_all<L: Link>(link: &mut L, sends: &[Datagram]) -> u64
    ensures count { L.failures link.new ≡ counted (L.failures link.old) result }
    ensures order { L.calls link.new ≡ with_calls (L.calls link.old) (map call_of sends.now) }
    ensures most { result ≤ length sends.now }
{
    let mut lost = 0;
    for datagram in sends {
        lost += send_one(link, datagram);
    }
    lost
}

/// Sends what a turn sends, in order. Returns how many sends failed, at most 2^64 - 1.
pub(crate) fn send_turn<L: Link>(link: &mut L, turn: &Turn) -> u64
    ensures count { L.failures link.new ≡ counted (L.failures link.old) result }
    ensures order { L.calls link.new ≡ with_calls (L.calls link.old) (map call_of (sends_in (turn_view turn.now))) }
    ensures most { result ≤ length (sends_in (turn_view turn.now)) }
{
    let first_lost = send_all(link, sends_of(&turn.heard));
    let second_lost = send_all(link, sends_of(&turn.ticked));
    first_lost.saturating_add(second_lost)
}

/// Sends what turns send, in order. Returns how many sends failed, at most 2^64 - 1.
pub(crate) fn send_turns<L: Link>(link: &mut L, turns: &[Turn]) -> u64
    ensures count { L.failures link.new ≡ counted (L.failures link.old) result }
    ensures order { L.calls link.new ≡ with_calls (L.calls link.old) (map call_of (sends_of_all (map turn_view turns.now))) }
    ensures most { result ≤ length (sends_of_all (map turn_view turns.now)) }
{
    let mut lost = 0u64;
    for turn in turns {
        let more = send_turn(link, turn);
        lost = lost.saturating_add(more);
    }
    lost
}
