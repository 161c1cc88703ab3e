//! The columns of a chart: one for each peer, in the order in which they are first seen.
ghost use Rattle.std.specs.Prelude.{◌≡◌, ◌+◌, ◌^◌, ◌<◌, ◌≤◌, IfOk, OnOk, length, map, string_bytes};
ghost use Rattle.bac_npdu.specs.Views.{peer_view};
ghost use Rattle.bac_text.specs.Peers.{peer_text};
ghost use Rattle.bac_explain_report.specs.Columns.{begun_text, column_text, ends_of, place_of, with_column, with_columns};
ghost use Rattle.bac_explain_report.specs.EndViews.{ends_view};

use bac_chart::{ChartFormat, line_text, note_line};
use bac_npdu::Peer;
use bac_text::peer_text;
use std::alloc::{AllocError, Global};

/// The columns of the sender and of the receiver of a datagram.
#[derive(Drop)]
pub(crate) struct Ends {
    pub from: u64,
    pub to: u64,
    /// The lines of the columns that begin with it.
    pub text: Vec<u8>,
}

/// The index of the column of a peer; the number of columns if it has none.
fn place_of(peer: Peer, peers: &[Peer]) -> usize
    ensures place { result ≡ place_of (peer_view peer) (map peer_view peers.now) }
    ensures bound { result ≤ length peers.now }
{
    for place in 0..peers.len() {
        if peers[place] == peer {
            return place;
        }
    }
    peers.len()
}

fn begun_text(
    alloc: Global,
    form: ChartFormat,
    place: usize,
    moment: u64,
    peer: Peer,
) -> Result<Vec<u8>, AllocError>
    requires { place + 1 < 2 ^ 64 }
    ensures { IfOk result (λ t. t.items ≡ begun_text form place moment (peer_text (peer_view peer))) }
{
    let name = peer_text(alloc, peer)?;
    let place = place as u64;
    match form {
        ChartFormat::Chart => {
            let line = note_line(alloc, moment, place, name.as_bytes())?;
            line_text(alloc, form, place + 1, &line)
        }
        ChartFormat::Mermaid => {
            let text = format!(in alloc; "    participant n{place} as {name}\n")?;
            Ok(text.into_bytes())
        }
    }
}

/// The line of a column that begins: its peer.
fn column_text(
    alloc: Global,
    form: ChartFormat,
    moment: u64,
    peer: Peer,
    peers: &[Peer],
) -> Result<Vec<u8>, AllocError>
    requires { length peers.now + 1 < 2 ^ 64 }
    ensures { IfOk result (λ t. t.items ≡ column_text form moment (peer_view peer) (map peer_view peers.now)) }
{
    if place_of(peer, peers) < peers.len() {
        return Ok(Vec::new(alloc));
    }
    begun_text(alloc, form, peers.len(), moment, peer)
}

/// Gives a peer the next column unless it has one. Returns its index and the line of a new column.
fn enter(peer: Peer, peers: &mut Vec<Peer>) -> Result<u64, AllocError>
    ensures place { IfOk result (λ p. p ≡ place_of (peer_view peer) (map peer_view peers.old.items)) }
    ensures peers { OnOk result (map peer_view peers.new.items ≡ with_column (peer_view peer) (map peer_view peers.old.items)) }
{
    let place = place_of(peer, peers);
    if place == peers.len() {
        peers.push(peer)?;
    }
    Ok(place as u64)
}

/// The columns of the ends of a datagram. Each end without a column gets the next one.
pub(crate) fn enter_ends(
    alloc: Global,
    form: ChartFormat,
    moment: u64,
    from: Peer,
    to: Peer,
    peers: &mut Vec<Peer>,
) -> Result<Ends, AllocError>
    ensures ends { IfOk result (λ c. ends_view c ≡ ends_of form moment (peer_view from) (peer_view to) (map peer_view peers.old.items)) }
    ensures peers { OnOk result (map peer_view peers.new.items ≡ with_columns (peer_view from) (peer_view to) (map peer_view peers.old.items)) }
{
    let mut text = column_text(alloc, form, moment, from, peers)?;
    let sender = enter(from, peers)?;
    let begun = column_text(alloc, form, moment, to, peers)?;
    text.extend_from_slice(&begun)?;
    let receiver = enter(to, peers)?;
    Ok(Ends {
        from: sender,
        to: receiver,
        text,
    })
}
