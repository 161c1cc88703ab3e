//! Pairs of a client and a server, which have a chart each.
ghost use Rattle.std.specs.Prelude.{◌≡◌, ◌&&◌, ◌≤◌, IfOk, OnOk, length, map, string_bytes};
ghost use Rattle.bac_explain.specs.Sightings.{sighting_view};
ghost use Rattle.bac_explain_report.specs.EndViews.{ends_view};
ghost use Rattle.bac_explain_report.specs.Pairs.{chart_end, chart_head, head_text, kept_ends, names_text, pair_ends, pair_of, participants_text, place_of, same_pair, section_text, with_pair};
ghost use Rattle.bac_explain_report.specs.PairViews.{pair_view};

use crate::column::Ends;
use crate::sketch::is_by_client;
use bac_chart::ChartFormat;
use bac_explain::Sighting;
use bac_npdu::Peer;
use bac_text::peer_text;
use std::alloc::{AllocError, Global};

/// A client and a server.
#[derive(Clone, Copy)]
pub(crate) struct Pair {
    pub client: Peer,
    pub server: Peer,
}

impl Pair {
    /// The client and the server of a transaction.
    pub(crate) fn of(sighting: Sighting<'_>) -> Pair
        ensures { pair_view result ≡ pair_of (sighting_view sighting.entry) }
    {
        Pair {
            client: sighting.key.client,
            server: sighting.key.server,
        }
    }

    fn is_same(self, other: Pair) -> bool
        ensures { result ≡ same_pair (pair_view other) (pair_view self) }
    {
        other.client == self.client && other.server == self.server
    }
}

/// The index of a pair; the number of pairs if it is not among them.
fn place_of(pair: Pair, pairs: &[Pair]) -> usize
    ensures place { result ≡ place_of (pair_view pair) (map pair_view pairs.now) }
    ensures bound { result ≤ length pairs.now }
{
    for place in 0..pairs.len() {
        if pair.is_same(pairs[place]) {
            return place;
        }
    }
    pairs.len()
}

/// Adds a pair unless it is there. Returns its index.
pub(crate) fn enter_pair(pair: Pair, pairs: &mut Vec<Pair>) -> Result<u64, AllocError>
    ensures place { IfOk result (λ p. p ≡ place_of (pair_view pair) (map pair_view pairs.old.items)) }
    ensures pairs { OnOk result (map pair_view pairs.new.items ≡ with_pair (pair_view pair) (map pair_view pairs.old.items)) }
{
    let place = place_of(pair, pairs);
    if place == pairs.len() {
        pairs.push(pair)?;
    }
    Ok(place as u64)
}

/// The columns of a datagram in the chart of its pair: that of the client is the first.
pub(crate) fn pair_ends(alloc: Global, sighting: Sighting<'_>) -> Ends
    ensures { ends_view result ≡ pair_ends (sighting_view sighting.entry) }
{
    let (from, to) = if is_by_client(sighting.role) {
        (0, 1)
    } else {
        (1, 0)
    };
    Ends {
        from,
        to,
        text: Vec::new(alloc),
    }
}

/// What tells the datagrams of one direction of a pair from all others: the number of the pair, and the column of the receiver.
pub(crate) fn kept_ends(alloc: Global, place: u64, ends: &Ends) -> Ends
    ensures { ends_view result ≡ kept_ends place (ends_view ends.now) }
{
    Ends {
        from: place,
        to: ends.to,
        text: Vec::new(alloc),
    }
}

/// The client and the server.
#[tactic(auto, unfolding(crate::specs::Pairs::names_text))]
fn names_text(alloc: Global, pair: Pair) -> Result<String, AllocError>
    ensures { IfOk result (λ t. string_bytes t ≡ names_text (pair_view pair)) }
{
    let client = peer_text(alloc, pair.client)?;
    let server = peer_text(alloc, pair.server)?;
    format!(in alloc; "{client} > {server}")
}

/// The columns of a diagram of Mermaid.
#[tactic(auto, unfolding(crate::specs::Pairs::participants_text))]
fn participants_text(alloc: Global, pair: Pair) -> Result<String, AllocError>
    ensures { IfOk result (λ t. string_bytes t ≡ participants_text (pair_view pair)) }
{
    let client = peer_text(alloc, pair.client)?;
    let server = peer_text(alloc, pair.server)?;
    format!(in alloc; "    participant n0 as {client}\n    participant n1 as {server}\n")
}

fn head_text(alloc: Global, pair: Pair) -> Result<Vec<u8>, AllocError>
    ensures { IfOk result (λ t. t.items ≡ head_text (pair_view pair)) }
{
    let names = names_text(alloc, pair)?;
    let text = format!(in alloc; "{names}\n      ms\n")?;
    Ok(text.into_bytes())
}

fn section_text(alloc: Global, pair: Pair) -> Result<Vec<u8>, AllocError>
    ensures { IfOk result (λ t. t.items ≡ section_text (pair_view pair)) }
{
    let names = names_text(alloc, pair)?;
    let participants = participants_text(alloc, pair)?;
    let mut text = Vec::from_slice(alloc, b"## ")?;
    text.extend_from_slice(names.as_bytes())?;
    text.extend_from_slice(b"\n\n```mermaid\nsequenceDiagram\n")?;
    text.extend_from_slice(participants.as_bytes())?;
    Ok(text)
}

/// What stands above the rows of the chart of a pair: the client and the server.
pub(crate) fn chart_head(
    alloc: Global,
    form: ChartFormat,
    pair: Pair,
) -> Result<Vec<u8>, AllocError>
    ensures { IfOk result (λ t. t.items ≡ chart_head form (pair_view pair)) }
{
    match form {
        ChartFormat::Chart => head_text(alloc, pair),
        ChartFormat::Mermaid => section_text(alloc, pair),
    }
}

/// What stands below them.
pub(crate) fn chart_end(form: ChartFormat) -> &'static str
    ensures { result.now ≡ chart_end form }
{
    match form {
        ChartFormat::Chart => "\n",
        ChartFormat::Mermaid => "```\n\n",
    }
}
