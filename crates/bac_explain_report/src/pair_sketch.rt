//! The state of charts of pairs, and what is drawn for a frame.
ghost use Rattle.std.specs.Prelude.{◌≡◌, ◌<◌, IfOk, OnOk, length, map, slice_get};
ghost use Rattle.std.specs.Io.KnownBytes.{Appends};
ghost use Rattle.bac_capture.specs.BlockViews.{frame_view};
ghost use Rattle.bac_explain.specs.Sightings.{sighting_view};
ghost use Rattle.bac_explain_report.specs.Pairs.{chart_at, chart_text, charts_text, fresh_pairs, rows_at, BreaksPairs, IsPaired, IsPairedOnly, IsPairUnread, SeesPair};
ghost use Rattle.bac_explain_report.specs.PairViews.{pair_view, pairs_view, row_view};

use crate::pair::{Pair, chart_end, chart_head, enter_pair, kept_ends, pair_ends};
use crate::sketch::{Sketch, unread_line};
use crate::{Unread, seen_of};
use bac_capture::{FileFault, Frame, Ports, print_text};
use bac_chart::ChartFormat;
use bac_explain::Sighting;
use bac_text::CheckError;
use bac_value::NoMemory;
use std::alloc::{AllocError, Global};
use std::io::Write;

/// A row of the chart of a pair.
#[derive(Drop)]
pub(crate) struct Row {
    /// The number of the pair, from 0.
    pub place: u64,
    pub text: Vec<u8>,
}

/// The state of charts of pairs: they are printed at the end.
#[derive(Drop)]
pub(crate) struct PairSketch {
    alloc: Global,
    /// What is drawn, without columns of its own.
    pub sketch: Sketch,
    pairs: Vec<Pair>,
    /// The rows of all pairs, in the order in which they were drawn.
    rows: Vec<Row>,
}

/// The rows of the pair with this number.
fn rows_at(alloc: Global, place: u64, rows: &[Row]) -> Result<Vec<u8>, AllocError>
    ensures { IfOk result (λ t. t.items ≡ rows_at place (map row_view rows.now)) }
{
    let mut text = Vec::new(alloc);
    for row in rows {
        if row.place == place {
            text.extend_from_slice(&row.text)?;
        }
    }
    Ok(text)
}

/// The chart of a pair with its rows.
fn chart_text(
    alloc: Global,
    form: ChartFormat,
    pair: Pair,
    rows: &[u8],
) -> Result<Vec<u8>, AllocError>
    ensures { IfOk result (λ t. t.items ≡ chart_text form (pair_view pair) rows.now) }
{
    let mut text = chart_head(alloc, form, pair)?;
    text.extend_from_slice(rows)?;
    text.extend_from_slice(chart_end(form).as_bytes())?;
    Ok(text)
}

impl PairSketch {
    /// The state before the first frame.
    pub(crate) fn new(alloc: Global, form: ChartFormat, values: bool) -> PairSketch
        ensures { pairs_view result ≡ fresh_pairs form values }
    {
        PairSketch {
            alloc,
            sketch: Sketch::new(alloc, form, values),
            pairs: Vec::new(alloc),
            rows: Vec::new(alloc),
        }
    }

    /// Draws a datagram of a transaction, in the chart of its client and its server.
    fn draw(&mut self, now: u64, sighting: Sighting<'_>) -> Result<(), NoMemory>
        ensures { OnOk result (IsPairedOnly now (sighting_view sighting.entry) (pairs_view self.old) (pairs_view self.new)) }
    {
        let moment = self.sketch.moment(now);
        let place = enter_pair(Pair::of(sighting), &mut self.pairs)?;
        let ends = pair_ends(self.alloc, sighting);
        let kept = kept_ends(self.alloc, place, &ends);
        let again = self.sketch.keep(now, &kept, sighting.octets)?;
        let text = self.sketch.row(2, again, moment, &ends, sighting.octets)?;
        self.rows.push(Row { place, text })?;
        Ok(())
    }

    /// Draws a datagram of a transaction. Returns what is printed at once.
    fn draw_later(&mut self, now: u64, sighting: Sighting<'_>) -> Result<Vec<u8>, CheckError>
        ensures { IfOk result (λ t. IsPaired now (sighting_view sighting.entry) (pairs_view self.old) t.items (pairs_view self.new)) }
    {
        match self.draw(now, sighting) {
            Ok(()) => Ok(Vec::new(self.alloc)),
            Err(_) => Err(CheckError::Memory),
        }
    }

    /// Handles a frame that cannot be read.
    fn pass_over(&mut self, why: Unread) -> Result<Vec<u8>, CheckError>
        ensures { IfOk result (λ t. IsPairUnread why (pairs_view self.old) t.items (pairs_view self.new)) }
    {
        self.sketch.is_whole = false;
        match unread_line(self.alloc, ChartFormat::Chart, self.sketch.frames, why) {
            Ok(text) => Ok(text),
            Err(_) => Err(CheckError::Memory),
        }
    }

    /// Handles a frame.
    pub(crate) fn see_frame(
        &mut self,
        frame: Frame<'_>,
        ports: Ports,
    ) -> Result<Vec<u8>, CheckError>
        ensures { IfOk result (λ t. SeesPair ports.also (frame_view frame.entry) (pairs_view self.old) t.items (pairs_view self.new)) }
    {
        self.sketch.frames = self.sketch.frames.saturating_add(1);
        match seen_of(frame, ports) {
            Ok(Some((now, sighting))) => self.draw_later(now, sighting),
            Ok(None) => Ok(Vec::new(self.alloc)),
            Err(why) => self.pass_over(why),
        }
    }

    /// Handles a file that cannot be read further.
    pub(crate) fn break_off_at(&mut self, fault: FileFault) -> Result<Vec<u8>, CheckError>
        ensures { IfOk result (λ t. BreaksPairs fault (pairs_view self.old) t.items (pairs_view self.new)) }
    {
        self.sketch.frames = self.sketch.frames.saturating_add(1);
        self.pass_over(Unread::File(fault))
    }

    /// The chart of the pair with this number.
    fn chart_at(&self, place: usize) -> Result<Vec<u8>, AllocError>
        requires { place < length self.now.pairs.items }
        ensures { IfOk result (λ t. t.items ≡ chart_at (pairs_view self.now).sketch.form (pairs_view self.now).rows place
            (slice_get (pairs_view self.now).pairs place)) }
    {
        let rows = rows_at(self.alloc, place as u64, &self.rows)?;
        chart_text(self.alloc, self.sketch.form, self.pairs[place], &rows)
    }

    /// Prints the chart of each pair.
    pub(crate) fn print_charts<W: Write>(&self, out: &mut W) -> Result<(), CheckError>
        ensures { OnOk result (Appends (W.contents out.old) (W.contents out.new) (charts_text (pairs_view self.now) (length (pairs_view self.now).pairs))) }
    {
        for place in 0..self.pairs.len() {
            let Ok(text) = self.chart_at(place) else {
                return Err(CheckError::Memory);
            };
            print_text(&text, out)?;
        }
        Ok(())
    }
}
