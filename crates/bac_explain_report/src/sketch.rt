//! The state of a chart, and what is drawn for a frame.
ghost use Rattle.std.specs.Prelude.{◌≡◌, ◌≤◌, IfOk, OnOk, Some, length, map};
ghost use Rattle.bac_capture.specs.BlockViews.{frame_view};
ghost use Rattle.bac_explain.specs.Sightings.{sighting_view};
ghost use Rattle.bac_explain_report.specs.EndViews.{ends_view};
ghost use Rattle.bac_explain_report.specs.Copies.{is_again, with_drawn};
ghost use Rattle.bac_explain_report.specs.CopyViews.{drawn_view};
ghost use Rattle.bac_explain_report.specs.Sketches.{drawn_at, front_text, fresh, is_by_client, moment_in, receiver_of, remark_front, sender_of, sighting_kept, start_of, unread_line, BreaksFile, IsDrawn, IsRow, IsSightingText, IsUnread, SeesFrame};
ghost use Rattle.bac_explain_report.specs.SketchViews.{sketch_view};
ghost use Rattle.bac_npdu.specs.Views.{peer_view};

use crate::arrow_words::arrow_words;
use crate::column::{Ends, enter_ends};
use crate::copies::{Drawn, keep};
use crate::{Unread, seen_of};
use bac_capture::{FileFault, Frame, Ports};
use bac_chart::{Arrow, ChartFormat, coming_line, line_text};
use bac_explain::{Role, Sighting};
use bac_npdu::Peer;
use bac_text::CheckError;
use bac_value::NoMemory;
use std::alloc::{AllocError, Global};
use std::io;
use std::io::ErrorKind;

/// The greatest number of columns, which no standard sets.
pub(crate) const MOST_PEERS: usize = 16;

/// The text above a chart.
pub(crate) fn front_text(form: ChartFormat) -> &'static str
    ensures { result.now ≡ front_text form }
{
    match form {
        ChartFormat::Chart => "      ms\n",
        ChartFormat::Mermaid => "sequenceDiagram\n",
    }
}

/// The beginning of a line that is not an arrow.
fn remark_front(form: ChartFormat) -> &'static str
    ensures { result.now ≡ remark_front form }
{
    match form {
        ChartFormat::Chart => "",
        ChartFormat::Mermaid => "    %% ",
    }
}

pub(crate) fn unread_line(
    alloc: Global,
    form: ChartFormat,
    number: u64,
    why: Unread,
) -> Result<Vec<u8>, AllocError>
    ensures { IfOk result (λ t. t.items ≡ unread_line form number why) }
{
    let front = remark_front(form);
    let text = format!(in alloc; "{front}frame {number}: {why}\n")?;
    Ok(text.into_bytes())
}

/// Whether the client sends APDUs with this role.
pub(crate) fn is_by_client(role: Role) -> bool
    ensures { result ≡ is_by_client role }
{
    match role {
        Role::Request(_) | Role::GivesUp => true,
        Role::Answer(_) => false,
        Role::Acknowledgement(taken) => !taken.of_request,
    }
}

/// The sender and the receiver.
fn peers_of(sighting: Sighting<'_>) -> (Peer, Peer)
    ensures sender { peer_view result.0 ≡ sender_of (sighting_view sighting.entry) }
    ensures receiver { peer_view result.1 ≡ receiver_of (sighting_view sighting.entry) }
{
    if is_by_client(sighting.role) {
        (sighting.key.client, sighting.key.server)
    } else {
        (sighting.key.server, sighting.key.client)
    }
}

/// The state of a chart.
#[derive(Drop)]
pub(crate) struct Sketch {
    alloc: Global,
    pub form: ChartFormat,
    /// Whether the arrow of an answer says its values.
    values: bool,
    /// The moment of the first datagram that was drawn, in milliseconds.
    start: Option<u64>,
    /// The peers that have columns, from left to right.
    peers: Vec<Peer>,
    /// The last datagrams that were drawn.
    drawn: Vec<Drawn>,
    /// The number of frames so far; the count saturates.
    pub frames: u64,
    /// Whether each of them could be read.
    pub is_whole: bool,
    /// Whether there are more peers than columns.
    pub is_crowded: bool,
}

impl Sketch {
    /// The state before the first frame.
    pub(crate) fn new(alloc: Global, form: ChartFormat, values: bool) -> Sketch
        ensures { sketch_view result ≡ fresh form values }
    {
        Sketch {
            alloc,
            form,
            values,
            start: None,
            peers: Vec::new(alloc),
            drawn: Vec::new(alloc),
            frames: 0,
            is_whole: true,
            is_crowded: false,
        }
    }

    /// The time in milliseconds since the first datagram that is drawn: 0 for the first one.
    pub(crate) fn moment(&mut self, now: u64) -> u64
        ensures moment { result ≡ moment_in now (sketch_view self.old) }
        ensures start { sketch_view self.new ≡ record (sketch_view self.old) { start = Some (start_of now (sketch_view self.old).start) } }
    {
        let start = self.start.unwrap_or(now);
        self.start = Some(start);
        now.saturating_sub(start)
    }

    /// Keeps a datagram that is drawn. Returns whether it repeats an earlier one.
    pub(crate) fn keep(&mut self, now: u64, ends: &Ends, octets: &[u8]) -> Result<bool, AllocError>
        ensures again { IfOk result (λ b. b ≡ is_again (drawn_at now (ends_view ends.now) octets.now) (sketch_view self.old).drawn) }
        ensures kept { OnOk result (sketch_view self.new
            ≡ record (sketch_view self.old) { drawn = with_drawn (drawn_at now (ends_view ends.now) octets.now) (sketch_view self.old).drawn }) }
    {
        let datagram = Drawn {
            moment: now,
            from: ends.from,
            to: ends.to,
            octets: Vec::from_slice(self.alloc, octets)?,
        };
        let again = datagram.is_again(&self.drawn);
        keep(datagram, &mut self.drawn)?;
        Ok(again)
    }

    /// The number of columns.
    fn columns(&self) -> u64
        ensures { result ≡ length (sketch_view self.now).peers }
    {
        self.peers.len() as u64
    }

    /// The row of a datagram among so many columns, which says whether it repeats an earlier one.
    pub(crate) fn row(
        &self,
        nodes: u64,
        again: bool,
        moment: u64,
        ends: &Ends,
        octets: &[u8],
    ) -> Result<Vec<u8>, NoMemory>
        ensures { IfOk result (λ t. IsRow (sketch_view self.now) nodes again moment (ends_view ends.now) octets.now t.items) }
    {
        let arrow = Arrow {
            number: self.frames,
            sent: moment,
            from: ends.from,
            to: ends.to,
            words: arrow_words(self.alloc, self.form, self.values, octets)?,
        };
        let line = coming_line(self.alloc, again, moment, &arrow)?;
        Ok(line_text(self.alloc, self.form, nodes, &line)?)
    }

    /// Draws a datagram of a transaction. Returns the text.
    fn draw(&mut self, now: u64, sighting: Sighting<'_>) -> Result<Vec<u8>, NoMemory>
        ensures text { IfOk result (λ t. IsSightingText now (sighting_view sighting.entry) (sketch_view self.old) t.items) }
        ensures next { OnOk result (sketch_view self.new ≡ sighting_kept now (sighting_view sighting.entry) (sketch_view self.old)) }
    {
        let moment = self.moment(now);
        let (from, to) = peers_of(sighting);
        let ends = enter_ends(self.alloc, self.form, moment, from, to, &mut self.peers)?;
        let again = self.keep(now, &ends, sighting.octets)?;
        let row = self.row(self.columns(), again, moment, &ends, sighting.octets)?;
        let mut text = ends.text;
        text.extend_from_slice(&row)?;
        Ok(text)
    }

    /// Draws a datagram of a transaction, unless there are too many columns then.
    fn draw_in_room(&mut self, now: u64, sighting: Sighting<'_>) -> Result<Vec<u8>, CheckError>
        ensures { IfOk result (λ t. IsDrawn now (sighting_view sighting.entry) (sketch_view self.old) t.items (sketch_view self.new)) }
    {
        let Ok(text) = self.draw(now, sighting) else {
            return Err(CheckError::Memory);
        };
        if self.peers.len() > MOST_PEERS {
            self.is_crowded = true;
            return Err(CheckError::Input(io::Error::from(ErrorKind::InvalidData)));
        }
        Ok(text)
    }

    /// Handles a frame that cannot be read.
    fn pass_over(&mut self, why: Unread) -> Result<Vec<u8>, CheckError>
        ensures { IfOk result (λ t. IsUnread why (sketch_view self.old) t.items (sketch_view self.new)) }
    {
        self.is_whole = false;
        match unread_line(self.alloc, self.form, self.frames, why) {
            Ok(text) => Ok(text),
            Err(_) => Err(CheckError::Memory),
        }
    }

    /// Handles a frame.
    pub(crate) fn see_frame(
        &mut self,
        frame: Frame<'_>,
        ports: Ports,
    ) -> Result<Vec<u8>, CheckError>
        ensures { IfOk result (λ t. SeesFrame ports.also (frame_view frame.entry) (sketch_view self.old) t.items (sketch_view self.new)) }
    {
        self.frames = self.frames.saturating_add(1);
        match seen_of(frame, ports) {
            Ok(Some((now, sighting))) => self.draw_in_room(now, sighting),
            Ok(None) => Ok(Vec::new(self.alloc)),
            Err(why) => self.pass_over(why),
        }
    }

    /// Handles a file that cannot be read further.
    pub(crate) fn break_off_at(&mut self, fault: FileFault) -> Result<Vec<u8>, CheckError>
        ensures { IfOk result (λ t. BreaksFile fault (sketch_view self.old) t.items (sketch_view self.new)) }
    {
        self.frames = self.frames.saturating_add(1);
        self.pass_over(Unread::File(fault))
    }
}
