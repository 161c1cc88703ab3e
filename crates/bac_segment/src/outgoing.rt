//! The sender of a segmented transfer. It keeps the octets whole, and cuts a piece when it is requested.
ghost use Rattle.std.specs.Prelude.{◌≡◌, ◌+◌, ◌-◌, ◌<◌, ◌≤◌, ◌↔◌, length, take, drop, map, IsTrue};
ghost use Rattle.std.specs.List.{range_with_len};
ghost use Rattle.bac_segment.specs.Pieces.{ArePieces, join, piece_at, pieces_of};
ghost use Rattle.bac_segment.specs.Window.{outgoing, in_window, window_pieces, is_finished, acknowledged, again, restart, resume};
ghost use Rattle.bac_segment.specs.Answers.{Moves, TimesOut};

use crate::incoming::lesser;
use crate::limits::N_RETRY;
use bac_apdu::Window;
use std::marker::Model;
use std::ops::Range;

/// The effect of a SegmentACK on the sender.
#[derive(Clone, Copy, Debug, PartialEq, Eq)]
pub enum Progress {
    /// It acknowledged pieces of the window, and others are left: send the next window.
    Moved,
    /// It acknowledged the last piece.
    Finished,
    /// Its sequence number is not in the window. Nothing changed.
    Ignored,
}

/// The effect of a timeout on the sender.
#[derive(Clone, Copy, Debug, PartialEq, Eq)]
pub enum Timeout {
    /// A retry was used: send the window again.
    Again,
    /// No retry is left. Nothing changed.
    GivenUp,
}

/// The state of a sender: all of it that changes.
#[derive(Clone, Copy, Debug, PartialEq, Eq)]
pub struct Position {
    /// The first unacknowledged piece, from 0 on.
    pub first: usize,
    /// The window size, in pieces.
    pub window: Window,
    /// How many more times the window may be sent again.
    pub retries: u8,
}

impl Position {
    /// The state before anything was sent: the first window has one piece.
    const START: Position = Position {
        first: 0,
        window: Window { size: 1 },
        retries: N_RETRY,
    };
}

/// The sender of a segmented transfer.
#[derive(Drop)]
pub struct Outgoing {
    octets: Vec<u8>,
    size: usize,
    count: usize,
    at: Position,
}

impl Model for Outgoing {
    ghost use Rattle.bac_segment.specs.Window as spec;

    ghost Value = { spec.Outgoing };

    ghost use Rattle.bac_segment.specs.Pieces.{pieces_of};
    ghost use Rattle.bac_segment.specs.Kept.{CountsPieces};

    ghost view = { λ o. record { pieces = pieces_of o.size o.octets.items; first = o.at.first; window = o.at.window.size; retries = o.at.retries } };

    ghost invariant = { λ o. CountsPieces o.size o.count o.at.first o.octets.items };
}

impl Outgoing {
    /// A new sender of these octets, in pieces of `size` octets, at least 1. Its first window has one piece.
    pub fn new(octets: Vec<u8>, size: usize) -> Outgoing
        requires { 1 ≤ size }
        ensures start { result ≡ outgoing (pieces_of size octets.items) }
        ensures pieces { ArePieces size octets.items result.pieces }
    {
        let count = octets.len().div_ceil(size);
        Outgoing {
            octets,
            size,
            count,
            at: Position::START,
        }
    }

    /// The octets of the whole transfer.
    pub fn octets(&self) -> &[u8]
        ensures { result.now ≡ join self.now.pieces }
    {
        &self.octets
    }

    /// How many pieces there are.
    pub fn count(&self) -> usize
        ensures { result ≡ length self.now.pieces }
    {
        self.count
    }

    /// The current state.
    pub fn position(&self) -> Position
        ensures first { result.first ≡ self.now.first }
        ensures window { result.window.size ≡ self.now.window }
        ensures retries { result.retries ≡ self.now.retries }
        ensures within { result.first ≤ length self.now.pieces }
    {
        self.at
    }

    /// The indexes of the pieces in the window, from the first unacknowledged one on.
    pub fn window(&self) -> Range<usize>
        ensures start { result.start ≡ self.now.first }
        ensures end { result.end ≡ self.now.first + in_window self.now }
        ensures within { result.end ≤ length self.now.pieces }
        ensures pieces { map (piece_at self.now.pieces) (range_with_len result.start (in_window self.now)) ≡ window_pieces self.now }
    {
        let first = self.at.first;
        let left = self.count - first;
        first..first + left.min(self.at.window.size as usize)
    }

    /// How many pieces are in the window.
    pub fn in_window(&self) -> usize
        ensures number { result ≡ in_window self.now }
        ensures few { result ≤ self.now.window }
        ensures within { self.now.first + result ≤ length self.now.pieces }
    {
        let window = self.window();
        window.end - window.start
    }

    /// Piece `n`, counted from 0. The caller guarantees that there are more than `n` pieces.
    pub fn piece(&self, n: usize) -> &[u8]
        requires { n < length self.now.pieces }
        ensures { result.now ≡ piece_at self.now.pieces n }
    {
        let octets = self.octets.as_slice();
        part(octets, n * self.size, self.size)
    }

    /// Whether every piece was acknowledged.
    pub fn is_finished(&self) -> bool
        ensures { result ≡ is_finished self.now }
    {
        self.count <= self.at.first
    }

    /// Handles a SegmentACK, positive or negative: its sequence number, its actual window size, and the greatest window size of this node.
    /// If its number is in the window, the pieces up to that one become acknowledged, the window size becomes the lesser of the
    /// two, and all retries are available again.
    pub fn on_ack(&mut self, number: u8, window: Window, own: Window) -> Progress
        ensures moves { Moves (acknowledged own.size self.old number window.size) self.old result self.new }
        ensures forward { self.old.first ≤ self.new.first }
        ensures bounded { self.old.window ≤ own.size → self.new.window ≤ own.size }
    {
        let by = number.wrapping_sub((self.at.first % 256) as u8) as usize;
        if by >= self.in_window() {
            return Progress::Ignored;
        }
        self.at.first += by + 1;
        self.at.window = lesser(window, own);
        self.resume();
        if self.is_finished() {
            Progress::Finished
        } else {
            Progress::Moved
        }
    }

    /// Whether a retry is left.
    pub fn has_retry(&self) -> bool
        ensures { IsTrue result ↔ (1 ≤ self.now.retries) }
    {
        self.at.retries > 0
    }

    /// Handles a segment timeout: uses a retry if one is left.
    pub fn on_timeout(&mut self) -> Timeout
        ensures { TimesOut (again self.old) self.old result self.new }
    {
        if self.at.retries == 0 {
            return Timeout::GivenUp;
        }
        self.at.retries -= 1;
        Timeout::Again
    }

    /// Restarts the transfer with piece 0, a window of one piece and all retries.
    pub fn restart(&mut self)
        ensures { self.new ≡ restart self.old }
    {
        self.at = Position::START;
    }

    /// Continues the transfer from its current state, with all retries.
    pub fn resume(&mut self)
        ensures { self.new ≡ resume self.old }
    {
        self.at.retries = N_RETRY;
    }

    /// Whether two senders have the same pieces and are in the same state.
    pub fn same(&self, other: &Outgoing) -> bool
        ensures { IsTrue result ↔ (self.now ≡ other.now) }
    {
        if self.at != other.at {
            return false;
        }
        if self.count != other.count {
            return false;
        }
        // a single piece is the same for every size
        if self.count > 1 && self.size != other.size {
            return false;
        }
        self.octets == other.octets
    }

    /// Restores a state that `position` returned: this undoes a step that the caller could not finish.
    pub fn go_back(&mut self, to: Position)
        requires { to.first ≤ length self.old.pieces }
        ensures { self.new ≡ record self.old { first = to.first; window = to.window.size; retries = to.retries } }
    {
        self.at = to;
    }
}

/// At most `size` octets from this offset on.
fn part(octets: &[u8], from: usize, most: usize) -> &[u8]
    requires { from ≤ length octets.now }
    ensures { result.now ≡ take most (drop from octets.now) }
{
    let rest = &octets[from..];
    &rest[..most.min(rest.len())]
}
