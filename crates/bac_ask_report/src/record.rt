//! An ask, and how it ended.
use bac_npdu::Peer;
use bac_service::{Reply, Request};

/// How an ask ended.
#[derive(Clone, Copy)]
pub enum Outcome<'a> {
    /// The peer performed the request, or refused it with an Error.
    Answered(Reply<'a>),
    /// The peer sent a Reject; the reason is any octet (clause 18.9).
    Rejected(u8),
    /// Either end sent an Abort; the reason is any octet (clause 18.10).
    Aborted(u8),
    /// The request was sent as often as is allowed, and no answer came.
    TimedOut,
    /// More than 60,000 milliseconds passed since the first sending.
    Expired,
    /// The node refused the ask; the number of its fault is 1 to 7.
    Refused(u8),
    /// It was waited for no longer.
    NoEnding,
    /// There was no link from which it could be asked.
    NoLink,
}

/// The name of the line that asks.
#[derive(Clone, Copy, Debug, PartialEq, Eq)]
pub enum LineName<'n> {
    /// No line of the list has one, or no list asks: nothing is said of names.
    Unnamed,
    /// It has none, and another line of the list has one.
    Without,
    /// It has this one.
    Named(&'n str),
}

/// An ask, and how it ended: what an object or a row says.
#[derive(Clone, Copy)]
pub struct AskRecord<'q, 'e, 'w> {
    /// When it ended, in milliseconds since 1970 began in UTC; None where the time of day cannot be read.
    pub time: Option<u64>,
    /// The number of the line that asks, counted from 1, if one does.
    pub line: Option<u64>,
    /// Its name.
    pub name: LineName<'w>,
    /// The number of the round, counted from 1, where it is asked in rounds.
    pub round: Option<u64>,
    /// Whom it asks.
    pub peer: Peer,
    /// For what.
    pub request: Request<'q>,
    /// How it ended.
    pub outcome: Outcome<'e>,
    /// How it ended in words, as `bac ask --text` prints it, without the end of the line.
    pub words: &'w [u8],
}
