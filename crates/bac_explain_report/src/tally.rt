//! Counts of frames and transactions.
ghost use Rattle.std.specs.Prelude.{◌≡◌};
ghost use Rattle.std.specs.Option.{option_map};
ghost use Rattle.bac_explain.specs.Closings.{closed_view};
ghost use Rattle.bac_explain_report.specs.Tallies.{more_if, no_frames, status_of, with_alone, with_block, with_blocks, with_finding, with_frame, with_shown, with_unread};

use crate::ending::{delay_of, ending_of};
use crate::selection::{Selection, is_printed, is_wrong};
use crate::totals::{Totals, one_more};
use bac_explain::{Closed, Finding};
use bac_text::Status;

/// Counts of the frames and transactions so far. Each count saturates.
#[derive(Clone, Copy, Debug)]
pub struct Tally {
    pub frames: u64,
    /// Frames that cannot be read.
    pub unread: u64,
    pub findings: u64,
    /// How the transactions ended.
    pub totals: Totals,
    /// Transactions that were printed.
    pub shown: u64,
    /// Those of them that are unanswered or have a finding, and printed findings of no transaction.
    pub wrong: u64,
}

/// One more than a count, or the same.
fn more_if(more: bool, count: u64) -> u64
    ensures { result ≡ more_if more count }
{
    if more { one_more(count) } else { count }
}

impl Tally {
    /// No frames.
    pub(crate) fn none() -> Tally
        ensures { result ≡ no_frames }
    {
        Tally {
            frames: 0,
            unread: 0,
            findings: 0,
            totals: Totals::none(),
            shown: 0,
            wrong: 0,
        }
    }

    pub(crate) fn with_frame(self) -> Tally
        ensures { result ≡ with_frame self }
    {
        Tally {
            frames: one_more(self.frames),
            ..self
        }
    }

    pub(crate) fn with_unread(self) -> Tally
        ensures { result ≡ with_unread self }
    {
        Tally {
            unread: one_more(self.unread),
            ..self
        }
    }

    pub(crate) fn with_finding(self, finding: Option<Finding>) -> Tally
        ensures { result ≡ with_finding finding self }
    {
        match finding {
            None => self,
            Some(_) => Tally {
                findings: one_more(self.findings),
                ..self
            },
        }
    }

    fn with_shown(self, shown: bool, wrong: bool) -> Tally
        ensures { result ≡ with_shown shown wrong self }
    {
        Tally {
            shown: more_if(shown, self.shown),
            wrong: more_if(shown && wrong, self.wrong),
            ..self
        }
    }

    /// The counts with one more closed transaction, which is printed if it passes.
    pub(crate) fn with_block(self, selection: Selection, closed: &Closed) -> Tally
        ensures { result ≡ with_block selection (closed_view closed.now) self }
    {
        let transaction = &closed.transaction;
        let counted = Tally {
            totals: self
                .totals
                .with_one(ending_of(transaction), delay_of(transaction)),
            ..self
        };
        counted.with_shown(
            is_printed(selection, closed.key, transaction),
            is_wrong(transaction),
        )
    }

    pub(crate) fn with_blocks(self, selection: Selection, closed: &Option<Closed>) -> Tally
        ensures { result ≡ with_blocks selection (option_map closed_view closed.now) self }
    {
        match closed {
            None => self,
            Some(closed) => self.with_block(selection, closed),
        }
    }

    /// The counts with a printed finding of no transaction, if it is one.
    pub(crate) fn with_alone(self, is_alone: bool) -> Tally
        ensures { result ≡ with_alone is_alone self }
    {
        Tally {
            wrong: more_if(is_alone, self.wrong),
            ..self
        }
    }

    /// `Done` if there is no finding and every frame could be read, otherwise `Faulty`. If it is strict, what was printed counts in
    /// place of the findings.
    pub(crate) fn status(self, strict: bool) -> Status
        ensures { result ≡ status_of strict self }
    {
        let faults = if strict { self.wrong } else { self.findings };
        if faults == 0 && self.unread == 0 {
            Status::Done
        } else {
            Status::Faulty
        }
    }
}
