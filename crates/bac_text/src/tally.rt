//! How many lines of a capture there are so far, and how many of them are good and bad.
ghost use Rattle.std.specs.Prelude.{◌≡◌, ◌≤◌, ◌+◌, ◌-◌, ◌^◌, ◌<◌, [], ◌∷◌, ◌↔◌, IsSome, IfSome};
ghost use Rattle.bac_text.specs.Lines.{bad_among, good_among};
ghost use Rattle.bac_text.specs.Statuses.{IsTallied};

use crate::fault::LineVerdict;
use crate::status::Status;

/// The lines of a capture so far; those that are neither good nor bad are notes.
#[derive(Clone, Copy)]
pub struct LineTally {
    /// All of them.
    pub lines: u64,
    /// Capture lines without a fault.
    pub good: u64,
    /// Lines with a fault.
    pub bad: u64,
    /// The greatest moment of the capture lines.
    pub latest: u64,
    pub ghost counted: { good + bad ≤ lines },
}

impl LineTally {
    /// No line so far.
    pub const NONE: LineTally = LineTally {
        lines: 0,
        good: 0,
        bad: 0,
        latest: 0,
    };

    /// The lines with one more, of this verdict, after which `latest` is the greatest moment; None exactly if their number does not fit.
    pub fn with(self, verdict: LineVerdict, latest: u64) -> Option<LineTally>
        ensures some { IsSome result ↔ (self.lines < 2 ^ 64 - 1) }
        ensures lines { IfSome result (λ t. t.lines ≡ self.lines + 1) }
        ensures good { IfSome result (λ t. t.good ≡ self.good + good_among (verdict ∷ [])) }
        ensures bad { IfSome result (λ t. t.bad ≡ self.bad + bad_among (verdict ∷ [])) }
        ensures latest { IfSome result (λ t. t.latest ≡ latest) }
    {
        let lines = self.lines.checked_add(1)?;
        let (good, bad) = match verdict {
            LineVerdict::Good => (self.good + 1, self.bad),
            LineVerdict::Note => (self.good, self.bad),
            LineVerdict::Bad(_) => (self.good, self.bad + 1),
        };
        Some(LineTally {
            lines,
            good,
            bad,
            latest,
        })
    }

    /// `Done` if no line is bad, else `Faulty`.
    pub fn status(self) -> Status
        ensures { IsTallied self.bad result }
    {
        if self.bad == 0 {
            Status::Done
        } else {
            Status::Faulty
        }
    }
}
