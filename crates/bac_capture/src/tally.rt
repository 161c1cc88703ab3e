//! Counts of frames, by the result of checking them.
ghost use Rattle.std.specs.Prelude.{◌≡◌, ◌≤◌, ◌+◌, ◌-◌, ◌^◌, ◌<◌, ◌↔◌, All, IsSome, IfSome};
ghost use Rattle.bac_capture.specs.Counts.{good_in, bad_in, other_in, others_after, IsTallied};

use crate::check_fault::Verdict;
use crate::others::{OTHERS, place_of};
use bac_text::Status;

/// Counts of the frames of a capture so far.
#[derive(Clone, Copy)]
pub struct FrameTally {
    /// All of them.
    pub frames: u64,
    /// Frames whose datagram has no fault.
    pub good: u64,
    /// Frames with a fault.
    pub bad: u64,
    /// Frames whose BVLL has another function.
    pub other: u64,
    /// The same by function: those over IPv4 at the index of their number, those over IPv6 at the last one.
    pub others: [u64; OTHERS],
    pub ghost counted: { good + bad + other ≤ frames },
    pub ghost few: { All (λ n. n ≤ frames) others },
}

impl FrameTally {
    /// No frame so far.
    pub const NONE: FrameTally = FrameTally {
        frames: 0,
        good: 0,
        bad: 0,
        other: 0,
        others: [0; OTHERS],
    };

    /// The counts of other functions, with one more frame.
    #[tactic(auto, using(crate::proofs::Few::few_with, crate::proofs::Few::few_more))]
    fn others_with(self, verdict: Verdict) -> [u64; OTHERS]
        requires { self.frames < 2 ^ 64 - 1 }
        ensures others { result ≡ others_after self.others verdict }
        ensures few { All (λ n. n ≤ self.frames + 1) result }
    {
        let mut others = self.others;
        if let Verdict::Other(other) = verdict {
            others[place_of(other)] += 1;
        }
        others
    }

    /// The counts with one more frame, of this verdict; None exactly if the number of frames overflows.
    pub fn with(self, verdict: Verdict) -> Option<FrameTally>
        ensures some { IsSome result ↔ (self.frames < 2 ^ 64 - 1) }
        ensures frames { IfSome result (λ t. t.frames ≡ self.frames + 1) }
        ensures good { IfSome result (λ t. t.good ≡ self.good + good_in verdict) }
        ensures bad { IfSome result (λ t. t.bad ≡ self.bad + bad_in verdict) }
        ensures other { IfSome result (λ t. t.other ≡ self.other + other_in verdict) }
        ensures others { IfSome result (λ t. t.others ≡ others_after self.others verdict) }
    {
        let frames = self.frames.checked_add(1)?;
        let (good, bad, other) = match verdict {
            Verdict::Nothing => (0, 0, 0),
            Verdict::Good => (1, 0, 0),
            Verdict::Bad(_) => (0, 1, 0),
            Verdict::Other(_) => (0, 0, 1),
        };
        Some(FrameTally {
            frames,
            good: self.good + good,
            bad: self.bad + bad,
            other: self.other + other,
            others: self.others_with(verdict),
        })
    }

    /// `Done` if no frame is bad, else `Faulty`.
    pub fn status(self) -> Status
        ensures { IsTallied self.bad result }
    {
        if self.bad == 0 {
            Status::Done
        } else {
            Status::Faulty
        }
    }
}
