//! Where the laws end: runs in which an ask is not answered, or in which a server of fresh reads does what no strict one does.

ghost use Rattle.bac_liveness.specs.FreshExamples.{AnswerUnheard, ReadTwice};
ghost use Rattle.bac_liveness.specs.Failures.{WindowUsedUp, ReplyUsedUp, TooOld, OutOfPatience, RepeatWasted, OldAbort};

/// Requests in segments: the retries of a window or of a reply are used up, and a reassembly is too old.
#[tactic(auto, using(crate::proofs::Computed::window_used_up, crate::proofs::Computed::reply_used_up, crate::proofs::Computed::too_old))]
pub fn requests_in_segments()
    ensures window { WindowUsedUp }
    ensures reply { ReplyUsedUp }
    ensures reassembly { TooOld }
{}

/// Requests of one APDU: 12,000 ms are over, a repeat is wasted on a transfer that runs, and an old Abort overtakes the answer.
#[tactic(auto, using(crate::proofs::Computed::out_of_patience, crate::proofs::Computed::repeat_wasted, crate::proofs::Computed::old_abort))]
pub fn requests_of_one_apdu()
    ensures wait_limit { OutOfPatience }
    ensures repeat { RepeatWasted }
    ensures abort { OldAbort }
{}

/// Fresh reads: one is performed twice, and ends with the later reply; and the answer of one APDU leaves an ask open that collects an earlier one in segments.
#[tactic(auto, using(crate::proofs::FreshComputed::read_twice, crate::proofs::FreshComputed::answer_unheard))]
pub fn fresh_reads()
    ensures twice { ReadTwice }
    ensures unheard { AnswerUnheard }
{}
