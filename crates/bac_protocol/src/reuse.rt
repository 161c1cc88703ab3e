//! What a server that lets clients use an invoke ID again does and doesn't, whatever comes.

ghost use Rattle.bac_protocol.specs.ReuseLaws.{EndsWithReply, GoesOnAsEver, PerformsWhereEnded, ReadsAreFresh};

/// Where an entry is not over and does not end with its reply, or its own request comes again and is no read, the server does what it does without reuse;
/// without the setting it always does.
#[tactic(auto, using(crate::proofs::Reused::goes_on_as_ever))]
pub fn entries_go_on()
    ensures { GoesOnAsEver }
{}

/// The entry of a read that came without segments ends at the SegmentACK that finishes its reply in segments, and at an Abort of its client. Nothing is sent
/// then; without reuse nothing is either, and the entry is over from then on.
#[tactic(auto, using(crate::proofs::Reused::ends_with_its_reply))]
pub fn reads_end_with_their_reply()
    ensures { EndsWithReply }
{}

/// A request is performed only where no entry is live, or one is still being received, or the APDU ends the one that is: that is over, and a read comes, or
/// another request. So an equal request that is no read is performed once while its entry lives.
#[tactic(auto, using(crate::proofs::Reused::performs_where_ended))]
pub fn performs_where_ended()
    ensures { PerformsWhereEnded }
{}

/// A read without segments whose reply is one APDU is performed, whether a slot is free or not, where no entry of its key is live or that one is over; no entry
/// is left of it.
#[tactic(auto, using(crate::proofs::Reused::reads_are_fresh))]
pub fn reads_are_fresh()
    ensures { ReadsAreFresh }
{}
