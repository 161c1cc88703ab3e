//! What a server does and doesn't under its rules, whatever comes.

ghost use Rattle.bac_protocol.specs.ServingLaws.{EndsWithReply, FreshIsReuse, GoesOnAsEver, PerformsWhereEnded, ReadsAreFresh, RemembersAll, ServesAnyway, StrictIsServer, TurnsAway};

/// Under the strict rules the machine is that of the standard with this profile's reply table, word for word.
#[tactic(auto, using(crate::proofs::ByRules::strict_is_server))]
pub fn strict_rules()
    ensures { StrictIsServer }
{}

/// Where a request is remembered as long as its entry lives, the rules of fresh reads are the machine that lets invoke IDs be used again.
#[tactic(auto, using(crate::proofs::ByRules::fresh_is_reuse))]
pub fn fresh_rules()
    ensures { FreshIsReuse }
{}

/// A server that remembers a request for 65,000 ms, or longer, forgets none: no entry is live for longer.
#[tactic(auto, using(crate::proofs::ByRules::remembers_all))]
pub fn remembers_all()
    ensures { RemembersAll }
{}

/// Where an entry is not over and does not end with its reply, or its own request comes again, is no read and is not forgotten, the server does what it does
/// under the strict rules.
#[tactic(auto, using(crate::proofs::ByRules::goes_on_as_ever))]
pub fn entries_go_on()
    ensures { GoesOnAsEver }
{}

/// The entry of a read that came without segments ends at the SegmentACK that finishes its reply in segments, and at an Abort of its client; nothing is sent
/// then. That is where reads are performed anew.
#[tactic(auto, using(crate::proofs::ByRules::ends_with_its_reply))]
pub fn reads_end_with_their_reply()
    ensures { EndsWithReply }
{}

/// Under any rules a request is performed only where no entry is live, or one is still being received, or the APDU ends the one that is.
pub fn performs_where_ended()
    ensures { PerformsWhereEnded }
{}

/// A read without segments whose reply is one APDU is performed, whether an entry may begin or not, where no entry of its key is live or that one is over; no
/// entry is left of it. That is where reads are performed anew.
#[tactic(auto, using(crate::proofs::ByRules::reads_are_fresh))]
pub fn reads_are_fresh()
    ensures { ReadsAreFresh }
{}

/// A request that is turned away gets an Abort with the reason 'other', and nothing else is done; for all others it makes no difference whether an entry may
/// begin.
pub fn requests_turned_away()
    ensures away { TurnsAway }
    ensures anyway { ServesAnyway }
{}
