//! Laws of the server's end by its rules: each function's contract is one.
ghost use Rattle.bac_transaction.specs.ServingLaws.{FreshIsReusing, RemembersAll, SharesSlots, StrictIsResponder, TurnsAwayBy};

/// Under the strict rules a server's end does what the standard with this profile's reply table says, word for word.
#[tactic(auto, using(crate::proofs::ByRules::strict_is_responder))]
pub fn strict_rules()
    ensures { StrictIsResponder }
{}

/// Where reads are performed anew, and a request is remembered for as long as its entry lives, it lets invoke IDs be used again.
#[tactic(auto, using(crate::proofs::ByRules::fresh_is_reusing))]
pub fn fresh_reads()
    ensures { FreshIsReusing }
{}

/// A server's end that remembers a request for 65,000 ms, or longer, forgets none.
#[tactic(auto, using(crate::proofs::ByRules::remembers_all))]
pub fn remembers_all()
    ensures { RemembersAll }
{}

/// A request that is turned away gets an Abort, and nothing is performed. It ends no entry, unless the end waits after a restart, when none is there.
#[tactic(auto, using(crate::proofs::ByRules::turns_away_by))]
pub fn requests_turned_away()
    ensures { TurnsAwayBy }
{}

/// Where slots are shared, the request of an address that has a share is served while a slot is free. An address that holds no entry has one. One that
/// holds some leaves the last free slot to others, and alone it never fills more than (15 n + 1)/16 of n slots.
#[tactic(auto, using(crate::proofs::ByRules::shares_slots))]
pub fn slots_are_shared()
    ensures { SharesSlots }
{}
