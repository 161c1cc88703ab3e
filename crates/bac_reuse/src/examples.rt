//! Runs that are computed, in which servers let invoke IDs be used again.

ghost use Rattle.bac_reuse.specs.Examples.{WritesAreOnce, ReadsAreFresh, OneInvokeId, PiecesAreOnce, ReadsEnd, ReadsThatWrite};

/// One invoke ID for ever: each write is performed once, each read as often as it comes, and a write's repeat gets the kept reply.
#[tactic(auto, using(crate::proofs::Computed::writes_are_once, crate::proofs::Computed::reads_are_fresh, crate::proofs::Computed::one_invoke_id))]
pub fn one_invoke_id_for_ever()
    ensures writes { WritesAreOnce }
    ensures reads { ReadsAreFresh }
    ensures both { OneInvokeId }
{}

/// Two writes in segments, of which the first segments differ, are both performed under one invoke ID; a repeat is not.
#[tactic(auto, using(crate::proofs::Computed::pieces_are_once))]
pub fn pieces_under_one_invoke_id()
    ensures { PiecesAreOnce }
{}

/// The entry of a read ends with its reply in segments; that of a write is remembered.
#[tactic(auto, using(crate::proofs::Computed::reads_end))]
pub fn reads_end_with_their_reply()
    ensures { ReadsEnd }
{}

/// Beyond the assumption on reads: one that changes its store takes effect twice.
#[tactic(auto, using(crate::proofs::Computed::reads_that_write))]
pub fn reads_that_write()
    ensures { ReadsThatWrite }
{}
