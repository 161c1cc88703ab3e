//! The peers of a list of requests.
use bac_environment::LineQuestion;
use std::alloc::{AllocError, Global};
use std::collections::BTreeSet;

/// How many asks of one peer may be under way, where there may be so many of all: an equal share for each peer of these lines, at least one. So a peer that is
/// silent holds up no other.
pub(crate) fn share_of(
    alloc: Global,
    window: u64,
    lines: &[LineQuestion],
) -> Result<u64, AllocError> {
    let mut peers = BTreeSet::new(alloc);
    for line in lines {
        peers.insert(line.question.peer)?;
    }
    let count = (peers.len() as u64).max(1);
    Ok((window / count).max(1))
}
