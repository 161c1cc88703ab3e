//! Tests that no row of text can be. They are of refused memory, of readers, writers and outputs that fail, and of how many keys a table of slots
//! compares. Others are of worlds that are made up from numbers, of laws of a node, and of stores that survive power cuts.
//!
//! They stand in a crate of their own, so that no crate is proved a second time for its tests. It is one crate, since each such crate is compiled
//! with all below it. All else is a row of bac_stack_rows or bac_program_rows.
#![tactic(auto)]

#[cfg(test)]
mod codecs;
#[cfg(test)]
mod keeping;
#[cfg(test)]
mod networks;
pub mod noted_call;
