//! Tests of stores that survive power cuts.
mod cuts;
mod documents;
mod forgotten;
mod playing;
mod rounds;
