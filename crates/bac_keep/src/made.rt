//! What a node makes of its store.
use bac_service::Request;
use bac_store::Change;

/// What a node makes of its store.
#[derive(Clone, Copy, Debug)]
pub enum Made<'a> {
    /// It performs a request, to which its reply is not an Error.
    Performed(Request<'a>),
    /// It makes a local change.
    Changed(&'a Change),
}
