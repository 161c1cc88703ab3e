//! Octets in pieces.
ghost use Rattle.std.specs.Prelude.{◌<◌};

use std::alloc::Global;

/// Adds a copy of a piece.
fn put_copy(alloc: Global, piece: &[u8], pieces: &mut Vec<Vec<u8>>) {
    if let Ok(piece) = piece.to_vec(alloc) {
        let _ = pieces.push(piece);
    }
}

/// The pieces of some octets: each `size` long but the last, and an empty one before each where that is wanted.
pub(crate) fn pieces_of(alloc: Global, octets: &[u8], size: usize, empty: bool) -> Vec<Vec<u8>>
    requires { 0 < size }
{
    let mut pieces = Vec::new(alloc);
    for piece in octets.chunks(size) {
        if empty {
            put_copy(alloc, &[], &mut pieces);
        }
        put_copy(alloc, piece, &mut pieces);
    }
    pieces
}

/// Octets in two pieces, the first of which has so many.
pub(crate) fn cut(alloc: Global, octets: &[u8], place: usize) -> Vec<Vec<u8>> {
    let mut pieces = Vec::new(alloc);
    put_copy(alloc, octets.get(..place).unwrap_or(octets), &mut pieces);
    put_copy(alloc, octets.get(place..).unwrap_or(&[]), &mut pieces);
    pieces
}
