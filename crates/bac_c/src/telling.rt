//! The cells of a store, one by one, for a program that keeps them.
ghost use Rattle.std.specs.Prelude.{◌≡◌, ◌≤◌, ◌<◌, ◌*◌, length, ℕ};
ghost use Rattle.std.specs.Option.{option_map};
ghost use Rattle.bac_value.specs.Views.{object_identifier_view};
ghost use Rattle.bac_store.specs.Kept.{IsInOrder};
ghost use Rattle.bac_store.specs.Limits.{FILE_LIMIT as FILE_MOST};
ghost use Rattle.bac_store.specs.Stores.{Store as Objects};
ghost use Rattle.bac_keep.specs.Cells.{Cells};
ghost use Rattle.bac_keep.specs.Made.{IsKeepable, Made, after_made};
ghost use Rattle.bac_keep.specs.Noted.{chunk_count as plain_chunk_count};
ghost use Rattle.bac_keep.specs.Overlay.{CHUNK as CHUNK_SIZE, chunk, overlay};
ghost use Rattle.bac_c.specs.Results.{IsCopied, IsTold};
ghost use Rattle.bac_c.specs.Telling.{HasPlaces, count_told, octets_in, part_told, place_in, put_made, told};

use crate::copying::copy_out;
use bac_keep::{CHUNK, NUMBERS, file_place, value_place};
use bac_store::Store;
use bac_value::ObjectIdentifier;

/// The number that means the octets of a file, in place of a property's.
pub const CONTENTS: u32 = u32::MAX;

/// How many chunks these octets have.
fn chunk_count(octets: &[u8]) -> usize
    requires { length octets.now ≤ FILE_MOST }
    ensures is { result ≡ plain_chunk_count octets.now }
    ensures few { result < 256 }
{
    (octets.len() + 1023) / CHUNK
}

/// One chunk of a file.
fn chunk_of(octets: &[u8], at: usize) -> &[u8]
    requires { at * CHUNK_SIZE ≤ length octets.now }
    ensures { result.now ≡ chunk octets.now at }
{
    let start = at * CHUNK;
    if octets.len() - start <= CHUNK {
        return &octets[start..];
    }
    &octets[start..start + CHUNK]
}

/// How many cells a property has, or a file.
pub fn cells_of(store: &Store, object: ObjectIdentifier, number: u32) -> usize
    ensures { result ≡ count_told store.now (object_identifier_view object) number }
{
    if number == CONTENTS {
        return match store.file(object) {
            Some(file) if file.writable => chunk_count(&file.octets) + 1,
            _ => 0,
        };
    }
    match store.listed(object, number) {
        Some(listed) if listed.writable && u64::from(number) < NUMBERS => 1,
        _ => 0,
    }
}

/// Tells a part of a file: puts its place out, and copies its octets out. How many they are; 0 where there is no part of that index.
#[tactic(auto, using(crate::proofs::Copies::none_copied))]
fn part_out(
    object: ObjectIdentifier,
    octets: &[u8],
    index: usize,
    place: &mut u64,
    out: &mut [u8],
) -> usize
    requires { length octets.now ≤ FILE_MOST }
    ensures place { IsTold place_in (part_told (object_identifier_view object) octets.now index) place.old place.new }
    ensures octets { IsCopied (octets_in (part_told (object_identifier_view object) octets.now index)) out.old result out.new }
{
    let count = chunk_count(octets);
    if index < count {
        *place = file_place(object, index as u32 + 1);
        return copy_out(chunk_of(octets, index), out);
    }
    if index == count {
        *place = file_place(object, 0);
        // the number of chunks is told last: at most 59, those of 60,000 octets
        return copy_out(&[count as u8], out);
    }
    0
}

/// Tells a cell of a property, or of a file: puts its place out, and copies its octets out. How many they are; 0 where there is no cell of that index.
#[tactic(auto, using(crate::proofs::Copies::none_copied))]
pub fn cell_out(
    store: &Store,
    object: ObjectIdentifier,
    number: u32,
    index: usize,
    place: &mut u64,
    out: &mut [u8],
) -> usize
    ensures place { IsTold place_in (told store.now (object_identifier_view object) number index) place.old place.new }
    ensures octets { IsCopied (octets_in (told store.now (object_identifier_view object) number index)) out.old result out.new }
{
    if number == CONTENTS {
        return match store.file(object) {
            Some(file) if file.writable => part_out(object, &file.octets, index, place, out),
            _ => 0,
        };
    }
    match store.listed(object, number) {
        Some(listed) if listed.writable && u64::from(number) < NUMBERS && index == 0 => {
            *place = value_place(object, number);
            copy_out(listed.octets, out)
        }
        _ => 0,
    }
}

/// What a node makes of its store is kept by the cells that are told of it. A document and cells make the store before. With these put into the cells
/// they make the store after.
pub fn told_cells_keep()
    ensures { (document s : Objects) (cells : Cells) (m : Made) → IsInOrder document → IsInOrder s → HasPlaces m → IsKeepable m (overlay cells document)
        → s ≡ after_made m (overlay cells document) → overlay (put_made s m cells) document ≡ s }
{}
