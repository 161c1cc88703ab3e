//! The store that a document and kept cells make.
ghost use Rattle.std.specs.Prelude.{◌≡◌, ◌<◌, ◌+◌, [], ◌∷◌, drop, false, length, true, IfErr, IfOk, OnOk, Some};
ghost use Rattle.bac_value.specs.Views.{object_identifier_view};
ghost use Rattle.bac_store.specs.Writes.{file_at, listed_at};
ghost use Rattle.bac_keep.specs.Cells.{file_place as plain_file_place};
ghost use Rattle.bac_keep.specs.Overlay.{joined, overlay};
ghost use Rattle.bac_keep.specs.Restored.{is_writable_file, is_writable_value, with_kept_octets, with_kept_values};
ghost use Rattle.bac_keep.specs.Held.{IsRising, held};
ghost use Rattle.bac_c.specs.Fitting.{AreFit, EachFits, HaveAllParts, IsWrong, is_part as plain_is_part, octets_fit, values_fit};
ghost use Rattle.bac_c.specs.Kept.{IsFaultFor, IsPlaceAt, fault_at as plain_fault_at, states_count};

use crate::kept_fault::KeptFault;
use crate::places::part_of;
use bac_keep::{CHUNK, Cell, Part, file_place};
use bac_store::{ChangeFault, Store, stores_are_in_order};
use bac_value::ObjectIdentifier;
use std::alloc::Global;

/// Whether a part of a file can have these octets: the last one has 1 to 1,024, each one before it 1,024.
fn is_part(octets: &[u8], is_last: bool) -> bool
    ensures { result ≡ plain_is_part is_last (Some octets.now) }
{
    if is_last {
        !octets.is_empty() && octets.len() <= CHUNK
    } else {
        octets.len() == CHUNK
    }
}

/// The octets of a file, whose number of parts is in the cell at this index: those of the cells after it.
fn octets_at(
    alloc: Global,
    cells: &[Cell],
    at: usize,
    object: ObjectIdentifier,
    count: u8,
) -> Result<Vec<u8>, KeptFault>
    requires within { at < length cells.now }
    requires place { IsPlaceAt (plain_file_place (object_identifier_view object) 0) at cells.now }
    ensures made { IfOk result (λ v. IsRising cells.now → v.items ≡ joined (held (drop at cells.now)) (object_identifier_view object) count) }
    ensures fits { OnOk result (HaveAllParts cells.now (object_identifier_view object) count true) }
    ensures fault { IfErr result (IsFaultFor (plain_file_place (object_identifier_view object) 0)
        (HaveAllParts cells.now (object_identifier_view object) count false)) }
{
    let wrong = KeptFault::Wrong {
        place: file_place(object, 0),
    };
    let mut octets = Vec::new(alloc);
    for part in 0..count {
        let next = at + 1 + usize::from(part);
        if next >= cells.len() {
            return Err(wrong);
        }
        let cell = &cells[next];
        if cell.place != file_place(object, u32::from(part) + 1) {
            return Err(wrong);
        }
        if !is_part(&cell.octets, part + 1 == count) {
            return Err(wrong);
        }
        octets.extend_from_slice(&cell.octets)?;
    }
    Ok(octets)
}

/// Why a cell with this place is not restored.
fn fault_at(place: u64, fault: ChangeFault) -> KeptFault
    ensures { result ≡ plain_fault_at place fault }
{
    match fault {
        ChangeFault::NoMemory => KeptFault::NoMemory,
        _ => KeptFault::Wrong { place },
    }
}

/// The number of parts that a cell states.
fn count_of(cell: &Cell) -> Result<u8, KeptFault>
    ensures made { IfOk result (λ n. cell.now.octets.items ≡ n ∷ []) }
    ensures fault { IfErr result (IsFaultFor cell.now.place (states_count cell.now.octets.items ≡ false)) }
{
    match cell.octets.as_slice() {
        [count] => Ok(*count),
        _ => Err(KeptFault::Wrong { place: cell.place }),
    }
}

/// Whether the network may write a property that is listed.
fn is_writable(store: &Store, object: ObjectIdentifier, property: u32) -> bool
    ensures { result ≡ is_writable_value (listed_at store.now (object_identifier_view object) property) }
{
    match store.listed(object, property) {
        Some(listed) => listed.writable,
        None => false,
    }
}

/// Whether the network may write a file.
fn is_writable_as_file(store: &Store, object: ObjectIdentifier) -> bool
    ensures { result ≡ is_writable_file (file_at store.now (object_identifier_view object)) }
{
    match store.file(object) {
        Some(file) => file.writable,
        None => false,
    }
}

/// Gives a property the values that are kept at this place, if the network may write it.
#[tactic(auto, using(crate::proofs::Fits::refused_for, crate::proofs::Fits::taken, crate::proofs::Fits::not_written))]
fn restore_values(
    alloc: Global,
    store: &mut Store,
    place: u64,
    object: ObjectIdentifier,
    property: u32,
    octets: &[u8],
) -> Result<(), KeptFault>
    ensures made { OnOk result (store.new ≡ with_kept_values (object_identifier_view object) property octets.now store.old) }
    ensures fits { OnOk result (values_fit store.old (object_identifier_view object) property octets.now ≡ true) }
    ensures fault { IfErr result (IsFaultFor place (values_fit store.old (object_identifier_view object) property octets.now ≡ false)) }
{
    if !is_writable(store, object, property) {
        return Ok(());
    }
    match store.set_value(alloc, object, property, octets) {
        Ok(()) => Ok(()),
        Err(fault) => Err(fault_at(place, fault)),
    }
}

/// Gives a file, which the network may write, the octets that are kept. The number of its parts has this place.
#[tactic(auto, using(crate::proofs::Fits::octets_refused, crate::proofs::Fits::octets_taken))]
fn restore_octets(
    alloc: Global,
    store: &mut Store,
    place: u64,
    object: ObjectIdentifier,
    octets: &[u8],
) -> Result<(), KeptFault>
    requires { is_writable_file (file_at store.old (object_identifier_view object)) ≡ true }
    ensures made { OnOk result (store.new ≡ with_kept_octets (object_identifier_view object) octets.now store.old) }
    ensures fits { OnOk result (octets_fit store.old (object_identifier_view object) octets.now ≡ true) }
    ensures fault { IfErr result (IsFaultFor place (octets_fit store.old (object_identifier_view object) octets.now ≡ false)) }
{
    match store.set_file(alloc, object, octets) {
        Ok(()) => Ok(()),
        Err(fault) => Err(fault_at(place, fault)),
    }
}

/// Restores what the cell at this index has, on top of the cells after it.
fn restore_cell(
    alloc: Global,
    store: &mut Store,
    document: &Store,
    cells: &[Cell],
    at: usize,
) -> Result<(), KeptFault>
    requires within { at < length cells.now }
    requires above { IsRising cells.now → store.old ≡ overlay (held (drop (at + 1) cells.now)) document.now }
    requires others { IsRising cells.now → EachFits document.now (held cells.now) (drop (at + 1) cells.now) }
    ensures made { OnOk result (IsRising cells.now → store.new ≡ overlay (held (drop at cells.now)) document.now) }
    ensures fits { OnOk result (IsRising cells.now → EachFits document.now (held cells.now) (drop at cells.now)) }
    ensures fault { IfErr result (λ e. IsRising cells.now → IsWrong e document.now (held cells.now)) }
{
    // so that an identifier finds its object
    stores_are_in_order(document);
    let cell = &cells[at];
    match part_of(cell.place) {
        None => Err(KeptFault::Wrong { place: cell.place }),
        Some(Part::Values { object, property }) => {
            restore_values(alloc, store, cell.place, object, property, &cell.octets)?;
            Ok(())
        }
        Some(Part::Count { object }) => {
            if !is_writable_as_file(store, object) {
                return Ok(());
            }
            let count = count_of(cell)?;
            let octets = octets_at(alloc, cells, at, object, count)?;
            restore_octets(alloc, store, cell.place, object, &octets)?;
            Ok(())
        }
        // read with the number of the file's parts
        Some(Part::Chunk { .. }) => Ok(()),
    }
}

/// The store that a document and cells make, whose places rise. Cells of no property and no file of the document, or of one that may not be written, have no
/// effect.
///
/// Returns `Wrong` with the place of a cell that does not fit, and `NoMemory` if memory was refused. It does not fit a property that can't have these
/// values. It does not fit a file of which a part is missing or of another length than its place allows, or whose octets are too many.
pub fn restored(alloc: Global, document: &Store, cells: &[Cell]) -> Result<Store, KeptFault>
    ensures made { IfOk result (λ s. IsRising cells.now → s ≡ overlay (held cells.now) document.now) }
    ensures fit { OnOk result (IsRising cells.now → AreFit document.now (held cells.now)) }
    ensures fault { IfErr result (λ e. IsRising cells.now → IsWrong e document.now (held cells.now)) }
{
    let mut store = document.copy(alloc)?;
    let count = cells.len();
    for done in 0..count {
        restore_cell(alloc, &mut store, document, cells, count - 1 - done)?;
    }
    Ok(store)
}
