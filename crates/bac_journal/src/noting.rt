//! How asks are noted.
ghost use Rattle.std.specs.Prelude.{◌≡◌, ◌+◌, ◌≤◌, List, ◌∷◌, IsSome, None, Some, length, slice_get, vec_capacity};
ghost use Rattle.bac_world.specs.World.{is_away};
ghost use Rattle.bac_journal.specs.declared.asks.Cell.{Cell};
ghost use Rattle.bac_journal.specs.declared.asks.Row.{Row};
ghost use Rattle.bac_journal.specs.declared.copies.Copy.{Copy};
ghost use Rattle.bac_journal.specs.Entering.{tickets_of};
ghost use Rattle.bac_journal.specs.Index.{cell_at};
ghost use Rattle.bac_journal.specs.Notes.{note_view, notes_view};
ghost use Rattle.bac_journal.specs.Records.{IsKept};
ghost use Rattle.bac_journal.specs.Views.{key_view};

use crate::asks::{Cell, Row, add_number, known, set_known};
use crate::transaction::Transaction;
use bac_npdu::Peer;

/// What is noted of an accepted ask. Asks are numbered from 0, in the order of their notes.
#[derive(Clone, Copy, Debug)]
pub struct Note {
    /// The transaction that it began.
    pub transaction: Transaction,
    /// Its client's ticket.
    pub ticket: u64,
    /// The stranger that was asked, if it was one; the transaction then has no server among the nodes, and its server is 0.
    pub stranger: Option<Peer>,
}

/// An ask is noted: it is its transaction's newest, and its ticket's. There is room for it, and for its ticket, which its client had before, or which is
/// the one after them.
pub(crate) fn add_note(notes: &mut Vec<Note>, rows: &mut [Row], note: Note)
    requires node { note.stranger ≡ None }
    requires there { (k : Cell) × (cell_at rows.old (key_view note.transaction) ≡ Some k) }
    requires room { length notes.old.items + 1 ≤ vec_capacity notes.old }
    requires ticket_room { (r : Row) × (slice_get rows.old note.transaction.client ≡ Some r) × (length r.numbers.items + 1 ≤ vec_capacity r.numbers)
        × (note.ticket ≤ length r.numbers.items) }
    ensures notes { notes_view notes.new.items ≡ note_view note ∷ notes_view notes.old.items }
    ensures kept { (copies : List Copy) → note.ticket ≤ tickets_of note.transaction.client (notes_view notes.old.items)
        → IsKept rows.old copies (notes_view notes.old.items) → IsKept rows.new copies (notes_view notes.new.items) }
    ensures room { vec_capacity notes.new ≡ vec_capacity notes.old }
    ensures many { length rows.new ≡ length rows.old }
{
    let number = notes.len();
    let transaction = note.transaction;
    transaction.fits();
    let Some(found) = known(rows, &transaction) else {
        unreachable!()
    };
    let cell = Cell {
        newest: Some(number),
        sent: found.sent,
    };
    set_known(rows, &transaction, cell);
    add_number(rows, transaction.client, note.ticket, number);
    notes.push_reserved(note);
}

/// An ask of a stranger is noted: it is its ticket's newest, and no transaction's of nodes. There is room for it, and for its ticket, which its client had
/// before, or which is the one after them.
pub(crate) fn add_stranger_note(notes: &mut Vec<Note>, rows: &mut [Row], note: Note)
    requires stranger { IsSome note.stranger }
    requires room { length notes.old.items + 1 ≤ vec_capacity notes.old }
    requires ticket_room { (r : Row) × (slice_get rows.old note.transaction.client ≡ Some r) × (length r.numbers.items + 1 ≤ vec_capacity r.numbers)
        × (note.ticket ≤ length r.numbers.items) }
    ensures notes { notes_view notes.new.items ≡ note_view note ∷ notes_view notes.old.items }
    ensures kept { (copies : List Copy) → note.ticket ≤ tickets_of note.transaction.client (notes_view notes.old.items)
        → IsKept rows.old copies (notes_view notes.old.items) → IsKept rows.new copies (notes_view notes.new.items) }
    ensures room { vec_capacity notes.new ≡ vec_capacity notes.old }
    ensures many { length rows.new ≡ length rows.old }
{
    let number = notes.len();
    add_number(rows, note.transaction.client, note.ticket, number);
    notes.push_reserved(note);
}

/// Whether the ask of that number was of a stranger.
pub(crate) fn is_of_stranger(notes: &[Note], number: usize) -> bool
    ensures { result ≡ is_away number (notes_view notes.now) }
{
    match notes.get(number) {
        Some(note) => note.stranger.is_some(),
        None => false,
    }
}
