//! How copies come into the list of them.
ghost use Rattle.std.specs.Prelude.{◌≡◌, ◌+◌, ◌<◌, ◌≤◌, List, [], ◌∷◌, ◌++◌, Some, length, map, vec_capacity};
ghost use Rattle.bac_world.specs.Node.{Node};
ghost use Rattle.bac_world.specs.World.{Note};
ghost use Rattle.bac_journal.specs.Growing.{BecomeCopies, CanGo};
ghost use Rattle.bac_journal.specs.declared.asks.Cell.{Cell};
ghost use Rattle.bac_journal.specs.Index.{cell_at};
ghost use Rattle.bac_journal.specs.Journals.{room_of};
ghost use Rattle.bac_journal.specs.Records.{IsKept};
ghost use Rattle.bac_journal.specs.Views.{key_view, copy_view, AreLinks};

use crate::asks::{Cell, Row, known, set_known};
use crate::copies::{Copy, copy_of};
use bac_npdu::LinkAddress;
use bac_transaction::Datagram;

/// A copy comes to the end of the list, which has room for it; its transaction has a cell.
pub(crate) fn add_copy(copies: &mut Vec<Copy>, rows: &mut [Row], copy: Copy)
    requires there { (k : Cell) × (cell_at rows.old (key_view copy.transaction) ≡ Some k) }
    requires room { length copies.old.items + 1 ≤ vec_capacity copies.old }
    ensures copies { map copy_view copies.new.items ≡ map copy_view copies.old.items ++ copy_view copy ∷ [] }
    ensures room { vec_capacity copies.new ≡ vec_capacity copies.old }
    ensures kept { (notes : List Note) → IsKept rows.old copies.old.items notes → IsKept rows.new copies.new.items notes }
    ensures many { length rows.new ≡ length rows.old }
    ensures rooms { map room_of rows.new ≡ map room_of rows.old }
{
    let transaction = copy.transaction;
    transaction.fits();
    let Some(found) = known(rows, &transaction) else {
        unreachable!()
    };
    copies.push_reserved(Copy {
        moment: copy.moment,
        from: copy.from,
        to: copy.to,
        transaction,
        octets: copy.octets,
        before: found.sent,
    });
    let cell = Cell {
        newest: found.newest,
        sent: found.sent.saturating_add(1),
    };
    set_known(rows, &transaction, cell);
}

/// A datagram that a node sends becomes the newest copy, or goes to a stranger, and becomes none.
fn send_one(
    links: &[LinkAddress],
    now: u64,
    sender: usize,
    copies: &mut Vec<Copy>,
    rows: &mut [Row],
    datagram: Datagram,
)
    requires sender { sender < length links.now }
    requires can { (notes : List Note) × IsKept rows.old copies.old.items notes × CanGo links.now notes now sender (datagram ∷ []) }
    requires room { length copies.old.items + 1 ≤ vec_capacity copies.old }
    ensures copies { (nodes : List Node) → AreLinks nodes links.now
        → BecomeCopies nodes now sender (datagram ∷ []) (map copy_view copies.old.items) (map copy_view copies.new.items) }
    ensures kept { (notes : List Note) → IsKept rows.old copies.old.items notes → IsKept rows.new copies.new.items notes }
    ensures nodes { length rows.new ≡ length rows.old }
    ensures many { length copies.new.items ≤ length copies.old.items + 1 }
    ensures room { vec_capacity copies.new ≡ vec_capacity copies.old }
    ensures rooms { map room_of rows.new ≡ map room_of rows.old }
{
    match copy_of(links, now, sender, datagram) {
        Some(copy) => add_copy(copies, rows, copy),
        None => {}
    }
}

/// The datagrams that a node sends to nodes become the newest copies, for which there is room.
pub(crate) fn send_all(
    links: &[LinkAddress],
    now: u64,
    sender: usize,
    copies: &mut Vec<Copy>,
    rows: &mut [Row],
    sends: Vec<Datagram>,
)
    requires sender { sender < length links.now }
    requires can { (notes : List Note) × IsKept rows.old copies.old.items notes × CanGo links.now notes now sender sends.items }
    requires room { length copies.old.items + length sends.items ≤ vec_capacity copies.old }
    ensures copies { (nodes : List Node) → AreLinks nodes links.now
        → BecomeCopies nodes now sender sends.items (map copy_view copies.old.items) (map copy_view copies.new.items) }
    ensures kept { (notes : List Note) → IsKept rows.old copies.old.items notes → IsKept rows.new copies.new.items notes }
    ensures nodes { length rows.new ≡ length rows.old }
    ensures many { length copies.new.items ≤ length copies.old.items + length sends.items }
    ensures room { vec_capacity copies.new ≡ vec_capacity copies.old }
    ensures rooms { map room_of rows.new ≡ map room_of rows.old }
{
    for datagram in sends {
        send_one(links, now, sender, copies, rows, datagram);
    }
}
