//! What is kept of transactions and tickets, so that none is looked for in a list.
ghost use Rattle.std.specs.Prelude.{◌≡◌, ◌+◌, ◌<◌, ◌≤◌, ℕ, IfOk, IsOk, List, length, replicate, slice_get, vec_capacity, Some};
ghost use Rattle.bac_world.specs.World.{Note};
ghost use Rattle.bac_journal.specs.declared.copies.Copy.{Copy};
ghost use Rattle.bac_journal.specs.Index.{cell_at, nothing, number_at, places_of, ArePlaces, IsOpen, IsOpenTo, IsReadied, IsWithRow, IsWithCell, IsWithNumber};
ghost use Rattle.bac_journal.specs.Records.{IsKept};
ghost use Rattle.bac_journal.specs.Views.{key_view};

use crate::transaction::Transaction;
use bac_value::NoMemory;
use std::alloc::Global;

/// What is kept of a transaction: its newest ask, and how many of the copies are its.
#[derive(Clone, Copy, PartialEq, Eq)]
pub(crate) struct Cell {
    pub newest: Option<usize>,
    pub sent: usize,
}

/// What is kept of a node as a client: for each server a page of its transactions, by invoke ID, which is empty until room is made for an ask to it; and
/// the numbers of its newest asks, by ticket.
#[derive(Drop)]
pub(crate) struct Row {
    pub pages: Vec<Vec<Cell>>,
    pub numbers: Vec<usize>,
}

/// What is kept of a transaction; None where no room was made for an ask of its client to its server.
pub(crate) fn known(rows: &[Row], key: &Transaction) -> Option<Cell>
    ensures { result ≡ cell_at rows.now (key_view key.now) }
{
    let row = rows.get(key.client)?;
    let page = row.pages.get(key.server)?;
    page.get(usize::from(key.invoke_id)).copied()
}

/// The number of the newest ask of a ticket; None where there is none.
pub(crate) fn number_of(rows: &[Row], client: usize, ticket: u64) -> Option<usize>
    ensures { result ≡ number_at rows.now client ticket }
{
    let row = rows.get(client)?;
    row.numbers.get(ticket as usize).copied()
}

/// Sets what is kept of a transaction that has a cell.
pub(crate) fn set_known(rows: &mut [Row], key: &Transaction, cell: Cell)
    requires { (k : Cell) × (cell_at rows.old (key_view key.now) ≡ Some k) }
    ensures { IsWithRow rows.old key.now.client (IsWithCell key.now.server key.now.invoke_id cell) rows.new }
{
    let row = &mut rows[key.client];
    let page = &mut row.pages[key.server];
    page[usize::from(key.invoke_id)] = cell;
}

/// Sets the number of the ask of a ticket that there was, or of the one after them, for which there is room.
fn put_number(row: &mut Row, ticket: u64, number: usize)
    requires next { ticket ≤ length row.old.numbers.items }
    requires room { length row.old.numbers.items + 1 ≤ vec_capacity row.old.numbers }
    ensures { IsWithNumber ticket number row.old row.new }
{
    let place = ticket as usize;
    if place < row.numbers.len() {
        row.numbers[place] = number;
    } else {
        row.numbers.push_reserved(number);
    }
}

/// Notes the number of the ask of a client's ticket, one that there was or the one after them, for which there is room.
pub(crate) fn add_number(rows: &mut [Row], client: usize, ticket: u64, number: usize)
    requires { (r : _) × (slice_get rows.old client ≡ Some r) × (length r.numbers.items + 1 ≤ vec_capacity r.numbers) × (ticket ≤ length r.numbers.items) }
    ensures { IsWithRow rows.old client (IsWithNumber ticket number) rows.new }
{
    put_number(&mut rows[client], ticket, number);
}

/// A page of which nothing is known: a cell for each invoke ID (clause 20.1.2.6).
fn blank_page(alloc: Global) -> Result<Vec<Cell>, NoMemory>
    ensures { IfOk result (λ page. page.items ≡ replicate 256 nothing) }
{
    let nothing = Cell {
        newest: None,
        sent: 0,
    };
    Ok(vec![in alloc; nothing; 256]?)
}

/// Makes a page for a server where there is none; nothing else changes.
fn reserve_page(alloc: Global, row: &mut Row, server: usize) -> Result<(), NoMemory>
    requires there { server < length row.old.pages.items }
    requires places { (servers : ℕ) × ArePlaces servers (places_of row.old) }
    ensures ok { IsOk result → slice_get (places_of row.new) server ≡ Some 256 }
    ensures same { IsReadied row.old row.new }
    ensures numbers { row.new.numbers ≡ row.old.numbers }
{
    if row.pages[server].is_empty() {
        row.pages[server] = blank_page(alloc)?;
    }
    Ok(())
}

/// Makes room for the ask of a client's next ticket, to that server; nothing else changes.
fn reserve_in(alloc: Global, row: &mut Row, server: usize) -> Result<(), NoMemory>
    requires there { server < length row.old.pages.items }
    requires places { (servers : ℕ) × ArePlaces servers (places_of row.old) }
    ensures ok { IsOk result → IsOpen server row.new }
    ensures same { IsReadied row.old row.new }
{
    reserve_page(alloc, row, server)?;
    row.numbers.reserve(1)?;
    Ok(())
}

/// Makes room for the ask of a client's next ticket, to that server; nothing else changes.
pub(crate) fn reserve_ask(
    alloc: Global,
    rows: &mut [Row],
    client: usize,
    server: usize,
) -> Result<(), NoMemory>
    requires client { client < length rows.old }
    requires server { server < length rows.old }
    requires kept { (copies : List Copy) × (notes : List Note) × IsKept rows.old copies notes }
    ensures ok { IsOk result → IsOpenTo rows.new client server }
    ensures kept { (copies : List Copy) (notes : List Note) → IsKept rows.old copies notes → IsKept rows.new copies notes }
    ensures many { length rows.new ≡ length rows.old }
{
    reserve_in(alloc, &mut rows[client], server)
}

/// Makes room for the number of one more ask; nothing else changes.
fn reserve_number(row: &mut Row) -> Result<(), NoMemory>
    ensures ok { IsOk result → length row.new.numbers.items + 1 ≤ vec_capacity row.new.numbers }
    ensures same { IsReadied row.old row.new }
{
    row.numbers.reserve(1)?;
    Ok(())
}

/// Makes room for the ask of a client's next ticket, of a stranger; nothing else changes.
pub(crate) fn reserve_ticket(rows: &mut [Row], client: usize) -> Result<(), NoMemory>
    requires client { client < length rows.old }
    ensures ok { IsOk result → (r : _) × (slice_get rows.new client ≡ Some r) × (length r.numbers.items + 1 ≤ vec_capacity r.numbers) }
    ensures kept { (copies : List Copy) (notes : List Note) → IsKept rows.old copies notes → IsKept rows.new copies notes }
    ensures many { length rows.new ≡ length rows.old }
{
    reserve_number(&mut rows[client])
}
