//! What a sweep leaves, and how far it looks.
ghost use Rattle.std.specs.Prelude.{◌≡◌, ◌∷◌, [], ◌||◌, IfSome, nat_le, nat_lt, ℕ};

use super::counted_key::{CountedKey, counted};
use super::*;
use bac_slots::{Same, Test, count_passing, has_room_once_swept, same_tables, sweep, sweep_oldest};
use std::cell::Cell;

// All values pass but those from one number to another; each look at a value is counted.
#[derive(Drop)]
struct Outside<'a> {
    first: u64,
    last: u64,
    looks: &'a Cell<u64>,
}

impl Test<u64> for Outside<'_> {
    ghost passes = { λ t v. nat_lt v t.first || nat_lt t.last v };

    fn passes(&self, value: &u64) -> bool {
        self.looks.set(self.looks.get().saturating_add(1));
        *value < self.first || self.last < *value
    }
}

// All values below a number pass.
fn from(first: u64, looks: &Cell<u64>) -> Outside<'_> {
    Outside {
        first,
        last: u64::MAX,
        looks,
    }
}

// A table of three slots that began at the moments 0 to 2, which are their values.
fn three(alloc: Global, room: usize) -> Option<IndexSlots<u32, u64>>
    ensures { IfSome result (λ t. t.0 ≡ record { key = 8; begin = 0; value = 0 } ∷ record { key = 9; begin = 1; value = 1 }
        ∷ record { key = 7; begin = 2; value = 2 } ∷ []) }
{
    let Ok(mut table) = IndexSlots::<u32, u64>::new(alloc, room) else {
        return None;
    };
    if table.put(8, 0, 0).is_err() {
        return None;
    }
    if table.put(9, 1, 1).is_err() {
        return None;
    }
    if table.put(7, 2, 2).is_err() {
        return None;
    }
    Some(table)
}

// How many values are looked at for whether a slot would be free, and whether one would be.
fn looks_for_room(alloc: Global, room: usize, first: u64, bound: u64) -> Option<(u64, bool)> {
    let table = three(alloc, room)?;
    let looks = Cell::new(0);
    let test = Outside {
        first,
        last: bound,
        looks: &looks,
    };
    let has_room = has_room_once_swept(&table, &test, bound);
    Some((looks.get(), has_room))
}

// How many values a sweep looks at, and how many slots it leaves.
fn looks_of_a_sweep(alloc: Global, first: u64, bound: u64) -> Option<(u64, usize)> {
    let mut table = three(alloc, 3)?;
    let looks = Cell::new(0);
    let test = Outside {
        first,
        last: bound,
        looks: &looks,
    };
    sweep_oldest(&mut table, &test, bound);
    Some((looks.get(), table.len()))
}

// The first value that fails, the bound, which is the last, what a look for room comes to, and what a sweep does.
struct Looks(u64, u64, (u64, bool), (u64, usize));

const LOOKS: &[Looks] = &[
    Looks(0, 0, (1, true), (1, 2)),
    Looks(1, 1, (2, true), (2, 2)),
    Looks(0, 2, (1, true), (3, 0)),
    Looks(9, 1, (2, false), (2, 3)),
    Looks(9, 2, (3, false), (3, 3)),
];

fn is_looked_at(alloc: Global, row: &Looks) -> bool {
    looks_for_room(alloc, 3, row.0, row.1) == Some(row.2)
        && looks_of_a_sweep(alloc, row.0, row.1) == Some(row.3)
}

// Neither looks at a slot that began after the bound, and a look for room none after the first that fails.
#[test]
fn neither_looks_further_than_it_has_to(rt: HostRuntime) -> Result<(), Fail> {
    for row in LOOKS {
        if !is_looked_at(rt.alloc(), row) {
            return Err(Fail::from(row.0));
        }
    }
    // no value is looked at while a slot is unused
    holds(
        looks_for_room(rt.alloc(), 4, 0, 2) == Some((0, true)),
        "an unused slot",
    )
}

// A value of a table that is compared with another.
#[derive(Clone, Copy)]
struct Number(u32);

impl Same for Number {
    ghost Seen = { ℕ };

    ghost seen = { λ n. n.0 };

    fn same(&self, other: &Number) -> bool {
        self.0 == other.0
    }
}

// Values from that number on pass.
struct AtLeast(u32);

impl Test<Number> for AtLeast {
    ghost passes = { λ t v. nat_le t.0 v.0 };

    fn passes(&self, value: &Number) -> bool {
        self.0 <= value.0
    }
}

type Counted<'a> = IndexSlots<CountedKey<'a>, Number>;

// A table with these keys and ten times as much as values; None where one could not be put.
fn with_keys<'a>(
    alloc: Global,
    room: usize,
    keys: &[u32],
    comparisons: &'a Cell<u64>,
) -> Option<Counted<'a>> {
    let Ok(mut table) = IndexSlots::<CountedKey<'a>, Number>::new(alloc, room) else {
        return None;
    };
    for key in keys {
        let value = Number(key.wrapping_mul(10));
        if !is_put(&mut table, counted(*key, comparisons), value) {
            return None;
        }
    }
    Some(table)
}

// Whether tables are the same where they have the same slots and room, and one is as the other once it is swept.
fn is_swept_to_the_same(alloc: Global) -> Option<bool> {
    let comparisons = Cell::new(0);
    let mut one = with_keys(alloc, 8, &[4, 2, 9, 1], &comparisons)?;
    let other = with_keys(alloc, 8, &[4, 9], &comparisons)?;
    let is_right = !same_tables(&one, &other) && count_passing(&one, &AtLeast(30)) == 2;
    sweep(&mut one, &AtLeast(30));
    Some(is_right && same_tables(&one, &other))
}

// Whether empty tables are the same where they have the same room.
fn are_empty_ones_the_same(alloc: Global) -> Option<bool> {
    let comparisons = Cell::new(0);
    let empty = with_keys(alloc, 8, &[], &comparisons)?;
    let is_right = same_tables(&empty, &with_keys(alloc, 8, &[], &comparisons)?);
    Some(is_right && !same_tables(&empty, &with_keys(alloc, 9, &[], &comparisons)?))
}

#[test]
fn swept_and_compared(rt: HostRuntime) -> Result<(), Fail> {
    holds(
        matches!(are_empty_ones_the_same(rt.alloc()), Some(true)),
        "empty",
    )?;
    holds(
        matches!(is_swept_to_the_same(rt.alloc()), Some(true)),
        "swept",
    )
}

// Whether a table that is full with one slot has room once it is swept, up to the moment at which the slot began, and the slot goes.
fn is_swept_at_its_begin(alloc: Global) -> bool {
    let Ok(mut table) = IndexSlots::<u32, u64>::new(alloc, 1) else {
        return false;
    };
    if table.put(1, 5, 10).is_err() {
        return false;
    }
    let looks = Cell::new(0);
    if has_room_once_swept(&table, &from(11, &looks), 5) {
        return false;
    }
    if !has_room_once_swept(&table, &from(10, &looks), 5) {
        return false;
    }
    sweep_oldest(&mut table, &from(10, &looks), 5);
    table.len() == 0
}

#[test]
fn swept_from_the_oldest_on(rt: HostRuntime) -> Result<(), Fail> {
    holds(is_swept_at_its_begin(rt.alloc()), "one slot")
}
