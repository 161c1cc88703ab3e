//! How many keys a search compares.
use super::counted_key::{CountedKey, counted};
use super::*;
use std::cell::Cell;

/// The calls that find a key.
#[derive(Clone, Copy)]
enum Call {
    Rank,
    Get,
    GetMut,
    Set,
    Remove,
}

type Counted<'a> = IndexSlots<CountedKey<'a>, u8>;

// All keys below a number, put in a scattered order.
fn scattered<'a>(alloc: Global, keys: u32, comparisons: &'a Cell<u64>) -> Option<Counted<'a>> {
    let Ok(mut table) = IndexSlots::<CountedKey<'a>, u8>::new(alloc, keys as usize) else {
        return None;
    };
    for n in 0..keys {
        if !is_put(
            &mut table,
            counted(n.wrapping_mul(389) % keys, comparisons),
            0u8,
        ) {
            return None;
        }
    }
    Some(table)
}

// Whether a key is found where it is with so many comparisons at most, all of which are counted.
fn is_found_by<'a>(
    table: &Counted<'a>,
    number: u32,
    comparisons: &'a Cell<u64>,
    most: u64,
) -> bool {
    let mut count = Count { comparisons: 0 };
    comparisons.set(0);
    let found = table.find(&counted(number, comparisons), &mut count) == Some(number as usize);
    found && comparisons.get() <= count.comparisons && count.comparisons <= most
}

// The same for all keys below a number; keys above are not there, with as few comparisons.
fn are_found_by(alloc: Global, keys: u32, most: u64) -> bool {
    let comparisons = Cell::new(0);
    let Some(table) = scattered(alloc, keys, &comparisons) else {
        return false;
    };
    for number in 0..keys {
        if !is_found_by(&table, number, &comparisons, most) {
            return false;
        }
    }
    let mut count = Count { comparisons: 0 };
    let above = table.find(&counted(keys, &comparisons), &mut count);
    above.is_none() && count.comparisons <= most
}

// 1,024 has 11 binary digits, 1,023 has 10, and 0 none.
#[test]
fn an_index_counts_every_comparison(rt: HostRuntime) -> Result<(), Fail> {
    holds(are_found_by(rt.alloc(), 1_024, 11), "1,024")?;
    holds(are_found_by(rt.alloc(), 1_023, 10), "1,023")?;
    holds(are_found_by(rt.alloc(), 0, 0), "none")
}

// How many keys a call compares that finds its key.
fn compared<'a>(
    table: &mut Counted<'a>,
    call: Call,
    number: u32,
    comparisons: &'a Cell<u64>,
) -> Option<u64> {
    let key = counted(number, comparisons);
    comparisons.set(0);
    let is_found = match call {
        Call::Rank => table.rank(&key) == number as usize,
        Call::Get => table.get(&key).is_some(),
        Call::GetMut => table.get_mut(&key).is_some(),
        Call::Set => table.set(&key, 1).is_some(),
        Call::Remove => table.remove(&key).is_some(),
    };
    if is_found {
        Some(comparisons.get())
    } else {
        None
    }
}

// Whether a call finds each of 1,024 keys, and compares so many at most.
fn compares_few(alloc: Global, call: Call, most: u64) -> bool {
    let comparisons = Cell::new(0);
    let Some(mut table) = scattered(alloc, 1_024, &comparisons) else {
        return false;
    };
    for number in 0..1_024u32 {
        match compared(&mut table, call, number, &comparisons) {
            Some(many) if many <= most => {}
            _ => return false,
        }
    }
    true
}

// The calls that find a key, and how many keys each compares at the most.
const FINDING: &[(&str, Call, u64)] = &[
    ("rank", Call::Rank, 12),
    ("get", Call::Get, 14),
    ("get_mut", Call::GetMut, 14),
    ("set", Call::Set, 13),
    ("remove", Call::Remove, 13),
];

// A call that finds its key compares few more keys than a search does, also one that takes the slot out: copies of the first keys of blocks say where to look,
// and the key that is found there is compared again. set and remove try the oldest slot of a block first, get and get_mut the key that was looked up last.
#[test]
fn each_call_of_an_index_compares_few(rt: HostRuntime) -> Result<(), Fail> {
    for (name, call, most) in FINDING {
        holds(compares_few(rt.alloc(), *call, *most), name)?;
    }
    Ok(())
}

// How many keys are compared where a slot is put.
fn compared_by_put<'a>(
    table: &mut Counted<'a>,
    number: u32,
    value: u8,
    comparisons: &'a Cell<u64>,
) -> Option<u64> {
    let key = counted(number, comparisons);
    if table.get(&key).is_some() {
        return None;
    }
    comparisons.set(0);
    match table.put(key, 0, value) {
        Ok(()) => Some(comparisons.get()),
        Err(_) => None,
    }
}

// The same where its key was taken out.
fn compared_once_taken_out<'a>(
    table: &mut Counted<'a>,
    number: u32,
    comparisons: &'a Cell<u64>,
) -> Option<u64> {
    let value = table.remove(&counted(number, comparisons))?;
    compared_by_put(table, number, value, comparisons)
}

// The same where a loan at its key was asked for since, and the slot beside it left then.
fn compared_once_asked_for<'a>(
    table: &mut Counted<'a>,
    number: u32,
    comparisons: &'a Cell<u64>,
) -> Option<u64> {
    let value = table.remove(&counted(number, comparisons))?;
    if table.get_mut(&counted(number, comparisons)).is_some() {
        return None;
    }
    let beside = table.remove(&counted(number ^ 1, comparisons))?;
    let many = compared_by_put(table, number, value, comparisons)?;
    compared_by_put(table, number ^ 1, beside, comparisons)?;
    Some(many)
}

// Whether a slot is put among 1,023 others with so many comparisons at most, for each of 1,024 keys.
fn puts_by_few(alloc: Global, is_asked_for: bool, most: u64) -> bool {
    let comparisons = Cell::new(0);
    let Some(mut table) = scattered(alloc, 1_024, &comparisons) else {
        return false;
    };
    for number in 0..1_024u32 {
        let many = if is_asked_for {
            compared_once_asked_for(&mut table, number, &comparisons)
        } else {
            compared_once_taken_out(&mut table, number, &comparisons)
        };
        match many {
            Some(many) if many <= most => {}
            _ => return false,
        }
    }
    true
}

// A key at which a loan was asked for in vain is put beside its neighbours. Any other needs a search, and up to three comparisons before it.
#[test]
fn a_slot_is_put_with_few_comparisons(rt: HostRuntime) -> Result<(), Fail> {
    holds(puts_by_few(rt.alloc(), false, 14), "taken out")?;
    holds(puts_by_few(rt.alloc(), true, 3), "asked for")
}

// Whether a key is found in a plain table where it is, and all comparisons are counted.
fn is_found_in<'a>(
    table: &PlainSlots<CountedKey<'a>, u8>,
    number: u32,
    comparisons: &'a Cell<u64>,
) -> bool {
    let mut count = Count { comparisons: 0 };
    comparisons.set(0);
    let found = table.find(&counted(number, comparisons), &mut count) == Some(number as usize);
    found && comparisons.get() <= count.comparisons
}

// Whether that is so of all keys below 64, put in a scattered order.
fn are_found_in_a_plain_table(alloc: Global) -> Result<bool, Fail> {
    let comparisons = Cell::new(0);
    let mut table = PlainSlots::<CountedKey, u8>::new(alloc, 64)?;
    let mut is_right = true;
    for n in 0..64u32 {
        is_right = is_right && is_put(&mut table, counted(n * 37 % 64, &comparisons), 0u8);
    }
    for number in 0..64u32 {
        is_right = is_right && is_found_in(&table, number, &comparisons);
    }
    Ok(is_right)
}

#[test]
fn a_plain_table_counts_every_comparison(rt: HostRuntime) -> Result<(), Fail> {
    holds(are_found_in_a_plain_table(rt.alloc())?, "a plain table")
}
