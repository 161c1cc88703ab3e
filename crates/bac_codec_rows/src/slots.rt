//! Rows of tables of slots: each line is a call of a table of each kind, with equal results.
//!
//! `room N` makes both tables. A call is `VERB KEY VALUE`, with a place for the key where the call takes one. `compared KEY ..` prints how many keys the plain
//! table has compared in all, and `chance COUNT` makes so many generated calls.
use crate::rows::{Stage, play_lines};
use bac_rows::row::{Row, decimal, number, number8, number32, place_of};
use bac_slots::{Count, IndexSlots, PlainSlots, SlotTable};

/// The calls of a table, or of a field of a slot that it gives by its place in order of keys or of putting. In generated calls each number from 13 on is `put`.
const CALLS: &str =
    "len find key-at begin-at value-at key-by-age begin-by-age value-by-age get set remove get-mut rank put";

/// A field of a slot, by the place of the call.
fn field(call: usize, slot: Option<(u32, u64, &u8)>) -> Option<u64> {
    match slot {
        Some((key, begin, value)) => Some(match call {
            2 | 5 => u64::from(key),
            3 | 6 => begin,
            _ => u64::from(*value),
        }),
        None => None,
    }
}

fn number_of(value: Option<u8>) -> Option<u64> {
    match value {
        Some(value) => Some(u64::from(value)),
        None => None,
    }
}

/// The value behind a loan, in place of which another is left.
fn replaced(value: Option<&mut u8>, other: u8) -> Option<u64> {
    match value {
        Some(value) => Some(u64::from(std::mem::replace(value, other))),
        None => None,
    }
}

fn place<S: SlotTable<u32, u8>>(table: &S, key: u32) -> Option<u64> {
    match table.find(&key, &mut Count { comparisons: 0 }) {
        Some(place) => Some(place as u64),
        None => None,
    }
}

/// The value, where it is handed back; a key that is there already is not put.
fn put<S: SlotTable<u32, u8>>(table: &mut S, key: u32, value: u8) -> Option<u64> {
    if table.get(&key).is_some() {
        return Some(u64::from(value));
    }
    match table.put(key, u64::from(value), value) {
        Ok(_) => None,
        Err(refused) => Some(u64::from(refused.1)),
    }
}

/// What a call answers, as a number: a place or `n` is the key.
fn called<S: SlotTable<u32, u8>>(table: &mut S, call: usize, key: u32, value: u8) -> Option<u64> {
    let n = key as usize;
    match call {
        0 => Some(table.len() as u64),
        1 => place(table, key),
        2 | 3 | 4 => field(call, table.at(n)),
        5 | 6 | 7 => field(call, table.by_age(n)),
        8 => number_of(table.get(&key).copied()),
        9 => number_of(table.set(&key, value)),
        10 => number_of(table.remove(&key)),
        11 => replaced(table.get_mut(&key), value),
        12 => Some(table.rank(&key) as u64),
        _ => put(table, key, value),
    }
}

/// A table of each kind.
#[derive(Drop)]
struct Tables {
    plain: PlainSlots<u32, u8>,
    index: IndexSlots<u32, u8>,
}

fn next(state: u64) -> u64 {
    state
        .wrapping_mul(6_364_136_223_846_793_005)
        .wrapping_add(1_442_695_040_888_963_407)
}

impl Tables {
    /// Calls both, and notes a fault where they answer otherwise.
    fn call(&mut self, call: usize, key: u32, value: u8, row: &mut Row) -> Option<u64> {
        let answer = called(&mut self.plain, call, key, value);
        row.needs(called(&mut self.index, call, key, value) == answer);
        answer
    }

    fn compared(&self, words: &str, row: &mut Row) {
        let mut count = Count { comparisons: 0 };
        for word in words.split(' ') {
            let key = (decimal(word) % 4_294_967_296) as u32;
            self.plain.find(&key, &mut count);
            row.tell("#\n", count.comparisons);
        }
    }

    /// A call by chance, and the state of chance after it.
    fn chance_call(&mut self, state: u64, row: &mut Row) -> u64 {
        let state = next(state);
        let call = ((state >> 33) % 18) as usize;
        let state = next(state);
        let key = ((state >> 33) % 48) as u32;
        self.call(call, key, (state >> 56) as u8, row);
        state
    }

    fn chance(&mut self, count: u64, row: &mut Row) {
        let mut state = 1;
        let mut is_full = false;
        for _ in 0..count {
            state = self.chance_call(state, row);
            is_full = is_full || self.plain.len() == self.plain.room();
        }
        row.tell_truth("full ", is_full);
    }

    fn answer(&mut self, verb: &str, words: &str, row: &mut Row) {
        let call = place_of(CALLS, verb);
        row.needs(call < 14);
        match self.call(call, number32(words, 0), number8(words, 1), row) {
            Some(answer) => row.tell("#\n", answer),
            None => row.say("none\n"),
        }
    }
}

impl Stage for Tables {
    fn hear(&mut self, verb: &str, words: &str, row: &mut Row) {
        match place_of("room compared chance", verb) {
            0 => row.tell_two(
                "room # #\n",
                self.plain.room() as u64,
                self.index.room() as u64,
            ),
            1 => self.compared(words, row),
            2 => self.chance(number(words, 0), row),
            _ => self.answer(verb, words, row),
        }
    }
}

/// Plays the lines of a row; the first one says the room of the tables.
pub(crate) fn play(lines: &str, row: &mut Row) {
    let room = number(lines.lines().next().unwrap_or(""), 1) as usize;
    let plain = PlainSlots::new(row.alloc, room);
    let index = IndexSlots::new(row.alloc, room);
    match (plain, index) {
        (Ok(plain), Ok(index)) => play_lines(&mut Tables { plain, index }, lines, row),
        _ => row.fail(),
    }
}
