//! A table with an index that is sorted by key.
ghost use Rattle.std.specs.Prelude.{◌≡◌, ◌≢◌, true, ℕ, ◌+◌, ◌<◌, ◌≤◌, List, length, Some, None, MatchOption, IfSome, Ok, Err, slice_get, min};
ghost use Rattle.bac_slots.specs.Slots.{rank, value_at, in_order, digits, IsDistinct};
ghost use Rattle.bac_slots.specs.Indexes.{bare, keyed, rank_at, AllAbove, AllBelow, IsHeld, IsIndex, IsSearched, IsSeen, IsWithin};

use crate::blocks::Change;
use crate::guide::Guide;
use crate::places::{MOST_PLACES, Places};
use crate::slot_table::{Count, SlotTable};
use crate::spot::Spot;
use std::alloc::{AllocError, Global};
use std::cmp::Ordering;
use std::collections::VecDeque;
use std::marker::Model;

/// The moment at which a transaction began (in milliseconds), and its value: a slot without its key.
#[derive(Drop)]
struct Entry<T> {
    begin: u64,
    value: T,
}

/// A table whose slots are in order of insertion, with an index of their places that is sorted by key. Look-ups are binary searches.
#[derive(Drop)]
pub struct IndexSlots<K: Ord, T> {
    /// The keys of the slots, close together in memory: look-ups read only them.
    keys: VecDeque<K>,
    /// The rest of the slots, in the same order.
    entries: VecDeque<Entry<T>>,
    places: Places,
    /// Where look-ups begin.
    guide: Guide<K>,
    capacity: usize,
    /// Where in the index the key is that was looked up last by `seek` or `get_mut`, or was put last, or where it would be: the next look-ups try it first.
    near: Spot,
}

impl<K: Ord, T> Model for IndexSlots<K, T> {
    ghost use Rattle.std.specs.Prelude.{◌≡◌, ℕ, ◌^◌, ◌≤◌, List, length};
    ghost use Rattle.std.specs.VecDeque.{deque_capacity};
    ghost use Rattle.bac_slots.specs.declared.slot.Slot.{Slot};
    ghost use Rattle.bac_slots.specs.Slots.{IsDistinct};
    ghost use Rattle.bac_slots.specs.Indexes.{joined, keyed, IsIndex};

    ghost Value = { List (Slot K T) × ℕ };

    ghost view = { λ t. (joined t.keys.items t.entries.items, t.capacity) };

    ghost invariant = { λ t. (t.capacity ≤ deque_capacity t.keys) × (t.capacity ≤ t.places.1) × (length t.keys.items ≤ t.capacity)
        × IsDistinct K.eq (keyed t.keys.items) × IsIndex K.cmp t.places.0 (keyed t.keys.items) × (t.capacity ≤ 2 ^ 31)
        × (t.capacity ≤ deque_capacity t.entries) × (length t.keys.items ≡ length t.entries.items) };
}

impl<K: Ord + Copy + Drop, T: Drop> SlotTable<K, T> for IndexSlots<K, T> {
    ghost slots = { λ t. t.0 };

    ghost capacity = { λ t. t.1 };

    /// The greatest number of slots, 2^31. A request for more fails like an allocation.
    fn new(alloc: Global, room: usize) -> Result<Self, AllocError> {
        if room > MOST_PLACES as usize {
            return Err(AllocError);
        }
        let keys = VecDeque::with_capacity(alloc, room)?;
        let entries = VecDeque::with_capacity(alloc, room)?;
        let places = Places::new(alloc, room)?;
        let guide = Guide::new(alloc, places.most_blocks())?;
        Ok(IndexSlots {
            keys,
            entries,
            places,
            guide,
            capacity: room,
            near: Spot { block: 0, at: 0 },
        })
    }

    fn len(&self) -> usize {
        self.keys.len()
    }

    fn room(&self) -> usize {
        self.capacity
    }

    /// Adds at most as many comparisons as the number of slots has binary digits.
    fn find(&self, key: &K, count: &mut Count) -> Option<usize>
        ensures counted { count.old.comparisons ≤ count.new.comparisons }
        ensures place { MatchOption result (value_at K.eq key.now self.now.0 ≡ None)
            (λ n. (value_at K.eq key.now self.now.0 ≢ None) × (n ≡ rank K.cmp key.now self.now.0)) }
        ensures few { count.new.comparisons ≤ count.old.comparisons + digits (length self.now.0) }
    {
        match search(&self.keys, &self.places, key, count) {
            Ok(found) => Some(found.rank),
            Err(_) => None,
        }
    }

    fn rank(&self, key: &K) -> usize {
        match locate(&self.keys, &self.places, &self.guide, key) {
            Ok(seen) => self.places.rank(seen.spot),
            Err(spot) => self.places.rank(spot),
        }
    }

    fn at(&self, n: usize) -> Option<(K, u64, &T)> {
        if n >= self.places.len() {
            return None;
        }
        self.by_age(self.places.at(n))
    }

    fn by_age(&self, n: usize) -> Option<(K, u64, &T)> {
        let key = self.keys.get(n)?;
        let entry = self.entries.get(n)?;
        Some((*key, entry.begin, &entry.value))
    }

    fn seek(&mut self, key: &K) {
        self.near = spot_near(&self.keys, &self.places, &self.guide, self.near, key);
    }

    /// A key that was looked up last by `seek` or `get_mut`, or was put last, is compared once or twice.
    fn get(&self, key: &K) -> Option<&T> {
        match search_near(&self.keys, &self.places, &self.guide, self.near, key) {
            Ok(seen) => Some(&self.entries[seen.place].value),
            Err(_) => None,
        }
    }

    fn get_mut(&mut self, key: &K) -> Option<&mut T> {
        match search_near(&self.keys, &self.places, &self.guide, self.near, key) {
            Ok(seen) => {
                self.near = seen.spot;
                Some(&mut self.entries[seen.place].value)
            }
            Err(spot) => {
                self.near = spot;
                None
            }
        }
    }

    fn put(&mut self, key: K, begin: u64, value: T) -> Result<(), (K, T)> {
        let len = self.keys.len();
        if len >= self.capacity {
            return Err((key, value));
        }
        let spot = spot_near(&self.keys, &self.places, &self.guide, self.near, &key);
        let change = self.places.insert(spot, len);
        self.keys.push_back_reserved(key);
        self.entries.push_back_reserved(Entry { begin, value });
        self.near = spot;
        guide_in(&mut self.guide, &self.keys, &self.places, spot, change);
        Ok(())
    }

    fn set(&mut self, key: &K, value: T) -> Option<T> {
        let Some(seen) = look_up(&self.keys, &self.places, &self.guide, key) else {
            return None;
        };
        let entry = &mut self.entries[seen.place];
        Some(std::mem::replace(&mut entry.value, value))
    }

    fn remove(&mut self, key: &K) -> Option<T> {
        let Some(seen) = look_up(&self.keys, &self.places, &self.guide, key) else {
            return None;
        };
        let is_closed = self.places.take(seen.spot, seen.place);
        self.keys.remove(seen.place);
        match self.entries.remove(seen.place) {
            Some(entry) => {
                self.near = left(&self.places, self.near, seen.spot, is_closed);
                guide_out(
                    &mut self.guide,
                    &self.keys,
                    &self.places,
                    seen.spot,
                    is_closed,
                );
                Some(entry.value)
            }
            None => unreachable!(),
        }
    }
}

/// The place of a key: in key order, and in order of insertion.
#[derive(Clone, Copy)]
struct Found {
    rank: usize,
    place: usize,
}

/// The n-th key in key order.
fn nth<'a, K: Ord>(keys: &'a VecDeque<K>, places: &Places, n: usize) -> &'a K
    requires distinct { IsDistinct K.eq (keyed keys.now.items) }
    requires index { IsIndex K.cmp places.now.0 (keyed keys.now.items) }
    requires within { n < length places.now.0 }
    ensures { slice_get (in_order K.cmp (keyed keys.now.items)) n ≡ Some (bare result.now) }
{
    &keys[places.at(n)]
}

/// Where a key is in the index, and its place in order of insertion.
#[derive(Clone, Copy)]
struct Seen {
    spot: Spot,
    place: usize,
}

/// The key of the slot at a spot.
fn key_at<'a, K: Ord>(keys: &'a VecDeque<K>, places: &Places, spot: Spot) -> &'a K
    requires distinct { IsDistinct K.eq (keyed keys.now.items) }
    requires index { IsIndex K.cmp places.now.0 (keyed keys.now.items) }
    requires held { IsHeld places.now.2 spot.block spot.at }
    ensures { slice_get (in_order K.cmp (keyed keys.now.items)) (rank_at places.now.2 spot.block spot.at) ≡ Some (bare result.now) }
{
    &keys[places.at_spot(spot)]
}

/// Compares two keys and counts the comparison.
fn compare<K: Ord>(one: &K, other: &K, count: &mut Count) -> Ordering
    ensures value { result ≡ K.cmp one.now other.now }
    ensures counted { count.new.comparisons ≡ min (count.old.comparisons + 1) u64.MAX }
{
    count.add(1);
    one.cmp(other)
}

/// Halves the part of the index in which the key can be, until the key is found or the part is empty.
fn search<K: Ord>(
    keys: &VecDeque<K>,
    places: &Places,
    key: &K,
    count: &mut Count,
) -> Result<Found, usize>
    requires distinct { IsDistinct K.eq (keyed keys.now.items) }
    requires index { IsIndex K.cmp places.now.0 (keyed keys.now.items) }
    ensures place { IsSearched K.eq K.cmp key.now (keyed keys.now.items) result }
    ensures counted { count.old.comparisons ≤ count.new.comparisons }
    ensures few { count.new.comparisons ≤ count.old.comparisons + digits (length keys.now.items) }
{
    let mut first = 0;
    let mut end = places.len();
    while first < end {
        let middle = first + (end - first) / 2;
        match compare(nth(keys, places, middle), key, count) {
            Ordering::Less => first = middle + 1,
            Ordering::Equal => {
                return Ok(Found {
                    rank: middle,
                    place: places.at(middle),
                });
            }
            Ordering::Greater => end = middle,
        }
    }
    Err(first)
}

/// Whether all keys before this spot are less; the last of them decides. A spot that is the first of a later block is not tested.
fn is_above<K: Ord>(keys: &VecDeque<K>, places: &Places, spot: Spot, key: &K) -> bool
    requires distinct { IsDistinct K.eq (keyed keys.now.items) }
    requires index { IsIndex K.cmp places.now.0 (keyed keys.now.items) }
    requires within { IsWithin places.now.2 spot.block spot.at }
    ensures { result ≡ true → AllBelow K.cmp key.now (rank_at places.now.2 spot.block spot.at) (in_order K.cmp (keyed keys.now.items)) }
{
    if spot.at == 0 {
        return spot.block == 0;
    }
    let last = Spot {
        block: spot.block,
        at: spot.at - 1,
    };
    match key_at(keys, places, last).cmp(key) {
        Ordering::Less => true,
        _ => false,
    }
}

/// Whether the key is at this spot, or would be; None where it is elsewhere, or that is not known. The slots on both sides decide.
fn look_at<K: Ord>(
    keys: &VecDeque<K>,
    places: &Places,
    spot: Spot,
    key: &K,
) -> Option<Result<Seen, Spot>>
    requires distinct { IsDistinct K.eq (keyed keys.now.items) }
    requires index { IsIndex K.cmp places.now.0 (keyed keys.now.items) }
    ensures { IfSome result (λ r. IsSeen K.eq K.cmp key.now (keyed keys.now.items) places.now.2 r) }
{
    if !places.has(spot) {
        return None;
    }
    let next = places.next(spot);
    if !places.holds(next) {
        return gap_at_end(keys, places, spot, key);
    }
    match key_at(keys, places, next).cmp(key) {
        Ordering::Less => None,
        Ordering::Equal => Some(Ok(Seen {
            spot: next,
            place: places.at_spot(next),
        })),
        Ordering::Greater => {
            if is_above(keys, places, spot, key) {
                Some(Err(spot))
            } else {
                None
            }
        }
    }
}

/// Whether the key would be at this spot, behind all others; None where that is not known.
fn gap_at_end<K: Ord>(
    keys: &VecDeque<K>,
    places: &Places,
    spot: Spot,
    key: &K,
) -> Option<Result<Seen, Spot>>
    requires distinct { IsDistinct K.eq (keyed keys.now.items) }
    requires index { IsIndex K.cmp places.now.0 (keyed keys.now.items) }
    requires within { IsWithin places.now.2 spot.block spot.at }
    ensures { IfSome result (λ r. IsSeen K.eq K.cmp key.now (keyed keys.now.items) places.now.2 r) }
{
    if !places.is_end(spot) {
        return None;
    }
    if !is_above(keys, places, spot, key) {
        return None;
    }
    Some(Err(spot))
}

/// Whether the key of the slot at a place in order of insertion is less than a key.
fn is_before<K: Ord>(keys: &VecDeque<K>, place: usize, key: &K) -> bool {
    match keys.get(place) {
        Some(other) => match other.cmp(key) {
            Ordering::Less => true,
            _ => false,
        },
        None => false,
    }
}

/// Where a key is or would be in a block, if it is one of its keys or between them: halves the part of the block in which it can be. Comparisons are counted.
fn place_in<K: Ord>(
    keys: &VecDeque<K>,
    places: &Places,
    block: usize,
    key: &K,
    compared: &mut Count,
) -> Spot
    ensures { compared.new.comparisons ≤ compared.old.comparisons + 8 }
{
    let numbers = places.numbers_of(block);
    let mut first = 0;
    let mut count = numbers.len();
    while count > 0 {
        let half = count / 2;
        let middle = first + half;
        compared.add(1);
        let is_less = is_before(keys, places.place_of(numbers[middle]), key);
        first = if is_less { middle + 1 } else { first };
        count = if is_less { count - half - 1 } else { half };
    }
    Spot { block, at: first }
}

/// Looks for a key in the whole index.
fn search_all<K: Ord>(keys: &VecDeque<K>, places: &Places, key: &K) -> Result<Seen, Spot>
    requires distinct { IsDistinct K.eq (keyed keys.now.items) }
    requires index { IsIndex K.cmp places.now.0 (keyed keys.now.items) }
    ensures { IsSeen K.eq K.cmp key.now (keyed keys.now.items) places.now.2 result }
{
    let mut count = Count { comparisons: 0 };
    match search(keys, places, key, &mut count) {
        Ok(found) => Ok(Seen {
            spot: places.spot(found.rank),
            place: found.place,
        }),
        Err(n) => Err(places.gap(n)),
    }
}

/// Looks for a key, first where the guide says.
fn locate<K: Ord>(
    keys: &VecDeque<K>,
    places: &Places,
    guide: &Guide<K>,
    key: &K,
) -> Result<Seen, Spot>
    requires distinct { IsDistinct K.eq (keyed keys.now.items) }
    requires index { IsIndex K.cmp places.now.0 (keyed keys.now.items) }
    ensures { IsSeen K.eq K.cmp key.now (keyed keys.now.items) places.now.2 result }
{
    let mut compared = Count { comparisons: 0 };
    let block = guide.block_of(key, &mut compared);
    let spot = place_in(keys, places, block, key, &mut compared);
    match look_at(keys, places, spot, key) {
        Some(result) => result,
        None => search_all(keys, places, key),
    }
}

/// Looks for a key, first near a spot.
fn search_near<K: Ord>(
    keys: &VecDeque<K>,
    places: &Places,
    guide: &Guide<K>,
    near: Spot,
    key: &K,
) -> Result<Seen, Spot>
    requires distinct { IsDistinct K.eq (keyed keys.now.items) }
    requires index { IsIndex K.cmp places.now.0 (keyed keys.now.items) }
    ensures { IsSeen K.eq K.cmp key.now (keyed keys.now.items) places.now.2 result }
{
    match look_at(keys, places, near, key) {
        Some(result) => result,
        None => locate(keys, places, guide, key),
    }
}

/// Where a key is or would be; a spot is tried first.
fn spot_near<K: Ord>(
    keys: &VecDeque<K>,
    places: &Places,
    guide: &Guide<K>,
    near: Spot,
    key: &K,
) -> Spot
    requires distinct { IsDistinct K.eq (keyed keys.now.items) }
    requires index { IsIndex K.cmp places.now.0 (keyed keys.now.items) }
    ensures within { IsWithin places.now.2 result.block result.at }
    ensures rank { rank_at places.now.2 result.block result.at ≡ rank K.cmp key.now (keyed keys.now.items) }
{
    match search_near(keys, places, guide, near, key) {
        Ok(seen) => seen.spot,
        Err(spot) => spot,
    }
}

/// Where the key is, or None if it is absent. The oldest slot is looked for by its place, where no other key is compared.
fn look_up<K: Ord>(keys: &VecDeque<K>, places: &Places, guide: &Guide<K>, key: &K) -> Option<Seen>
    requires distinct { IsDistinct K.eq (keyed keys.now.items) }
    requires index { IsIndex K.cmp places.now.0 (keyed keys.now.items) }
    ensures { MatchOption result (value_at K.eq key.now (keyed keys.now.items) ≡ None)
        (λ seen. IsSeen K.eq K.cmp key.now (keyed keys.now.items) places.now.2 (Ok seen)) }
{
    let mut compared = Count { comparisons: 0 };
    let block = guide.block_of(key, &mut compared);
    if let Some(at) = places.first_in(block) {
        if let Some(Ok(seen)) = look_at(keys, places, Spot { block, at }, key) {
            return Some(seen);
        }
    }
    let near = place_in(keys, places, block, key, &mut compared);
    match search_near(keys, places, guide, near, key) {
        Ok(seen) => Some(seen),
        Err(_) => None,
    }
}

/// A spot after a place at another spot was removed, and its block with it if that had no other. It stays behind the place that it was behind.
fn left(places: &Places, spot: Spot, gone: Spot, is_closed: bool) -> Spot {
    let mut block = spot.block;
    let mut at = spot.at;
    if is_closed && gone.block < block {
        block -= 1;
    } else if gone.block == block && gone.at < at {
        at -= 1;
    }
    if at > 0 || block == 0 {
        return Spot { block, at };
    }
    Spot {
        block: block - 1,
        at: places.numbers_of(block - 1).len(),
    }
}

/// The first key of a block.
fn first_key<K: Ord + Copy>(keys: &VecDeque<K>, places: &Places, block: usize) -> Option<K> {
    let number = places.numbers_of(block).get(0)?;
    let key = keys.get(places.place_of(*number))?;
    Some(*key)
}

/// Tells the guide the first key of a block.
fn guide_to<K: Ord + Copy + Drop>(
    guide: &mut Guide<K>,
    keys: &VecDeque<K>,
    places: &Places,
    block: usize,
) {
    if let Some(first) = first_key(keys, places, block) {
        guide.set(block, first);
    }
}

/// Tells the guide that a slot came.
fn guide_in<K: Ord + Copy + Drop>(
    guide: &mut Guide<K>,
    keys: &VecDeque<K>,
    places: &Places,
    spot: Spot,
    change: Change,
) {
    match change {
        Change::Same => {}
        Change::Opened => {
            let next = spot.block.saturating_add(1);
            if let Some(first) = first_key(keys, places, next) {
                guide.open(next, first);
            }
        }
        Change::Joined => {
            guide.clear();
            for block in 0..places.blocks() {
                guide_to(guide, keys, places, block);
            }
        }
    }
    if spot.at == 0 {
        guide_to(guide, keys, places, spot.block);
    }
}

/// Tells the guide that a slot left, and whether its block did.
fn guide_out<K: Ord + Copy + Drop>(
    guide: &mut Guide<K>,
    keys: &VecDeque<K>,
    places: &Places,
    spot: Spot,
    is_closed: bool,
) {
    if is_closed {
        guide.close(spot.block);
    } else if spot.at == 0 {
        guide_to(guide, keys, places, spot.block);
    }
}
