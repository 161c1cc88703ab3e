//! Places of slots in an order; each is kept as a number.
ghost use Rattle.std.specs.Prelude.{◌≡◌, ℕ, ◌^◌, ◌<◌, ◌≤◌, true, [], length, map, Some, IfOk, slice_get};
ghost use Rattle.std.specs.List.{insert, remove};
ghost use Rattle.bac_slots.specs.Indexes.{lowered, rank_at, Avoids, IsHeld, IsWithin};

use crate::blocks::{Blocks, Change};
use crate::filling::position;
use crate::spot::Spot;
use std::alloc::{AllocError, Global};
use std::marker::Model;

/// The greatest number of places, and how often the first one is removed without passing over the others: 2^31.
pub(crate) const MOST_PLACES: u32 = 2_147_483_648;

/// Places of slots, with a capacity, in blocks. Each place is kept as a number that is greater by how often the first place was removed.
#[derive(Drop)]
pub(crate) struct Places {
    numbers: Blocks,
    gone: u32,
}

impl Model for Places {
    ghost use Rattle.std.specs.Prelude.{◌≡◌, ℕ, ◌^◌, ◌≤◌, List, map};
    ghost use Rattle.bac_slots.specs.Indexes.{places_of, AllFrom};

    ghost Value = { List ℕ × ℕ × List ℕ };

    ghost view = { λ p. (places_of p.gone p.numbers.0, p.numbers.1, p.numbers.2) };

    ghost invariant = { λ p. (p.gone ≤ 2 ^ 31) × AllFrom p.gone p.numbers.0 };
}

impl Places {
    /// No places, with room for `capacity` of them. Returns an `Err` if the allocation fails.
    pub(crate) fn new(alloc: Global, room: usize) -> Result<Self, AllocError>
        ensures { IfOk result (λ p. (p.0 ≡ []) × (room ≤ p.1)) }
    {
        Ok(Places {
            numbers: Blocks::new(alloc, room)?,
            gone: 0,
        })
    }

    /// How many places there are.
    pub(crate) fn len(&self) -> usize
        ensures { result ≡ length self.now.0 }
    {
        self.numbers.len()
    }

    /// How many blocks there are.
    pub(crate) fn blocks(&self) -> usize
        ensures { result ≡ length self.now.2 }
    {
        self.numbers.count()
    }

    /// How many blocks there can be.
    pub(crate) fn most_blocks(&self) -> usize {
        self.numbers.most()
    }

    /// The numbers of a block; none where there is no such block.
    pub(crate) fn numbers_of(&self, block: usize) -> &[u32]
        ensures { length result.now ≤ 128 }
    {
        self.numbers.of_block(block)
    }

    /// The place that a number stands for.
    pub(crate) fn place_of(&self, number: u32) -> usize {
        number.saturating_sub(self.gone) as usize
    }

    /// Where the first place of all is in a block, or None where another block has it.
    pub(crate) fn first_in(&self, block: usize) -> Option<usize> {
        position(self.numbers.of_block(block), self.gone)
    }

    /// Whether there is a place at the spot.
    pub(crate) fn holds(&self, spot: Spot) -> bool
        ensures { result ≡ true → IsHeld self.now.2 spot.block spot.at }
    {
        self.numbers.holds(spot)
    }

    /// Whether the spot is that of a place, or the one behind the places of a block.
    pub(crate) fn has(&self, spot: Spot) -> bool
        ensures within { result ≡ true → IsWithin self.now.2 spot.block spot.at }
        ensures small { result ≡ true → rank_at self.now.2 spot.block spot.at ≤ length self.now.0 }
    {
        self.numbers.has(spot)
    }

    /// Whether the spot is behind all places.
    pub(crate) fn is_end(&self, spot: Spot) -> bool
        ensures { result ≡ true → rank_at self.now.2 spot.block spot.at ≡ length self.now.0 }
    {
        self.numbers.is_end(spot)
    }

    /// The place at the spot.
    pub(crate) fn at_spot(&self, spot: Spot) -> usize
        requires { IsHeld self.now.2 spot.block spot.at }
        ensures { slice_get self.now.0 (rank_at self.now.2 spot.block spot.at) ≡ Some result }
    {
        (self.numbers.at(spot) - self.gone) as usize
    }

    /// The same as the first spot of the next block, where the spot is behind the places of a block.
    pub(crate) fn next(&self, spot: Spot) -> Spot
        ensures { rank_at self.now.2 result.block result.at ≡ rank_at self.now.2 spot.block spot.at }
    {
        self.numbers.next(spot)
    }

    /// The spot of the n-th place, from 0 on. It passes over the blocks before it.
    pub(crate) fn spot(&self, n: usize) -> Spot
        requires { n < length self.now.0 }
        ensures held { IsHeld self.now.2 result.block result.at }
        ensures rank { rank_at self.now.2 result.block result.at ≡ n }
    {
        self.numbers.spot(n)
    }

    /// The spot before the n-th place, or behind all places. It passes over the blocks before it.
    pub(crate) fn gap(&self, n: usize) -> Spot
        requires { n ≤ length self.now.0 }
        ensures within { IsWithin self.now.2 result.block result.at }
        ensures rank { rank_at self.now.2 result.block result.at ≡ n }
    {
        self.numbers.gap(n)
    }

    /// How many places are before the spot. It passes over the blocks before it.
    pub(crate) fn rank(&self, spot: Spot) -> usize
        requires { IsWithin self.now.2 spot.block spot.at }
        ensures { result ≡ rank_at self.now.2 spot.block spot.at }
    {
        self.numbers.rank(spot)
    }

    /// The n-th place, from 0 on. It passes over the blocks before it.
    pub(crate) fn at(&self, n: usize) -> usize
        requires { n < length self.now.0 }
        ensures { slice_get self.now.0 n ≡ Some result }
    {
        self.at_spot(self.spot(n))
    }

    /// Inserts a place before the one at the spot.
    pub(crate) fn insert(&mut self, spot: Spot, place: usize) -> Change
        requires within { IsWithin self.old.2 spot.block spot.at }
        requires room { length self.old.0 < self.old.1 }
        requires small { place < 2 ^ 31 }
        ensures places { self.new.0 ≡ insert self.old.0 (rank_at self.old.2 spot.block spot.at) place }
        ensures room { self.old.1 ≤ self.new.1 }
    {
        self.numbers.insert(spot, place as u32 + self.gone)
    }

    /// Removes the place at the spot, which differs from all others; places greater than it become one less. Returns whether a block left.
    pub(crate) fn take(&mut self, spot: Spot, place: usize) -> bool
        requires held { IsHeld self.old.2 spot.block spot.at }
        requires once { Avoids place (remove self.old.0 (rank_at self.old.2 spot.block spot.at)) }
        ensures places { self.new.0 ≡ map (lowered place) (remove self.old.0 (rank_at self.old.2 spot.block spot.at)) }
        ensures room { self.old.1 ≤ self.new.1 }
    {
        let is_closed = self.numbers.remove(spot);
        if place == 0 && self.gone < MOST_PLACES {
            self.gone += 1;
            is_closed
        } else {
            self.numbers.settle(self.gone, place);
            self.gone = 0;
            is_closed
        }
    }
}
