//! Numbers in an order, in blocks: one is inserted or removed in its block alone.
ghost use Rattle.std.specs.Prelude.{◌≡◌, ◌-◌, ◌+◌, ◌*◌, ◌<◌, ◌≤◌, true, false, [], length, map, vec_capacity, Some, IfOk, slice_get};
ghost use Rattle.std.specs.List.{concat, insert, remove};
ghost use Rattle.bac_slots.specs.Indexes.{lowered, rank_at, AreJoinable, IsHeld, IsWithin};

use crate::block::{Block, EACH};
use crate::spot::Spot;
use std::alloc::{AllocError, Global};
use std::marker::Model;

/// So many numbers at least are in a block on average, where no two neighbours fit in one.
const LEAST: usize = 64;

/// What became of the blocks when a number was inserted.
#[derive(Clone, Copy)]
pub(crate) enum Change {
    /// They are the same blocks.
    Same,
    /// There is one more, behind that of the number.
    Opened,
    /// There is one more, and two neighbours became one.
    Joined,
}

/// Numbers in an order: those of the blocks. A full block is halved, and one that is empty leaves.
#[derive(Drop)]
pub(crate) struct Blocks {
    blocks: Vec<Block>,
    len: usize,
    room: usize,
}

impl Model for Blocks {
    ghost use Rattle.std.specs.Prelude.{◌≡◌, ℕ, ◌+◌, ◌*◌, ◌<◌, ◌≤◌, List, length, map, vec_capacity};
    ghost use Rattle.std.specs.List.{concat};

    ghost Value = { List ℕ × ℕ × List ℕ };

    ghost view = { λ b. (concat b.blocks.items, b.room, map length b.blocks.items) };

    ghost invariant = { λ b. (0 < length b.blocks.items) × (length b.blocks.items < vec_capacity b.blocks)
        × (b.len ≡ length (concat b.blocks.items)) × (b.room + 65 ≤ 64 * vec_capacity b.blocks) };
}

impl Blocks {
    /// No numbers, with room for so many of them. Returns an `Err` if the allocation fails.
    pub(crate) fn new(alloc: Global, room: usize) -> Result<Blocks, AllocError>
        ensures { IfOk result (λ b. (b.0 ≡ []) × (room ≤ b.1)) }
    {
        let mut blocks = Vec::with_capacity(alloc, room / LEAST + 2)?;
        blocks.push(Block::new())?;
        Ok(Blocks {
            blocks,
            len: 0,
            room,
        })
    }

    /// How many numbers there are.
    pub(crate) fn len(&self) -> usize
        ensures { result ≡ length self.now.0 }
    {
        self.len
    }

    /// How many blocks there are.
    pub(crate) fn count(&self) -> usize
        ensures { result ≡ length self.now.2 }
    {
        self.blocks.len()
    }

    /// How many blocks there can be.
    pub(crate) fn most(&self) -> usize {
        self.blocks.capacity()
    }

    /// The numbers of a block; none where there is no such block.
    pub(crate) fn of_block(&self, block: usize) -> &[u32]
        ensures { length result.now ≤ 128 }
    {
        match self.blocks.get(block) {
            Some(block) => {
                // no block has more
                let _len = block.len();
                block.as_slice()
            }
            None => &[],
        }
    }

    /// Whether there is a number at the spot.
    pub(crate) fn holds(&self, spot: Spot) -> bool
        ensures { result ≡ true → IsHeld self.now.2 spot.block spot.at }
    {
        match self.blocks.get(spot.block) {
            Some(block) => spot.at < block.len(),
            None => false,
        }
    }

    /// Whether the spot is that of a number, or the one behind the numbers of a block.
    pub(crate) fn has(&self, spot: Spot) -> bool
        ensures within { result ≡ true → IsWithin self.now.2 spot.block spot.at }
        ensures small { result ≡ true → rank_at self.now.2 spot.block spot.at ≤ length self.now.0 }
    {
        match self.blocks.get(spot.block) {
            Some(block) => spot.at <= block.len(),
            None => false,
        }
    }

    /// Whether the spot is behind all numbers.
    pub(crate) fn is_end(&self, spot: Spot) -> bool
        ensures { result ≡ true → rank_at self.now.2 spot.block spot.at ≡ length self.now.0 }
    {
        match self.blocks.get(spot.block) {
            Some(block) => spot.block + 1 == self.blocks.len() && spot.at == block.len(),
            None => false,
        }
    }

    /// The number at the spot.
    pub(crate) fn at(&self, spot: Spot) -> u32
        requires { IsHeld self.now.2 spot.block spot.at }
        ensures { slice_get self.now.0 (rank_at self.now.2 spot.block spot.at) ≡ Some result }
    {
        self.blocks[spot.block].at(spot.at)
    }

    /// The same place as the first of the next block, where the spot is behind the numbers of a block.
    pub(crate) fn next(&self, spot: Spot) -> Spot
        ensures { rank_at self.now.2 result.block result.at ≡ rank_at self.now.2 spot.block spot.at }
    {
        match self.blocks.get(spot.block) {
            Some(block) if spot.at == block.len() => Spot {
                block: spot.block + 1,
                at: 0,
            },
            _ => spot,
        }
    }

    /// The spot of the n-th number, from 0 on. It passes over the blocks before it.
    pub(crate) fn spot(&self, n: usize) -> Spot
        requires { n < length self.now.0 }
        ensures held { IsHeld self.now.2 result.block result.at }
        ensures rank { rank_at self.now.2 result.block result.at ≡ n }
    {
        let mut block = 0;
        let mut at = n;
        while at >= self.blocks[block].len() {
            at -= self.blocks[block].len();
            block += 1;
        }
        Spot { block, at }
    }

    /// The spot before the n-th number, or behind all numbers. It passes over the blocks before it.
    pub(crate) fn gap(&self, n: usize) -> Spot
        requires { n ≤ length self.now.0 }
        ensures within { IsWithin self.now.2 result.block result.at }
        ensures rank { rank_at self.now.2 result.block result.at ≡ n }
    {
        // there is a block
        let _len = self.len;
        if n == 0 {
            return Spot { block: 0, at: 0 };
        }
        let last = self.spot(n - 1);
        Spot {
            block: last.block,
            at: last.at + 1,
        }
    }

    /// How many numbers are before the spot. It passes over the blocks before it.
    pub(crate) fn rank(&self, spot: Spot) -> usize
        requires { IsWithin self.now.2 spot.block spot.at }
        ensures { result ≡ rank_at self.now.2 spot.block spot.at }
    {
        // no sum is greater
        let _len = self.len();
        let mut rank = spot.at;
        for n in 0..spot.block {
            rank += self.blocks[n].len();
        }
        rank
    }

    /// Inserts a number before the one at the spot.
    pub(crate) fn insert(&mut self, spot: Spot, number: u32) -> Change
        requires within { IsWithin self.old.2 spot.block spot.at }
        requires room { length self.old.0 < self.old.1 }
        ensures numbers { self.new.0 ≡ insert self.old.0 (rank_at self.old.2 spot.block spot.at) number }
        ensures room { self.old.1 ≤ self.new.1 }
    {
        let is_opened = enter(&mut self.blocks, spot, number);
        self.len += 1;
        leave_room(&mut self.blocks, is_opened)
    }

    /// Removes the number at the spot. Returns whether its block left.
    pub(crate) fn remove(&mut self, spot: Spot) -> bool
        requires { IsHeld self.old.2 spot.block spot.at }
        ensures numbers { self.new.0 ≡ remove self.old.0 (rank_at self.old.2 spot.block spot.at) }
        ensures room { self.old.1 ≤ self.new.1 }
    {
        self.blocks[spot.block].remove(spot.at);
        self.len -= 1;
        close(&mut self.blocks, spot.block)
    }

    /// Makes each number the place itself; places greater than `gone` become one less.
    pub(crate) fn settle(&mut self, first: u32, gone: usize)
        ensures numbers { self.new.0 ≡ map (λ n. lowered gone (n - first)) self.old.0 }
        ensures room { self.new.1 ≡ self.old.1 }
    {
        settle_blocks(&mut self.blocks, first, gone);
    }
}

/// A number enters before the one at the spot. Returns whether there is one block more.
fn enter(blocks: &mut Vec<Block>, spot: Spot, number: u32) -> bool
    requires within { IsWithin (map length blocks.old.items) spot.block spot.at }
    requires room { length blocks.old.items < vec_capacity blocks.old }
    ensures numbers { concat blocks.new.items ≡ insert (concat blocks.old.items) (rank_at (map length blocks.old.items) spot.block spot.at) number }
    ensures within { length blocks.new.items ≤ vec_capacity blocks.new }
    ensures some { 0 < length blocks.new.items }
    ensures same { result ≡ false → length blocks.new.items < vec_capacity blocks.new }
    ensures room { vec_capacity blocks.old ≤ vec_capacity blocks.new }
{
    match blocks[spot.block].enter(spot.at, number) {
        None => false,
        Some(more) => {
            put_behind(blocks, spot.block, more);
            true
        }
    }
}

/// Inserts a block behind the n-th, where there is room for it.
fn put_behind(blocks: &mut Vec<Block>, n: usize, block: Block)
    requires within { n < length blocks.old.items }
    requires room { length blocks.old.items < vec_capacity blocks.old }
    ensures blocks { blocks.new.items ≡ insert blocks.old.items (n + 1) block }
    ensures room { vec_capacity blocks.old ≤ vec_capacity blocks.new }
{
    match blocks.insert(n + 1, block) {
        Ok(()) => {}
        Err(_) => unreachable!(),
    }
}

/// Where there is no room for another block, two neighbours become one.
fn leave_room(blocks: &mut Vec<Block>, is_opened: bool) -> Change
    requires some { 0 < length blocks.old.items }
    requires within { length blocks.old.items ≤ vec_capacity blocks.old }
    requires same { is_opened ≡ false → length blocks.old.items < vec_capacity blocks.old }
    requires few { length (concat blocks.old.items) + 65 ≤ 64 * vec_capacity blocks.old }
    ensures same { concat blocks.new.items ≡ concat blocks.old.items }
    ensures some { 0 < length blocks.new.items }
    ensures fewer { length blocks.new.items < vec_capacity blocks.new }
    ensures room { vec_capacity blocks.new ≡ vec_capacity blocks.old }
{
    if !is_opened {
        return Change::Same;
    }
    if blocks.len() < blocks.capacity() {
        return Change::Opened;
    }
    join(blocks);
    Change::Joined
}

/// A block without numbers leaves, unless it is the only one. Returns whether it does.
fn close(blocks: &mut Vec<Block>, n: usize) -> bool
    requires { n < length blocks.old.items }
    ensures same { concat blocks.new.items ≡ concat blocks.old.items }
    ensures some { 0 < length blocks.new.items }
    ensures fewer { length blocks.new.items ≤ length blocks.old.items }
    ensures room { vec_capacity blocks.new ≡ vec_capacity blocks.old }
{
    if blocks[n].len() > 0 || blocks.len() == 1 {
        return false;
    }
    blocks.remove(n);
    true
}

/// Makes one block of two neighbours that fit in one.
fn join(blocks: &mut Vec<Block>)
    requires { length (concat blocks.old.items) + 64 < 64 * length blocks.old.items }
    ensures same { concat blocks.new.items ≡ concat blocks.old.items }
    ensures some { 0 < length blocks.new.items }
    ensures fewer { length blocks.new.items < length blocks.old.items }
    ensures room { vec_capacity blocks.new ≡ vec_capacity blocks.old }
{
    let n = joinable(blocks);
    let block = blocks.remove(n);
    blocks[n - 1].append(block.as_slice());
}

/// The first block that fits in one with the block before it. There is one where the numbers are so few.
fn joinable(blocks: &Vec<Block>) -> usize
    requires { length (concat blocks.now.items) + 64 < 64 * length blocks.now.items }
    ensures later { 0 < result }
    ensures within { result < length blocks.now.items }
    ensures fits { AreJoinable result blocks.now.items }
{
    for n in 1..blocks.len() {
        if blocks[n - 1].len() + blocks[n].len() <= EACH {
            return n;
        }
    }
    unreachable!()
}

/// Makes each number of the blocks the place itself; places greater than `gone` become one less.
fn settle_blocks(blocks: &mut Vec<Block>, first: u32, gone: usize)
    ensures blocks { blocks.new.items ≡ map (λ r. map (λ n. lowered gone (n - first)) r) blocks.old.items }
    ensures room { vec_capacity blocks.new ≡ vec_capacity blocks.old }
{
    for block in blocks.iter_mut() {
        block.settle(first, gone);
    }
}
