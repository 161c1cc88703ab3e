//! Up to 128 numbers in an order.
ghost use Rattle.std.specs.Prelude.{◌≡◌, ◌-◌, ◌+◌, ◌<◌, ◌≤◌, [], ◌++◌, length, map, Some, MatchOption, slice_get};
ghost use Rattle.std.specs.List.{insert, remove};
ghost use Rattle.bac_slots.specs.Indexes.{lowered};

use crate::filling::{exchange, settle};
use std::marker::Model;

/// How many numbers a block can have.
pub(crate) const EACH: usize = 128;

/// Where a full block is halved.
const HALF: usize = 64;

/// Numbers in an order, in the first cells.
#[derive(Drop)]
pub(crate) struct Block {
    cells: [u32; EACH],
    len: usize,
}

impl Model for Block {
    ghost use Rattle.std.specs.Prelude.{◌≡◌, ℕ, ◌≤◌, List, length, take};

    ghost Value = { List ℕ };

    ghost view = { λ b. take b.len b.cells };

    ghost invariant = { λ b. (length b.cells ≡ 128) × (b.len ≤ 128) };
}

impl Block {
    /// No numbers.
    pub(crate) fn new() -> Block
        ensures { result ≡ [] }
    {
        Block {
            cells: [0; EACH],
            len: 0,
        }
    }

    /// How many numbers there are.
    pub(crate) fn len(&self) -> usize
        ensures number { result ≡ length self.now }
        ensures few { result ≤ 128 }
    {
        self.len
    }

    /// The numbers.
    pub(crate) fn as_slice(&self) -> &[u32]
        ensures { result.now ≡ self.now }
    {
        &self.cells[..self.len]
    }

    /// The n-th number, from 0 on.
    pub(crate) fn at(&self, n: usize) -> u32
        requires { n < length self.now }
        ensures { slice_get self.now n ≡ Some result }
    {
        self.as_slice()[n]
    }

    /// Inserts a number before the n-th.
    fn insert(&mut self, n: usize, number: u32)
        requires within { n ≤ length self.old }
        requires room { length self.old < 128 }
        ensures { self.new ≡ insert self.old n number }
    {
        exchange(&mut self.cells, self.len, n, number);
        self.len += 1;
    }

    /// The numbers from the n-th on leave, and make a block of their own.
    fn split(&mut self, n: usize) -> Block
        requires { n ≤ length self.old }
        ensures same { self.new ++ result ≡ self.old }
        ensures many { length self.new ≡ n }
    {
        let mut more = Block::new();
        more.append(&self.cells[n..self.len]);
        self.len = n;
        more
    }

    /// Adds numbers at the end.
    pub(crate) fn append(&mut self, numbers: &[u32])
        requires { length self.old + length numbers.now ≤ 128 }
        ensures { self.new ≡ self.old ++ numbers.now }
    {
        let end = self.len + numbers.len();
        self.cells[self.len..end].copy_from_slice(numbers);
        self.len = end;
    }

    /// Inserts a number before the n-th. Where there is no room for it, the numbers of the upper half leave as another block; so do none but the new one where
    /// that is the last, so that numbers that come in order fill their blocks.
    pub(crate) fn enter(&mut self, n: usize, number: u32) -> Option<Block>
        requires { n ≤ length self.old }
        ensures { MatchOption result (self.new ≡ insert self.old n number) (λ more. self.new ++ more ≡ insert self.old n number) }
    {
        if self.len < EACH {
            self.insert(n, number);
            return None;
        }
        let keep = if n < EACH { HALF } else { EACH };
        let mut more = self.split(keep);
        if n < keep {
            self.insert(n, number);
        } else {
            more.insert(n - keep, number);
        }
        Some(more)
    }

    /// Removes the n-th number.
    pub(crate) fn remove(&mut self, n: usize)
        requires { n < length self.old }
        ensures { self.new ≡ remove self.old n }
    {
        let last = self.len - 1;
        exchange(&mut self.cells, n, last, 0);
        self.len = last;
    }

    /// Makes each number the place itself; places greater than `gone` become one less.
    pub(crate) fn settle(&mut self, first: u32, gone: usize)
        ensures { self.new ≡ map (λ n. lowered gone (n - first)) self.old }
    {
        settle(&mut self.cells, first, gone);
    }
}
