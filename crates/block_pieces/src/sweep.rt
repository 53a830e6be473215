// A walk over the addresses from 0 on, which knows of each what the blocks around it tell.
ghost use Rattle.std.specs.Prelude.{◌≡◌, ◌≤◌, ◌<◌, [], ℕ, length, option_map, take, IfOk, OnOk};
ghost use Rattle.block_pieces.specs.Told.{told_by};
ghost use Rattle.block_pieces.specs.Sweep.{AreInOrder, HasOpened, IsSwept, Reaches, StartsAfter, better_of, ends_before, open_best, order_of, top_best};

use crate::BlockRow;
use std::alloc::{AllocError, Global};

/// What a block tells, and its rank among others.
#[derive(Clone, Copy)]
pub struct Tells {
    pub rank: u64,
    pub row: u32,
}

/// A block that the walk came into: its last address, and the best of what it and the blocks around it
/// tell.
#[derive(Clone, Copy)]
pub struct Open {
    pub last: u32,
    pub best: Tells,
}

/// How far a walk came.
pub struct Sweep {
    /// The address.
    pub at: u32,
    /// How many rows begin before or at it.
    pub next: usize,
    /// The blocks around the address, each within the one before it.
    pub around: Vec<Open>,
}

impl Drop for Sweep {
    fn drop(self) {
        let Sweep {
            at: _,
            next: _,
            around,
        } = self;
        drop(around);
    }
}

/// By the first address, and blocks that begin together by their lengths. So a block comes after those
/// around it. One number serves, as a length is below 64: a sort compares it at once.
pub fn order_of(row: &BlockRow) -> u64
    ensures { result ≡ order_of row.now.block }
{
    u64::from(row.block.first()) * 64 + u64::from(row.block.length())
}

// What counts where two blocks hold an address.
fn better_of(before: Option<Tells>, after: Tells) -> Tells
    ensures { result ≡ better_of before after }
{
    match before {
        Some(other) => {
            if after.rank < other.rank || (after.rank == other.rank && after.row < other.row) {
                after
            } else {
                other
            }
        }
        None => after,
    }
}

fn top_best(around: &[Open]) -> Option<Tells>
    ensures { result ≡ top_best around.now }
{
    around.last().map(|o| o.best)
}

fn ends_before(around: &[Open], at: u32) -> bool
    ensures { result ≡ ends_before around.now at }
{
    around.last().is_some_and(|o| o.last < at)
}

fn row_of(best: Option<Tells>) -> Option<u32>
    ensures { result ≡ option_map (λ t. t.row) best }
{
    best.map(|t| t.row)
}

// Leaves the blocks that end before an address. Those around them end later.
fn leave_before(around: &mut Vec<Open>, at: u32)
    ensures told { (b : ℕ) → at ≤ b → open_best around.new.items b ≡ open_best around.old.items b }
    ensures part { (n : ℕ) × (around.new.items ≡ take n around.old.items) }
    ensures reach { Reaches at around.new.items }
{
    while ends_before(around, at) {
        around.pop();
    }
}

impl Sweep {
    /// Nothing walked yet.
    pub fn new(alloc: Global) -> Sweep
        ensures at { result.at ≡ 0 }
        ensures next { result.next ≡ 0 }
        ensures around { result.around.items ≡ [] }
    {
        Sweep {
            at: 0,
            next: 0,
            around: Vec::new(alloc),
        }
    }

    // Comes to the next row's block.
    fn enter_next(&mut self, rows: &[BlockRow]) -> Result<(), AllocError>
        requires order { AreInOrder rows.now }
        requires more { self.old.next < length rows.now }
        requires swept { IsSwept rows.now self.old }
        ensures { OnOk result (HasOpened rows.now self.old self.new) }
    {
        let row = &rows[self.next];
        let first = row.block.first();
        leave_before(&mut self.around, first);
        let own = Tells {
            rank: row.rank,
            row: row.row,
        };
        let best = better_of(top_best(&self.around), own);
        let last = row.block.last();
        self.around.push(Open { last, best })?;
        self.at = first;
        self.next += 1;
        Ok(())
    }

    // Comes to the blocks that begin up to an address.
    fn enter_until(&mut self, rows: &[BlockRow], at: u32) -> Result<(), AllocError>
        requires order { AreInOrder rows.now }
        requires from { self.old.at ≤ at }
        requires swept { IsSwept rows.now self.old }
        ensures swept { OnOk result (IsSwept rows.now self.new) }
        ensures upto { OnOk result (self.new.at ≤ at) }
        ensures all { OnOk result (StartsAfter rows.now self.new.next at) }
    {
        while self.next < rows.len() && rows[self.next].block.first() <= at {
            self.enter_next(rows)?;
        }
        Ok(())
    }

    /// Walks on to an address: what is told of it.
    pub fn told_at(&mut self, rows: &[BlockRow], at: u32) -> Result<Option<u32>, AllocError>
        requires order { AreInOrder rows.now }
        requires from { self.old.at ≤ at }
        requires swept { IsSwept rows.now self.old }
        ensures told { IfOk result (λ t. t ≡ told_by rows.now at) }
        ensures swept { OnOk result (IsSwept rows.now self.new) }
        ensures at { OnOk result (self.new.at ≡ at) }
    {
        self.enter_until(rows, at)?;
        leave_before(&mut self.around, at);
        self.at = at;
        Ok(row_of(top_best(&self.around)))
    }
}
