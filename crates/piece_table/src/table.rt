// The pieces. Their lists are private to this file, so the search can read a piece by `at` alone.
ghost use Rattle.std.specs.Prelude.{◌≡◌, ◌<◌, ◌≤◌, ◌+◌, ◌^◌, length, slice_index};
ghost use Rattle.std.specs.List.Sorted.{IsStrictlyIncreasing};

use crate::Steps;
use std::marker::Model;
use std::sync::ledger::Ledger;

/// Pieces of the addresses from 0 to 2^32 - 1. Each begins at its first address, reaches up to the next
/// piece, and tells one value of all its addresses.
pub struct Pieces {
    firsts: Vec<u32>,
    told: Vec<Option<u32>>,
}

impl Drop for Pieces {
    fn drop(self) {
        let Pieces { firsts, told } = self;
        drop(firsts);
        drop(told);
    }
}

impl Model for Pieces {
    ghost use Rattle.piece_table.specs.Pieces.{PieceLists, ArePieces};

    ghost Value = { PieceLists };

    ghost view = { λ p. record { firsts = p.firsts.items; told = p.told.items } };

    ghost invariant = { λ p. ArePieces (record { firsts = p.firsts.items; told = p.told.items }) };
}

impl Pieces {
    ghost use Rattle.piece_table.specs.Pieces.{ArePieces, first_of, told_of};

    /// The pieces that begin at these addresses and tell these values.
    pub fn of(firsts: Vec<u32>, told: Vec<Option<u32>>) -> Pieces
        requires paired { length told.items ≡ length firsts.items }
        requires some { 0 < length firsts.items }
        requires zero { slice_index firsts.items 0 ≡ 0 }
        requires ascending { IsStrictlyIncreasing firsts.items }
        ensures { result ≡ record { firsts = firsts.items; told = told.items } }
    {
        Pieces { firsts, told }
    }

    /// How many pieces there are. It reads none.
    pub fn count(&self) -> u64
        ensures count { result ≡ length self.now.firsts }
        ensures fits { result ≤ 2 ^ 32 }
        ensures pieces { ArePieces self.now }
    {
        self.firsts.len() as u64
    }

    /// The first address of a piece, and what the piece tells.
    pub fn at<L: Ledger>(&self, k: u32, steps: &mut Steps<L>) -> (u32, Option<u32>)
        requires { k < length self.now.firsts }
        ensures first { result.0 ≡ first_of self.now k }
        ensures told { result.1 ≡ told_of self.now k }
        ensures step { steps.new ≡ steps.old + 1 }
    {
        steps.tick();
        (self.firsts[k as usize], self.told[k as usize])
    }
}
