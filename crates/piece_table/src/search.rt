// The search for the piece that holds an address.
ghost use Rattle.std.specs.Prelude.{◌≡◌, ◌≤◌, ◌-◌, ◌*◌, ◌^◌, length};

use crate::{Pieces, Steps};
use std::sync::ledger::Ledger;

impl Pieces {
    ghost use Rattle.piece_table.specs.Pieces.{ArePieces, first_at, last_at, told_at};

    /// The first and the last address of the piece that holds an address, and what the piece tells. It
    /// reads at most 2 + log2(count) pieces.
    pub fn find<L: Ledger>(&self, x: u32, steps: &mut Steps<L>) -> (u32, u32, Option<u32>)
        ensures first { result.0 ≡ first_at self.now x }
        ensures last { result.1 ≡ last_at self.now x }
        ensures told { result.2 ≡ told_at self.now x }
        ensures from { result.0 ≤ x }
        ensures upto { x ≤ result.1 }
        ensures later { steps.old ≤ steps.new }
        ensures few { 2 ^ (steps.new - steps.old) ≤ 4 * length self.now.firsts }
        ensures pieces { ArePieces self.now }
    {
        // No read is spent on the last address: the latest read that begins after x is the next piece.
        let mut high = self.count();
        let mut last = u32::MAX;
        let mut low = 0;
        let (mut first, mut told) = self.at(0, steps);
        while high - low > 1 {
            let middle = low + (high - low) / 2;
            let (begin, tells) = self.at(middle as u32, steps);
            if begin <= x {
                low = middle;
                first = begin;
                told = tells;
            } else {
                high = middle;
                last = begin - 1;
            }
        }
        (first, last, told)
    }
}
