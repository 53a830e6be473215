// Sets of addresses.
ghost use Rattle.std.specs.Prelude.{◌≡◌, IfOk, IsPermutation, filter, map};
ghost use Rattle.std.specs.List.Sorted.{IsNonDecreasingBy};
ghost use Rattle.address_sets.specs.Runs.{has_some, joined_with, joins, run_of, runs_joined, with_last};

use prefix_text::Prefix;
use std::alloc::{AllocError, Global};
use std::marker::Model;

/// The addresses from `first` to `last`, both included.
#[derive(Clone, Copy, Debug, PartialEq, Eq)]
pub struct Run {
    pub first: u32,
    pub last: u32,
}

/// The addresses of a block.
pub fn run_of(block: &Prefix) -> Run
    ensures { result ≡ run_of block.now }
{
    Run {
        first: block.first(),
        last: block.last(),
    }
}

fn runs_of(alloc: Global, blocks: &[Prefix]) -> Result<Vec<Run>, AllocError>
    ensures { IfOk result (λ v. v.items ≡ map run_of blocks.now) }
{
    let mut runs = Vec::with_capacity(alloc, blocks.len())?;
    for block in blocks {
        runs.push(run_of(block))?;
    }
    Ok(runs)
}

// Whether a later run begins in this one or right after it.
fn joins(run: Run, next: Run) -> bool
    ensures { result ≡ joins run next }
{
    u64::from(next.first) <= u64::from(run.last) + 1
}

fn with_last(run: Run, last: u32) -> Run
    ensures { result ≡ with_last run last }
{
    if run.last < last {
        Run { last, ..run }
    } else {
        run
    }
}

// The runs that ascend from an open one on, each joined with those that it meets.
fn joined_with(alloc: Global, first: Run, rest: &[Run]) -> Result<Vec<Run>, AllocError>
    ensures { IfOk result (λ v. v.items ≡ joined_with first rest.now) }
{
    let mut joined = Vec::new(alloc);
    let mut open = first;
    for run in rest {
        if joins(open, *run) {
            open = with_last(open, run.last);
        } else {
            joined.push(open)?;
            open = *run;
        }
    }
    joined.push(open)?;
    Ok(joined)
}

fn joined(alloc: Global, runs: &[Run]) -> Result<Vec<Run>, AllocError>
    ensures { IfOk result (λ v. v.items ≡ runs_joined runs.now) }
{
    match runs.split_first() {
        None => Ok(Vec::new(alloc)),
        Some((first, rest)) => joined_with(alloc, *first, rest),
    }
}

fn drop_empty(runs: &mut Vec<Run>)
    ensures { runs.new.items ≡ filter has_some runs.old.items }
{
    runs.retain(|run| run.first <= run.last);
}

fn sort(runs: &mut Vec<Run>)
    ensures same { IsPermutation runs.old.items runs.new.items }
    ensures sorted { IsNonDecreasingBy (λ r. r.first) runs.new.items }
{
    runs.sort_unstable_by_key(|run| run.first);
}

/// A set of addresses. Contracts see its runs: each has an address, and they ascend with gaps between.
pub struct AddressSet {
    runs: Vec<Run>,
}

impl Drop for AddressSet {
    fn drop(self) {
        let AddressSet { runs } = self;
        drop(runs);
    }
}

impl Model for AddressSet {
    ghost use Rattle.std.specs.Prelude.{List};
    ghost use Rattle.address_sets.specs.declared.sets.Run.{Run};
    ghost use Rattle.address_sets.specs.Runs.{AreRuns};

    ghost Value = { List Run };

    ghost view = { λ s. s.runs.items };

    ghost invariant = { λ s. AreRuns s.runs.items };
}

impl AddressSet {
    ghost use Rattle.std.specs.Prelude.{[], IfOk, IsTrue, ℕ};
    ghost use Rattle.std.specs.List.{list_any};
    ghost use Rattle.prefix_text.specs.Block.{holds};
    ghost use Rattle.address_sets.specs.Runs.{AreRuns, HaveBegun, IsStretch, is_in};

    /// No addresses.
    pub fn empty(alloc: Global) -> AddressSet
        ensures { result ≡ [] }
    {
        AddressSet {
            runs: Vec::new(alloc),
        }
    }

    /// Whether another set has the same addresses.
    pub fn is_same(&self, other: &AddressSet) -> bool
        ensures { IsTrue result → self.now ≡ other.now }
    {
        self.runs.as_slice() == other.runs.as_slice()
    }

    /// The addresses of some runs, in any order. A run whose last address is below its first has none. It
    /// takes time n log n.
    pub fn of(alloc: Global, mut runs: Vec<Run>) -> Result<AddressSet, AllocError>
        ensures { IfOk result (λ s. (a : ℕ) → is_in a s ≡ is_in a runs.items) }
    {
        drop_empty(&mut runs);
        sort(&mut runs);
        Ok(AddressSet {
            runs: joined(alloc, runs.as_slice())?,
        })
    }

    /// The addresses of some blocks, in any order.
    pub fn of_blocks(alloc: Global, blocks: &[Prefix]) -> Result<AddressSet, AllocError>
        ensures { IfOk result (λ s. (a : ℕ) → is_in a s ≡ list_any (holds a) blocks.now) }
    {
        AddressSet::of(alloc, runs_of(alloc, blocks)?)
    }

    /// The runs, in ascending order.
    pub fn runs(&self) -> &[Run]
        ensures same { result.now ≡ self.now }
        ensures apart { AreRuns result.now }
    {
        self.runs.as_slice()
    }

    // How many runs begin at the address or before it.
    fn begun(&self, address: u32) -> usize
        ensures { HaveBegun address self.now result }
    {
        self.runs.partition_point(|run| run.first <= address)
    }

    /// Whether the address is in the set. It reads about log2 n runs.
    pub fn has(&self, address: u32) -> bool
        ensures { result ≡ is_in address self.now }
    {
        let begun = self.begun(address);
        begun > 0 && address <= self.runs[begun - 1].last
    }

    /// How far the addresses from this one on are alike: the last of them, and whether the set has them.
    /// It reads about log2 n runs.
    pub fn stretch(&self, address: u32) -> (u32, bool)
        ensures { IsStretch self.now address result }
    {
        let begun = self.begun(address);
        if begun > 0 {
            let last = self.runs[begun - 1].last;
            if address <= last {
                return (last, true);
            }
        }
        if begun < self.runs.len() {
            (self.runs[begun].first - 1, false)
        } else {
            (u32::MAX, false)
        }
    }
}
