// Numbers that are taken, in runs that lie apart.
ghost use Rattle.std.specs.Prelude.{◌≤◌, ℕ, OnOk};
ghost use Rattle.reference_check.specs.Claimed.{IsLeast};
ghost use Rattle.reference_check.specs.Taken.{IsNextRun, IsTaken, Takes};

use std::alloc::{AllocError, Global};
use std::collections::BTreeMap;
use std::marker::Model;

/// Numbers that are taken. Contracts see the runs, each as its last number and its first.
pub struct Taken {
    runs: BTreeMap<u64, u64>,
}

impl Drop for Taken {
    fn drop(self) {
        let Taken { runs } = self;
        drop(runs);
    }
}

impl Model for Taken {
    ghost use Rattle.std.specs.Prelude.{List, ℕ};
    ghost use Rattle.reference_check.specs.Taken.{LieApart};

    ghost Value = { List (ℕ × ℕ) };

    ghost view = { λ t. t.runs.entries };

    ghost invariant = { λ t. LieApart t.runs.entries };
}

impl Taken {
    ghost use Rattle.std.specs.Prelude.{◌≡◌, []};

    /// No numbers.
    pub fn new(alloc: Global) -> Taken
        ensures { result ≡ [] }
    {
        Taken {
            runs: BTreeMap::new(alloc),
        }
    }

    // The run that ends first among those that end at the number or after it, as its last number and its
    // first.
    fn next_run(&self, number: u64) -> Option<(u64, u64)>
        ensures { IsNextRun self.now number result }
    {
        match self.runs.range(number..).next() {
            Some((last, first)) => Some((*last, *first)),
            None => None,
        }
    }

    /// The least number that is taken among those from the first to the last. It takes time log n.
    pub fn least(&self, first: u64, last: u64) -> Option<u64>
        requires { first ≤ last }
        ensures { IsLeast (IsTaken self.now) first last result }
    {
        let _ = &self.runs;
        match self.next_run(first) {
            Some((_, begin)) => {
                if begin <= first {
                    Some(first)
                } else if begin <= last {
                    Some(begin)
                } else {
                    None
                }
            }
            None => None,
        }
    }

    /// Takes the numbers from the first to the last, of which none was taken. It takes time log n.
    pub fn take(&mut self, first: u64, last: u64) -> Result<(), AllocError>
        requires some { first ≤ last }
        requires free { (k : ℕ) → first ≤ k → k ≤ last → IsTaken self.old k → ⊥ }
        ensures { OnOk result (Takes self.old first last self.new) }
    {
        self.runs.insert(last, first)?;
        Ok(())
    }
}
