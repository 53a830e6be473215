// Sets of numbers, in the order in which they were added.
ghost use Rattle.std.specs.Prelude.{◌≡◌, ◌++◌, ◌∷◌, ◌<◌, ◌==◌, [], if◌then◌else◌, IfOk, IfSome, length, not, position};
ghost use Rattle.std.specs.List.{list_any};

use indexmap::IndexSet;
use std::alloc::{AllocError, Global};
use std::marker::Model;

/// Numbers that differ, in the order in which they were added. Contracts see their list.
pub struct Numbers {
    set: IndexSet<u64>,
}

impl Drop for Numbers {
    fn drop(self) {
        let Numbers { set } = self;
        drop(set);
    }
}

impl Model for Numbers {
    ghost use Rattle.std.specs.Prelude.{List, ℕ};

    ghost Value = { List ℕ };

    ghost view = { λ s. s.set.keys };
}

impl Numbers {
    pub fn new(alloc: Global) -> Numbers
        ensures { result ≡ [] }
    {
        Numbers {
            set: IndexSet::new(alloc),
        }
    }

    /// Where the number stands, from 0.
    pub fn place(&self, number: u64) -> Option<usize>
        ensures number { result ≡ position (λ n. n == number) self.now }
        ensures within { IfSome result (λ k. k < length self.now) }
    {
        self.set.get_index_of(&number)
    }

    /// Adds a number at the end where it is new, and tells whether it is.
    pub fn add(&mut self, number: u64) -> Result<bool, AllocError>
        ensures fresh { IfOk result (λ b. b ≡ not (list_any (λ n. number == n) self.old)) }
        ensures added { IfOk result (λ b. self.new ≡ (if b then self.old ++ number ∷ [] else self.old)) }
    {
        Ok(self.set.insert(number)?)
    }
}
