// Tables of values by runs of keys.
ghost use Rattle.std.specs.Prelude.{◌≡◌, IsPermutation, filter};
ghost use Rattle.std.specs.List.Sorted.{IsNonDecreasingBy};
ghost use Rattle.number_tables.specs.Runs.{AreApart, has_some, value_of};

use std::marker::Model;

/// The value of the keys from `first` to `last`, both included.
#[derive(Clone, Copy, Drop)]
pub struct KeyRun<T> {
    pub first: u64,
    pub last: u64,
    pub value: T,
}

fn drop_empty<T: Drop>(runs: &mut Vec<KeyRun<T>>)
    ensures { runs.new.items ≡ filter has_some runs.old.items }
{
    runs.retain(|run| run.first <= run.last);
}

fn sort<T>(runs: &mut Vec<KeyRun<T>>)
    ensures same { IsPermutation runs.old.items runs.new.items }
    ensures sorted { IsNonDecreasingBy (λ r. r.last) runs.new.items }
{
    runs.sort_unstable_by_key(|run| run.last);
}

/// Values by runs of keys that lie apart. Contracts see the runs, in ascending order.
pub struct RunTable<T> {
    runs: Vec<KeyRun<T>>,
}

impl<T: Drop> Drop for RunTable<T> {
    fn drop(self) {
        let RunTable { runs } = self;
        drop(runs);
    }
}

impl<T> Model for RunTable<T> {
    ghost use Rattle.std.specs.Prelude.{List};
    ghost use Rattle.number_tables.specs.declared.runs.KeyRun.{KeyRun};
    ghost use Rattle.number_tables.specs.Runs.{AreRuns};

    ghost Value = { List (KeyRun T) };

    ghost view = { λ t. t.runs.items };

    ghost invariant = { λ t. AreRuns t.runs.items };
}

impl<T: Copy + Drop> RunTable<T> {
    ghost use Rattle.std.specs.Prelude.{Contains, ℕ};
    ghost use Rattle.number_tables.specs.declared.runs.KeyRun.{KeyRun};
    ghost use Rattle.number_tables.specs.Runs.{IsStretch};

    /// The table of some runs that have no key in common, in any order. A run whose last key is below its first has
    /// none. It takes time n log n and no memory.
    pub fn of(mut runs: Vec<KeyRun<T>>) -> RunTable<T>
        requires { AreApart runs.items }
        ensures values { (k : ℕ) → value_of k result ≡ value_of k runs.items }
        ensures runs { (r : KeyRun T) → Contains result r → Contains runs.items r }
    {
        drop_empty(&mut runs);
        sort(&mut runs);
        RunTable { runs }
    }

    /// The last key up to which all have the value of this key, or none has any as this one; and that value. It reads
    /// about log2 n runs.
    pub fn stretch(&self, key: u64) -> (u64, Option<T>)
        ensures { IsStretch self.now key result }
    {
        let below = self.runs.partition_point(|run| run.last < key);
        if below < self.runs.len() {
            let run = self.runs[below];
            if run.first <= key {
                return (run.last, Some(run.value));
            }
            return (run.first - 1, None);
        }
        (u64::MAX, None)
    }
}
