// Tables of values by their keys.
ghost use Rattle.std.specs.Prelude.{◌≡◌, OnOk};
ghost use Rattle.std.specs.List.Sorted.{IsNonDecreasingBy, IsStableByKey};
ghost use Rattle.std.specs.Ordering.{nat_cmp};
ghost use Rattle.number_tables.specs.Entries.{value_at};

use std::alloc::AllocError;
use std::marker::Model;

/// A value with its key.
#[derive(Clone, Copy, Drop)]
pub struct Entry<T> {
    pub key: u64,
    pub value: T,
}

// Entries of one key stay in the order in which they stand.
fn sort<T>(entries: &mut Vec<Entry<T>>) -> Result<(), AllocError>
    ensures sorted { OnOk result (IsNonDecreasingBy (λ e. e.key) entries.new.items) }
    ensures stable { IsStableByKey (λ e. e.key) nat_cmp entries.old.items entries.new.items }
{
    entries.sort_by_key(|entry| entry.key)?;
    Ok(())
}

/// Values by their keys. Contracts see its entries, in ascending order of the keys.
pub struct NumberTable<T> {
    entries: Vec<Entry<T>>,
}

impl<T: Drop> Drop for NumberTable<T> {
    fn drop(self) {
        let NumberTable { entries } = self;
        drop(entries);
    }
}

impl<T> Model for NumberTable<T> {
    ghost use Rattle.std.specs.Prelude.{List};
    ghost use Rattle.std.specs.List.Sorted.{IsNonDecreasingBy};
    ghost use Rattle.number_tables.specs.declared.tables.Entry.{Entry};

    ghost Value = { List (Entry T) };

    ghost view = { λ t. t.entries.items };

    ghost invariant = { λ t. IsNonDecreasingBy (λ e. e.key) t.entries.items };
}

impl<T: Copy + Drop> NumberTable<T> {
    ghost use Rattle.std.specs.Prelude.{IfOk, map, ℕ};
    ghost use Rattle.number_tables.specs.Next.{IsNext};

    /// The table of some entries, in any order; of those with one key the first counts. It takes time
    /// n log n.
    pub fn of(mut entries: Vec<Entry<T>>) -> Result<NumberTable<T>, AllocError>
        ensures { IfOk result (λ t. (k : ℕ) → value_at k t ≡ value_at k entries.items) }
    {
        sort(&mut entries)?;
        Ok(NumberTable { entries })
    }

    /// The value of a key. It reads about log2 n entries.
    pub fn get(&self, key: u64) -> Option<T>
        ensures { result ≡ value_at key self.now }
    {
        let below = self.entries.partition_point(|entry| entry.key < key);
        if below < self.entries.len() {
            let entry = self.entries[below];
            if entry.key == key {
                return Some(entry.value);
            }
        }
        None
    }

    /// The least key there that is at least this one. It reads about log2 n entries.
    pub fn next_key(&self, key: u64) -> Option<u64>
        ensures { IsNext (map (λ e. e.key) self.now) key result }
    {
        let next = self.entries.partition_point(|entry| entry.key < key);
        if next < self.entries.len() {
            Some(self.entries[next].key)
        } else {
            None
        }
    }
}
