// Sets of numbers.
ghost use Rattle.std.specs.Prelude.{◌==◌, ◌≡◌, ◌≤◌, IsPermutation, IsTrue, ℕ};
ghost use Rattle.std.specs.List.{list_any};
ghost use Rattle.std.specs.List.Sorted.{IsNonDecreasing};
ghost use Rattle.number_tables.specs.Above.{AreAsFarAbove};

use std::marker::Model;

fn sort_numbers(numbers: &mut Vec<u64>)
    ensures same { IsPermutation numbers.old.items numbers.new.items }
    ensures sorted { IsNonDecreasing numbers.new.items }
{
    numbers.sort_unstable();
}

// Those of some numbers that are at most this one.
fn until(numbers: &[u64], last: u64) -> &[u64]
    requires { IsNonDecreasing numbers.now }
    ensures { (k : ℕ) → k ≤ last → list_any (λ n. n == k) result.now ≡ list_any (λ n. n == k) numbers.now }
{
    &numbers[..numbers.partition_point(|n| *n <= last)]
}

// Whether the numbers of one list are as far above a number as those of another are above another number.
fn are_as_far_above(first: u64, numbers: &[u64], other_first: u64, others: &[u64]) -> bool
    ensures { IsTrue result → AreAsFarAbove first numbers.now other_first others.now }
{
    if numbers.len() != others.len() {
        return false;
    }
    for k in 0..numbers.len() {
        // As far above: the sums are equal, and sums of 128 bits don't wrap.
        let one = u128::from(numbers[k]) + u128::from(other_first);
        if one != u128::from(others[k]) + u128::from(first) {
            return false;
        }
    }
    true
}

/// A set of numbers. Contracts see them in ascending order.
pub struct NumberSet {
    numbers: Vec<u64>,
}

impl Drop for NumberSet {
    fn drop(self) {
        let NumberSet { numbers } = self;
        drop(numbers);
    }
}

impl Model for NumberSet {
    ghost use Rattle.std.specs.Prelude.{List, ℕ};
    ghost use Rattle.std.specs.List.Sorted.{IsNonDecreasing};

    ghost Value = { List ℕ };

    ghost view = { λ s. s.numbers.items };

    ghost invariant = { λ s. IsNonDecreasing s.numbers.items };
}

impl NumberSet {
    ghost use Rattle.std.specs.Prelude.{◌==◌, ◌+◌, ◌<◌, ◌^◌, ◌≤◌, IsTrue, ℕ};
    ghost use Rattle.std.specs.List.{list_any};
    ghost use Rattle.std.specs.List.Sorted.{IsNonDecreasing};
    ghost use Rattle.number_tables.specs.Next.{IsNext};

    /// The set of some numbers, in any order. It takes time n log n and no memory.
    pub fn of(mut numbers: Vec<u64>) -> NumberSet
        ensures { (k : ℕ) → list_any (λ n. n == k) result ≡ list_any (λ n. n == k) numbers.items }
    {
        sort_numbers(&mut numbers);
        NumberSet { numbers }
    }

    // The numbers that are at least this one.
    fn from(&self, first: u64) -> &[u64]
        ensures same { (k : ℕ) → first ≤ k
            → list_any (λ n. n == k) result.now ≡ list_any (λ n. n == k) self.now }
        ensures ascend { IsNonDecreasing result.now }
    {
        let below = self.numbers.partition_point(|n| *n < first);
        &self.numbers[below..]
    }

    /// Whether another set has the same numbers from another one on, up to `most` more, as this one has from the first on. It
    /// compares these, and finds them by a search.
    pub fn is_same_above(&self, first: u64, other: &NumberSet, other_first: u64, most: u64) -> bool
        requires one { first + most < 2 ^ 64 }
        requires other { other_first + most < 2 ^ 64 }
        ensures { IsTrue result → (k : ℕ) → k ≤ most
            → list_any (λ n. n == first + k) self.now ≡ list_any (λ n. n == other_first + k) other.now }
    {
        let numbers = until(self.from(first), first + most);
        let others = until(other.from(other_first), other_first + most);
        are_as_far_above(first, numbers, other_first, others)
    }

    /// Whether the number is there. It reads about log2 n numbers.
    pub fn has(&self, number: u64) -> bool
        ensures { result ≡ list_any (λ n. n == number) self.now }
    {
        self.numbers.binary_search(&number).is_ok()
    }

    /// The least number there that is at least this one. It reads about log2 n numbers.
    pub fn next(&self, number: u64) -> Option<u64>
        ensures { IsNext self.now number result }
    {
        let next = self.numbers.partition_point(|n| *n < number);
        if next < self.numbers.len() {
            Some(self.numbers[next])
        } else {
            None
        }
    }
}
