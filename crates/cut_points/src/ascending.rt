// Numbers in ascending order.
ghost use Rattle.std.specs.Prelude.{ℕ, ◌↔◌, Contains};
ghost use Rattle.std.specs.List.Sorted.{IsStrictlyIncreasing};

/// Numbers in ascending order, each once.
pub fn ascending(mut numbers: Vec<u32>) -> Vec<u32>
    ensures order { IsStrictlyIncreasing result.items }
    ensures members { (x : ℕ) → Contains result.items x ↔ Contains numbers.items x }
{
    numbers.sort_unstable();
    numbers.dedup();
    numbers
}
