// Numbers without repeats.
ghost use Rattle.std.specs.Prelude.{◌≡◌, ◌++◌, ◌∷◌, ◌==◌, [], if◌then◌else◌, IfOk, OnOk, not};
ghost use Rattle.std.specs.List.{list_any};
ghost use Rattle.security_groups.specs.Once.{once};

use indexmap::IndexSet;
use std::alloc::{AllocError, Global};
use std::marker::Model;

// Numbers that were seen so far, in order.
struct Seen {
    numbers: IndexSet<u32>,
}

impl Drop for Seen {
    fn drop(self) {
        let Seen { numbers } = self;
        drop(numbers);
    }
}

impl Model for Seen {
    ghost use Rattle.std.specs.Prelude.{List, ℕ};

    ghost Value = { List ℕ };

    ghost view = { λ s. s.numbers.keys };
}

impl Seen {
    fn none(alloc: Global) -> Seen
        ensures { result ≡ [] }
    {
        Seen {
            numbers: IndexSet::new(alloc),
        }
    }

    // Adds a number where it is new, and tells whether it is.
    fn add(&mut self, number: u32) -> Result<bool, AllocError>
        ensures fresh { IfOk result (λ b. b ≡ not (list_any (λ k. number == k) self.old)) }
        ensures added { OnOk result (self.new
            ≡ (if list_any (λ k. number == k) self.old then self.old else self.old ++ number ∷ [])) }
    {
        Ok(self.numbers.insert(number)?)
    }
}

// Keeps a number where it is new.
fn keep_new(seen: &mut Seen, kept: &mut Vec<u32>, number: u32) -> Result<(), AllocError>
    requires same { seen.old ≡ kept.old.items }
    ensures same { OnOk result (seen.new ≡ kept.new.items) }
    ensures kept { OnOk result (kept.new.items ≡ (if list_any (λ k. number == k) kept.old.items
        then kept.old.items else kept.old.items ++ number ∷ [])) }
{
    if seen.add(number)? {
        kept.push(number)?;
    }
    Ok(())
}

/// The numbers in their order, each where it stands first. Naming one many times costs no more than naming
/// it once.
pub fn once(alloc: Global, numbers: &[u32]) -> Result<Vec<u32>, AllocError>
    ensures { IfOk result (λ v. v.items ≡ once numbers.now) }
{
    let mut seen = Seen::none(alloc);
    let mut kept = Vec::new(alloc);
    for number in numbers {
        keep_new(&mut seen, &mut kept, *number)?;
    }
    Ok(kept)
}
