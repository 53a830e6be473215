// What the described appliances forward.
ghost use Rattle.std.specs.Prelude.{◌≡◌, ◌<◌, Bool, IfOk, filter, length, map, ℕ};
ghost use Rattle.appliances.specs.Passing.{kind_passes_at};
ghost use Rattle.vpc_model.specs.Appliances.{appliances_of, is_at_interface};

use appliances::{Decide, Deciders, appliances_of};
use reference_check::Network;
use std::alloc::Global;
use vpc_base::NoMemory;

/// The described appliances, with a closure that decides by their kinds.
pub fn deciders_of(alloc: Global, n: &Network, decide: Decide) -> Result<Deciders, NoMemory>
    requires callable { (k : ℕ) (h : _) → k < length (appliances_of n.now) → Decide.pre decide k h }
    requires answers { (k : ℕ) (h : _) (r : Bool) → k < length (appliances_of n.now)
        → Decide.post decide k h r
        → r ≡ kind_passes_at (map (λ a. a.kind) (filter (λ a. is_at_interface a.at) n.now.appliances)) k h.now }
    ensures { IfOk result (λ d. d.appliances ≡ appliances_of n.now) }
{
    let rows = appliances_of(alloc, n)?;
    Deciders::of(alloc, rows, decide)
}
