// Prefix lists by their numbers.
ghost use Rattle.std.specs.Prelude.{◌≡◌, IfOk, map};
ghost use Rattle.std.specs.List.{AllZip};
ghost use Rattle.security_groups.specs.Lists.{HasEntriesOf};

use crate::ids::IdNumbers;
use address_sets::AddressSet;
use reference_check::Network;
use std::alloc::{AllocError, Global};
use vpc_model::PrefixList;

/// The ids of the network's prefix lists, which differ, in the order of their rows.
pub fn numbers_of_lists(alloc: Global, n: &Network) -> Result<IdNumbers, AllocError>
    ensures { IfOk result (λ s. s ≡ map (λ l. l.id) n.now.lists) }
{
    let mut numbers = IdNumbers::none(alloc);
    for list in n.description().lists.as_slice() {
        numbers.add(alloc, &list.id)?;
    }
    Ok(numbers)
}

/// The addresses of each list's entries.
pub fn entries_of(alloc: Global, lists: &[PrefixList]) -> Result<Vec<AddressSet>, AllocError>
    ensures { IfOk result (λ v. AllZip HasEntriesOf lists.now v.items) }
{
    let mut entries = Vec::new(alloc);
    for list in lists {
        entries.push(AddressSet::of_blocks(alloc, list.entries.as_slice())?)?;
    }
    Ok(entries)
}
