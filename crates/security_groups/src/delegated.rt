// The blocks that are delegated to interfaces, by the groups that these have.
ghost use Rattle.std.specs.Prelude.{◌≡◌, ◌∷◌, [], IfOk, OnOk, map};
ghost use Rattle.std.specs.List.{AllZip};
ghost use Rattle.security_groups.specs.Members.{AreMore, HasBlocksOf};

use address_sets::AddressSet;
use prefix_text::Prefix;
use std::alloc::{AllocError, Global};
use vpc_model::Group;

/// No blocks for each of some groups.
pub fn no_blocks(alloc: Global, groups: &[Group]) -> Result<Vec<Vec<Prefix>>, AllocError>
    ensures { IfOk result (λ v. map (λ b. b.items) v.items ≡ map (λ g. []) groups.now) }
{
    let mut blocks = Vec::with_capacity(alloc, groups.len())?;
    for _group in groups {
        blocks.push(Vec::new(alloc))?;
    }
    Ok(blocks)
}

// Adds blocks to those of a group, if it is described.
fn add_to(blocks: &mut Vec<Vec<Prefix>>, group: u32, more: &[Prefix]) -> Result<(), AllocError>
    ensures { OnOk result (AreMore (map (λ b. b.items) blocks.old.items)
        (map (λ b. b.items) blocks.new.items) (group ∷ []) more.now) }
{
    let group = group as usize;
    if group < blocks.len() {
        blocks[group].extend_from_slice(more)?;
    }
    Ok(())
}

/// Adds blocks to those of each of some groups.
pub fn add_to_each(
    blocks: &mut Vec<Vec<Prefix>>,
    groups: &[u32],
    more: &[Prefix],
) -> Result<(), AllocError>
    ensures { OnOk result (AreMore (map (λ b. b.items) blocks.old.items)
        (map (λ b. b.items) blocks.new.items) groups.now more.now) }
{
    for group in groups {
        add_to(blocks, *group, more)?;
    }
    Ok(())
}

/// The addresses of each group's blocks.
pub fn sets_of(alloc: Global, blocks: &[Vec<Prefix>]) -> Result<Vec<AddressSet>, AllocError>
    ensures { IfOk result (λ v. AllZip (λ b set. HasBlocksOf b.items set) blocks.now v.items) }
{
    let mut sets = Vec::with_capacity(alloc, blocks.len())?;
    for of_group in blocks {
        sets.push(AddressSet::of_blocks(alloc, of_group.as_slice())?)?;
    }
    Ok(sets)
}
