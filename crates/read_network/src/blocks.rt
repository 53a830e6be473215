// Blocks of addresses, each once.
ghost use Rattle.std.specs.Prelude.{◌≡◌, ◌++◌, ◌∷◌, [], IfOk, OnOk};
ghost use Rattle.read_network.specs.Vpcs.{each_once};

use indexmap::IndexSet;
use prefix_text::Prefix;
use std::alloc::{AllocError, Global};
use std::marker::Model;

/// Blocks that were seen so far, by their first address and their length.
struct SeenBlocks {
    blocks: IndexSet<(u32, u8)>,
}

impl Drop for SeenBlocks {
    fn drop(self) {
        let SeenBlocks { blocks } = self;
        drop(blocks);
    }
}

impl Model for SeenBlocks {
    ghost use Rattle.std.specs.Prelude.{List, map};
    ghost use Rattle.prefix_text.specs.Block.{Block};

    ghost Value = { List Block };

    ghost view = { λ s. map (λ k. record { first = k.0; length = k.1 }) s.blocks.keys };
}

impl SeenBlocks {
    ghost use Rattle.std.specs.Prelude.{not, if◌then◌else◌};
    ghost use Rattle.std.specs.List.{list_any};
    ghost use Rattle.read_network.specs.Vpcs.{same_block};

    fn new(alloc: Global) -> SeenBlocks
        ensures { result ≡ [] }
    {
        SeenBlocks {
            blocks: IndexSet::new(alloc),
        }
    }

    /// Whether the block wasn't seen before. From now on it was.
    fn is_new(&mut self, block: &Prefix) -> Result<bool, AllocError>
        ensures fresh { IfOk result (λ b. b ≡ not (list_any (same_block block.now) self.old)) }
        ensures added { IfOk result (λ b. self.new ≡ (if b then self.old ++ block.now ∷ [] else self.old)) }
    {
        Ok(self.blocks.insert((block.first(), block.length()))?)
    }
}

// What memory refuses is dropped.
fn keep(kept: &mut Vec<Prefix>, block: Prefix) -> Result<(), AllocError>
    ensures { OnOk result (kept.new.items ≡ kept.old.items ++ block ∷ []) }
{
    kept.push(block)?;
    Ok(())
}

/// Each of the blocks once, where it stands first. It takes one pass.
pub fn each_once(alloc: Global, blocks: &[Prefix]) -> Result<Vec<Prefix>, AllocError>
    ensures { IfOk result (λ v. v.items ≡ each_once blocks.now) }
{
    let mut seen = SeenBlocks::new(alloc);
    let mut kept = Vec::new(alloc);
    for block in blocks {
        if !seen.is_new(block)? {
            continue;
        }
        keep(&mut kept, *block)?;
    }
    Ok(kept)
}
