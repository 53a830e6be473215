// VPCs.
ghost use Rattle.std.specs.Prelude.{◌≡◌, option_map};
ghost use Rattle.serde_json.specs.View.{view};
ghost use Rattle.json_fields.specs.FieldFault.{Reads};
ghost use Rattle.read_network.specs.Vpcs.{associated_block, is_associated, vpc_of};

use crate::access::access_at;
use crate::blocks::each_once;
use json_fields::{FieldFault, Path, ReadRow, id_at, prefix_at, read_kept_items, str_if_within};
use prefix_text::Prefix;
use serde_json::Value;
use std::alloc::Global;
use vpc_base::OwnList;
use vpc_model::Vpc;

fn is_associated(state: Option<&str>) -> bool
    ensures { result ≡ is_associated (option_map (λ s. s.now) state.entry) }
{
    match state {
        Some(state) => state == "associated",
        None => true,
    }
}

fn associated_block(alloc: Global, row: &Value, path: &Path) -> Result<Option<Prefix>, FieldFault>
    ensures { Reads (λ x. x) (associated_block (view row.now) path.now) result }
{
    let block = prefix_at(alloc, row, path, "CidrBlock")?;
    match str_if_within(alloc, row, path, "CidrBlockState", "State") {
        Ok(state) if is_associated(state) => Ok(Some(block)),
        Ok(_) => Ok(None),
        Err(fault) => Err(fault),
    }
}

/// The rows of a VPC's `CidrBlockAssociationSet`.
struct AssociatedBlocks;

impl ReadRow for AssociatedBlocks {
    type Row = Option<Prefix>;

    ghost meaning = { associated_block };

    fn read(alloc: Global, row: &Value, path: &Path) -> Result<Option<Prefix>, FieldFault> {
        associated_block(alloc, row, path)
    }
}

fn vpc_of(alloc: Global, row: &Value, path: &Path) -> Result<Vpc, FieldFault>
    ensures { Reads (λ x. x) (vpc_of (view row.now) path.now) result }
{
    let id = id_at(alloc, row, path, "VpcId")?;
    let block = prefix_at(alloc, row, path, "CidrBlock")?;
    let set = "CidrBlockAssociationSet";
    let mut blocks = read_kept_items::<Prefix, AssociatedBlocks>(alloc, row, path, set)?;
    let access = access_at(alloc, row, path)?;
    blocks.insert(0, block)?;
    let blocks = each_once(alloc, blocks.as_slice())?;
    Ok(Vpc {
        id,
        blocks: OwnList::of(blocks),
        access,
    })
}

/// The rows of `Vpcs`.
pub struct Vpcs;

impl ReadRow for Vpcs {
    type Row = Vpc;

    ghost meaning = { vpc_of };

    fn read(alloc: Global, row: &Value, path: &Path) -> Result<Vpc, FieldFault> {
        vpc_of(alloc, row, path)
    }
}
