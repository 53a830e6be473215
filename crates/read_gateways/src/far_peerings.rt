// Peerings with VPCs that may not be described.
ghost use Rattle.std.specs.Prelude.{◌≡◌, IfOk};
ghost use Rattle.serde_json.specs.View.{view};
ghost use Rattle.json_fields.specs.FieldFault.{Reads};
ghost use Rattle.read_gateways.specs.Outside.{blocks_of, far_peering_by, far_peering_if, far_peering_of, side_block, side_blocks, with_first};

use crate::peerings::is_active;
use json_fields::{FieldFault, Path, ReadRow, id_at, prefix_at, prefix_if, read_items};
use prefix_text::Prefix;
use serde_json::Value;
use std::alloc::{AllocError, Global};
use vpc_base::OwnList;
use vpc_model::{Far, FarKind, Id};

/// The rows of a side's `CidrBlockSet`.
struct SideBlocks;

impl ReadRow for SideBlocks {
    type Row = Prefix;

    ghost meaning = { side_block };

    fn read(alloc: Global, row: &Value, path: &Path) -> Result<Prefix, FieldFault> {
        prefix_at(alloc, row, path, "CidrBlock")
    }
}

fn with_first(first: Option<Prefix>, blocks: Vec<Prefix>) -> Result<Vec<Prefix>, AllocError>
    ensures { IfOk result (λ v. v.items ≡ with_first first blocks.items) }
{
    let mut all = blocks;
    if let Some(first) = first {
        all.insert(0, first)?;
    }
    Ok(all)
}

fn blocks_of(alloc: Global, vpc: &Value, path: &Path) -> Result<Vec<Prefix>, FieldFault>
    ensures { Reads (λ v. v.items) (blocks_of (view vpc.now) path.now) result }
{
    let first = prefix_if(alloc, vpc, path, "CidrBlock")?;
    let others = read_items::<SideBlocks>(alloc, vpc, path, "CidrBlockSet")?;
    Ok(with_first(first, others)?)
}

// The blocks of the VPC on a side.
fn side_blocks(
    alloc: Global,
    row: &Value,
    path: &Path,
    side: &str,
) -> Result<Vec<Prefix>, FieldFault>
    ensures { Reads (λ v. v.items) (side_blocks (view row.now) path.now side.now) result }
{
    match row.get(side) {
        Some(vpc) => blocks_of(alloc, vpc, &path.member(side)),
        None => Ok(Vec::new(alloc)),
    }
}

fn far_peering_by(id: Id, requester: Vec<Prefix>, accepter: Vec<Prefix>) -> Option<Far>
    ensures { result ≡ far_peering_by id requester.items accepter.items }
{
    if requester.len() == 0 || accepter.len() == 0 {
        return None;
    }
    Some(Far {
        id,
        kind: FarKind::Peering(OwnList::of(requester), OwnList::of(accepter)),
    })
}

fn far_peering_if(
    alloc: Global,
    active: bool,
    id: Id,
    row: &Value,
    path: &Path,
) -> Result<Option<Far>, FieldFault>
    ensures { Reads (λ x. x) (far_peering_if active id (view row.now) path.now) result }
{
    if !active {
        return Ok(None);
    }
    let requester = side_blocks(alloc, row, path, "RequesterVpcInfo")?;
    let accepter = side_blocks(alloc, row, path, "AccepterVpcInfo")?;
    Ok(far_peering_by(id, requester, accepter))
}

fn far_peering_of(alloc: Global, row: &Value, path: &Path) -> Result<Option<Far>, FieldFault>
    ensures { Reads (λ x. x) (far_peering_of (view row.now) path.now) result }
{
    let id = id_at(alloc, row, path, "VpcPeeringConnectionId")?;
    let active = is_active(alloc, row, path)?;
    far_peering_if(alloc, active, id, row, path)
}

/// The rows of `VpcPeeringConnections`, as far as they tell of networks.
pub struct FarPeerings;

impl ReadRow for FarPeerings {
    type Row = Option<Far>;

    ghost meaning = { far_peering_of };

    fn read(alloc: Global, row: &Value, path: &Path) -> Result<Option<Far>, FieldFault> {
        far_peering_of(alloc, row, path)
    }
}
