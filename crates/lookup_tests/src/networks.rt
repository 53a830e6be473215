// Networks that bundles describe, and descriptions by hand of what no bundle says: ports of any protocol.
ghost use Rattle.std.specs.Prelude.{◌≡◌, ◌∷◌, [], IfOk};

use bundle::read_bundle;
use reference_check::Network;
use std::alloc::{AllocError, Global};
use std::test::Fail;
use vpc_base::OwnList;
use vpc_model::{Acl, AclRow, Appliance, Description, GroupScope, Id};

pub fn network_of(alloc: Global, text: &str) -> Result<Network, Fail> {
    match read_bundle(alloc, text.as_bytes()) {
        Ok(network) => Ok(network),
        Err(_) => Err(Fail::new("the bundle makes no network")),
    }
}

pub fn id_of(alloc: Global, text: &[u8]) -> Result<Id, Fail> {
    match Id::of(alloc, text)? {
        Some(id) => Ok(id),
        None => Err(Fail::new("no id")),
    }
}

pub fn none<T>(alloc: Global) -> OwnList<T>
    ensures { result ≡ [] }
{
    OwnList::of(Vec::new(alloc))
}

pub fn one<T: Drop>(alloc: Global, row: T) -> Result<OwnList<T>, AllocError>
    ensures { IfOk result (λ rows. rows ≡ row ∷ []) }
{
    let mut rows = Vec::new(alloc);
    rows.push(row)?;
    Ok(OwnList::of(rows))
}

/// An ACL with these rows and no subnets.
pub fn acl_of(alloc: Global, rows: &[AclRow]) -> Result<Acl, Fail> {
    let rows = OwnList::of(rows.to_vec(alloc)?);
    let id = id_of(alloc, b"acl-1")?;
    Ok(Acl {
        id,
        subnets: none(alloc),
        rows,
    })
}

/// A description with these ACLs and appliances, and nothing else.
pub fn description_of(
    alloc: Global,
    acls: OwnList<Acl>,
    appliances: OwnList<Appliance>,
) -> Description
    ensures { result.acls ≡ acls }
{
    Description {
        vpcs: none(alloc),
        subnets: none(alloc),
        interfaces: none(alloc),
        tables: none(alloc),
        lists: none(alloc),
        acls,
        groups: none(alloc),
        igws: none(alloc),
        nats: none(alloc),
        peerings: none(alloc),
        attachments: none(alloc),
        associations: none(alloc),
        tgw_tables: none(alloc),
        appliances,
        fars: none(alloc),
        firewalls: none(alloc),
        scope: GroupScope {
            gateways: none(alloc),
            attachments: none(alloc),
            vpcs: none(alloc),
        },
    }
}
