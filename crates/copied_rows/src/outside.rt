// Copies of networks that aren't described, and of firewall endpoints.
ghost use Rattle.std.specs.Prelude.{◌≡◌, IfOk};

use crate::gateways::copied_id;
use crate::lists::{CopiedRow, copied_values};
use std::alloc::Global;
use vpc_base::NoMemory;
use vpc_model::{Far, FarKind, FirewallEndpoint};

fn copied_kind(alloc: Global, kind: &FarKind) -> Result<FarKind, NoMemory>
    ensures { IfOk result (λ k. k ≡ kind.now) }
{
    match kind {
        FarKind::PrivateGateway(vpc) => Ok(FarKind::PrivateGateway(copied_id(alloc, vpc)?)),
        FarKind::Attachment(vpc) => Ok(FarKind::Attachment(copied_id(alloc, vpc)?)),
        FarKind::Peering(requester, accepter) => Ok(FarKind::Peering(
            copied_values(alloc, requester)?,
            copied_values(alloc, accepter)?,
        )),
        FarKind::Endpoint(vpc) => Ok(FarKind::Endpoint(vpc.copied(alloc)?)),
    }
}

impl CopiedRow for Far {
    fn copied(&self, alloc: Global) -> Result<Far, NoMemory> {
        Ok(Far {
            id: self.id.copied(alloc)?,
            kind: copied_kind(alloc, &self.kind)?,
        })
    }
}

impl CopiedRow for FirewallEndpoint {
    fn copied(&self, alloc: Global) -> Result<FirewallEndpoint, NoMemory> {
        Ok(FirewallEndpoint {
            id: self.id.copied(alloc)?,
            vpc: self.vpc.copied(alloc)?,
            subnet: self.subnet.copied(alloc)?,
        })
    }
}
