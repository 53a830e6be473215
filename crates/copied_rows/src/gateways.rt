// Copies of internet gateways, NAT gateways, peerings and transit gateways.
ghost use Rattle.std.specs.Prelude.{◌≡◌, IfOk};

use crate::lists::{CopiedRow, copied_list};
use std::alloc::Global;
use vpc_base::NoMemory;
use vpc_model::{
    Association, Attachment, Id, InternetGateway, NatGateway, NatLife, Peering, TgwRoute, TgwTable,
};

impl CopiedRow for InternetGateway {
    fn copied(&self, alloc: Global) -> Result<InternetGateway, NoMemory> {
        Ok(InternetGateway {
            id: self.id.copied(alloc)?,
            vpcs: copied_list(alloc, &self.vpcs)?,
        })
    }
}

fn copied_life(alloc: Global, life: &NatLife) -> Result<NatLife, NoMemory>
    ensures { IfOk result (λ l. l ≡ life.now) }
{
    match life {
        NatLife::Gone => Ok(NatLife::Gone),
        NatLife::Unmodelled => Ok(NatLife::Unmodelled),
        NatLife::Live {
            subnet,
            eni,
            address,
        } => Ok(NatLife::Live {
            subnet: subnet.copied(alloc)?,
            eni: eni.copied(alloc)?,
            address: *address,
        }),
    }
}

impl CopiedRow for NatGateway {
    fn copied(&self, alloc: Global) -> Result<NatGateway, NoMemory> {
        Ok(NatGateway {
            id: self.id.copied(alloc)?,
            life: copied_life(alloc, &self.life)?,
        })
    }
}

fn copied_pair(alloc: Global, pair: &Option<(Id, Id)>) -> Result<Option<(Id, Id)>, NoMemory>
    ensures { IfOk result (λ p. p ≡ pair.now) }
{
    match pair {
        Some((one, other)) => Ok(Some((one.copied(alloc)?, other.copied(alloc)?))),
        None => Ok(None),
    }
}

impl CopiedRow for Peering {
    fn copied(&self, alloc: Global) -> Result<Peering, NoMemory> {
        Ok(Peering {
            id: self.id.copied(alloc)?,
            pair: copied_pair(alloc, &self.pair)?,
        })
    }
}

impl CopiedRow for Attachment {
    fn copied(&self, alloc: Global) -> Result<Attachment, NoMemory> {
        Ok(Attachment {
            id: self.id.copied(alloc)?,
            gateway: self.gateway.copied(alloc)?,
            vpc: self.vpc.copied(alloc)?,
            subnets: copied_list(alloc, &self.subnets)?,
        })
    }
}

impl CopiedRow for Association {
    fn copied(&self, alloc: Global) -> Result<Association, NoMemory> {
        Ok(Association {
            attachment: self.attachment.copied(alloc)?,
            table: self.table.copied(alloc)?,
        })
    }
}

/// The id once more, if there is one.
pub(crate) fn copied_id(alloc: Global, id: &Option<Id>) -> Result<Option<Id>, NoMemory>
    ensures { IfOk result (λ i. i ≡ id.now) }
{
    match id {
        Some(id) => Ok(Some(id.copied(alloc)?)),
        None => Ok(None),
    }
}

impl CopiedRow for TgwRoute {
    fn copied(&self, alloc: Global) -> Result<TgwRoute, NoMemory> {
        Ok(TgwRoute {
            block: self.block,
            blackhole: self.blackhole,
            propagated: self.propagated,
            attachment: copied_id(alloc, &self.attachment)?,
        })
    }
}

impl CopiedRow for TgwTable {
    fn copied(&self, alloc: Global) -> Result<TgwTable, NoMemory> {
        Ok(TgwTable {
            id: self.id.copied(alloc)?,
            routes: copied_list(alloc, &self.routes)?,
        })
    }
}
