// Copies of VPCs, subnets, interfaces, route tables, prefix lists and appliances.
ghost use Rattle.std.specs.Prelude.{◌≡◌, IfOk};

use crate::lists::{CopiedRow, copied_list, copied_values};
use std::alloc::Global;
use vpc_base::NoMemory;
use vpc_model::{
    Appliance, ApplianceKind, Interface, PrefixList, Reach, Route, RouteTable, Subnet, Target, Vpc,
};

impl CopiedRow for Vpc {
    fn copied(&self, alloc: Global) -> Result<Vpc, NoMemory> {
        Ok(Vpc {
            id: self.id.copied(alloc)?,
            blocks: copied_values(alloc, &self.blocks)?,
            access: self.access,
        })
    }
}

impl CopiedRow for Subnet {
    fn copied(&self, alloc: Global) -> Result<Subnet, NoMemory> {
        Ok(Subnet {
            id: self.id.copied(alloc)?,
            vpc: self.vpc.copied(alloc)?,
            zone: self.zone.copied(alloc)?,
            access: self.access,
        })
    }
}

impl CopiedRow for Interface {
    fn copied(&self, alloc: Global) -> Result<Interface, NoMemory> {
        Ok(Interface {
            id: self.id.copied(alloc)?,
            subnet: self.subnet.copied(alloc)?,
            primary: self.primary,
            addresses: copied_values(alloc, &self.addresses)?,
            prefixes: copied_values(alloc, &self.prefixes)?,
            groups: copied_list(alloc, &self.groups)?,
            checked: self.checked,
            idle: self.idle,
            kind: self.kind,
        })
    }
}

fn copied_reach(alloc: Global, reach: &Reach) -> Result<Reach, NoMemory>
    ensures { IfOk result (λ r. r ≡ reach.now) }
{
    match reach {
        Reach::Block(block) => Ok(Reach::Block(*block)),
        Reach::List(id) => Ok(Reach::List(id.copied(alloc)?)),
    }
}

fn copied_target(alloc: Global, target: &Target) -> Result<Target, NoMemory>
    ensures { IfOk result (λ r. r ≡ target.now) }
{
    match target {
        Target::Local => Ok(Target::Local),
        Target::Internet(id) => Ok(Target::Internet(id.copied(alloc)?)),
        Target::Nat(id) => Ok(Target::Nat(id.copied(alloc)?)),
        Target::Transit(id) => Ok(Target::Transit(id.copied(alloc)?)),
        Target::Peer(id) => Ok(Target::Peer(id.copied(alloc)?)),
        Target::Interface(id) => Ok(Target::Interface(id.copied(alloc)?)),
        Target::Other(id) => Ok(Target::Other(id.copied(alloc)?)),
    }
}

impl CopiedRow for Route {
    fn copied(&self, alloc: Global) -> Result<Route, NoMemory> {
        Ok(Route {
            reach: copied_reach(alloc, &self.reach)?,
            target: copied_target(alloc, &self.target)?,
            blackhole: self.blackhole,
            propagated: self.propagated,
        })
    }
}

impl CopiedRow for RouteTable {
    fn copied(&self, alloc: Global) -> Result<RouteTable, NoMemory> {
        Ok(RouteTable {
            id: self.id.copied(alloc)?,
            vpc: self.vpc.copied(alloc)?,
            main: self.main,
            subnets: copied_list(alloc, &self.subnets)?,
            gateways: copied_list(alloc, &self.gateways)?,
            routes: copied_list(alloc, &self.routes)?,
        })
    }
}

impl CopiedRow for PrefixList {
    fn copied(&self, alloc: Global) -> Result<PrefixList, NoMemory> {
        Ok(PrefixList {
            id: self.id.copied(alloc)?,
            entries: copied_values(alloc, &self.entries)?,
        })
    }
}

fn copied_kind(kind: &ApplianceKind) -> ApplianceKind
    ensures { result ≡ kind.now }
{
    match kind {
        ApplianceKind::All => ApplianceKind::All,
        ApplianceKind::Nothing => ApplianceKind::Nothing,
        ApplianceKind::Service(from, to) => ApplianceKind::Service(*from, *to),
        ApplianceKind::Peer(block) => ApplianceKind::Peer(*block),
    }
}

impl CopiedRow for Appliance {
    fn copied(&self, alloc: Global) -> Result<Appliance, NoMemory> {
        Ok(Appliance {
            id: self.id.copied(alloc)?,
            at: self.at,
            kind: copied_kind(&self.kind),
        })
    }
}
