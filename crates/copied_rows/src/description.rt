// Copies of descriptions.
ghost use Rattle.std.specs.Prelude.{◌≡◌, IfOk};
ghost use Rattle.copied_rows.specs.Filters.{with_filters};

use crate::lists::{CopiedRow, copied_list};
use std::alloc::Global;
use vpc_base::{NoMemory, OwnList};
use vpc_model::{Acl, Description, Group, GroupScope, GroupVpc};

impl CopiedRow for GroupVpc {
    fn copied(&self, alloc: Global) -> Result<GroupVpc, NoMemory> {
        Ok(GroupVpc {
            group: self.group.copied(alloc)?,
            vpc: self.vpc.copied(alloc)?,
        })
    }
}

fn copied_scope(alloc: Global, scope: &GroupScope) -> Result<GroupScope, NoMemory>
    ensures { IfOk result (λ s. s ≡ scope.now) }
{
    Ok(GroupScope {
        gateways: copied_list(alloc, &scope.gateways)?,
        attachments: copied_list(alloc, &scope.attachments)?,
        vpcs: copied_list(alloc, &scope.vpcs)?,
    })
}

/// The description once more, with these network ACLs and security groups in place of its own.
pub fn copied_with(
    alloc: Global,
    d: &Description,
    acls: OwnList<Acl>,
    groups: OwnList<Group>,
) -> Result<Description, NoMemory>
    ensures { IfOk result (λ c. c ≡ with_filters d.now acls groups) }
{
    Ok(Description {
        vpcs: copied_list(alloc, &d.vpcs)?,
        subnets: copied_list(alloc, &d.subnets)?,
        interfaces: copied_list(alloc, &d.interfaces)?,
        tables: copied_list(alloc, &d.tables)?,
        lists: copied_list(alloc, &d.lists)?,
        acls,
        groups,
        igws: copied_list(alloc, &d.igws)?,
        nats: copied_list(alloc, &d.nats)?,
        peerings: copied_list(alloc, &d.peerings)?,
        attachments: copied_list(alloc, &d.attachments)?,
        associations: copied_list(alloc, &d.associations)?,
        tgw_tables: copied_list(alloc, &d.tgw_tables)?,
        appliances: copied_list(alloc, &d.appliances)?,
        fars: copied_list(alloc, &d.fars)?,
        firewalls: copied_list(alloc, &d.firewalls)?,
        scope: copied_scope(alloc, &d.scope)?,
    })
}
