// Copies of network ACLs and security groups.
ghost use Rattle.std.specs.Prelude.{◌≡◌, IfOk};

use crate::lists::{CopiedRow, copied_list, copied_values};
use std::alloc::Global;
use vpc_base::NoMemory;
use vpc_model::{Acl, AclRow, Group, Id, Permission};

impl CopiedRow for AclRow {
    fn copied(&self, _alloc: Global) -> Result<AclRow, NoMemory> {
        Ok(*self)
    }
}

impl CopiedRow for Acl {
    fn copied(&self, alloc: Global) -> Result<Acl, NoMemory> {
        Ok(Acl {
            id: self.id.copied(alloc)?,
            subnets: copied_list(alloc, &self.subnets)?,
            rows: copied_values(alloc, &self.rows)?,
        })
    }
}

fn copied_id(alloc: Global, id: &Option<Id>) -> Result<Option<Id>, NoMemory>
    ensures { IfOk result (λ i. i ≡ id.now) }
{
    match id {
        Some(id) => Ok(Some(id.copied(alloc)?)),
        None => Ok(None),
    }
}

impl CopiedRow for Permission {
    fn copied(&self, alloc: Global) -> Result<Permission, NoMemory> {
        Ok(Permission {
            id: copied_id(alloc, &self.id)?,
            proto: self.proto,
            q_from: self.q_from,
            q_to: self.q_to,
            blocks: copied_values(alloc, &self.blocks)?,
            lists: copied_list(alloc, &self.lists)?,
            groups: copied_list(alloc, &self.groups)?,
        })
    }
}

impl CopiedRow for Group {
    fn copied(&self, alloc: Global) -> Result<Group, NoMemory> {
        Ok(Group {
            id: self.id.copied(alloc)?,
            vpc: self.vpc.copied(alloc)?,
            inward: copied_list(alloc, &self.inward)?,
            outward: copied_list(alloc, &self.outward)?,
        })
    }
}
