// The indexes of all network ACLs.
ghost use Rattle.std.specs.Prelude.{IfOk, IsTrue};
ghost use Rattle.std.specs.List.{AllZip};
ghost use Rattle.fabric.specs.Indexes.{IsAclIndex};

use crate::routes::add;
use network_acls::AclIndex;
use reference_check::Network;
use std::alloc::Global;
use vpc_base::NoMemory;
use vpc_model::AclNo;

/// The index of each network ACL, in their order.
pub fn acl_indexes(alloc: Global, n: &Network) -> Result<Vec<AclIndex>, NoMemory>
    ensures { IfOk result (λ v. AllZip IsAclIndex n.now.acls v.items) }
{
    let d = n.description();
    let acls = d.acls.as_slice();
    let mut indexes = Vec::with_capacity(alloc, acls.len())?;
    for (k, _acl) in acls.iter().enumerate() {
        let index = AclIndex::of(alloc, d, AclNo(k as u32))?;
        add(&mut indexes, index)?;
    }
    Ok(indexes)
}
