// The lists of filters in a bundle.
ghost use Rattle.std.specs.Prelude.{◌≡◌};
ghost use Rattle.serde_json.specs.View.{view};
ghost use Rattle.json_fields.specs.FieldFault.{Reads};
ghost use Rattle.read_filters.specs.Filters.{filters_of};

use crate::acls::Acls;
use crate::groups::Groups;
use json_fields::{FieldFault, read_list};
use serde_json::Value;
use std::alloc::Global;
use vpc_base::OwnList;
use vpc_model::{Acl, Group};

/// The rows of what filters packets, in the order of the bundle.
#[derive(Drop)]
pub struct FilterRows {
    pub acls: OwnList<Acl>,
    pub groups: OwnList<Group>,
}

/// The network ACLs (`NetworkAcls` of DescribeNetworkAcls) and security groups (`SecurityGroups` of
/// DescribeSecurityGroups) of a bundle, and the first fault where one can't be read. Entries and ranges of
/// IPv6 are left out. It takes time linear in the bundle.
pub fn read_filters(alloc: Global, bundle: &Value) -> Result<FilterRows, FieldFault>
    ensures { Reads (λ x. x) (filters_of (view bundle.now)) result }
{
    let acls = read_list::<Acls>(alloc, bundle, "NetworkAcls")?;
    let groups = read_list::<Groups>(alloc, bundle, "SecurityGroups")?;
    Ok(FilterRows {
        acls: OwnList::of(acls),
        groups: OwnList::of(groups),
    })
}
