// Network ACLs and security groups.
ghost use Rattle.std.specs.Prelude.{◌≡◌, IfOk, map};
ghost use Rattle.std.specs.List.{range_with_len};
ghost use Rattle.made_network.specs.Made.{anywhere, made_acl, made_group, open_row, open_rule, port_rule};

use crate::ids::numbered;
use crate::lists::{add, no_rows, only_row, two_rows};
use crate::rows::MadeRow;
use prefix_text::Prefix;
use std::alloc::Global;
use vpc_base::{NoMemory, OwnList};
use vpc_model::{Acl, AclRow, Group, Permission};

fn anywhere() -> Prefix
    ensures { result ≡ anywhere }
{
    Prefix::of(0, 0)
}

fn open_row(outward: bool) -> AclRow
    ensures { result ≡ open_row outward }
{
    AclRow {
        number: 100,
        outward,
        allow: true,
        proto: None,
        q_from: 0,
        q_to: 65535,
        block: anywhere(),
    }
}

impl MadeRow for Acl {
    ghost row_of = { made_acl };

    fn made(alloc: Global, number: u8) -> Result<Acl, NoMemory> {
        Ok(Acl {
            id: numbered(alloc, "acl", number)?,
            subnets: only_row(alloc, numbered(alloc, "subnet", number)?)?,
            rows: two_rows(alloc, open_row(false), open_row(true))?,
        })
    }
}

fn open_rule(alloc: Global, proto: Option<u8>, from: u16, to: u16) -> Result<Permission, NoMemory>
    ensures { IfOk result (λ r. r ≡ open_rule proto from to) }
{
    Ok(Permission {
        id: None,
        proto,
        q_from: from,
        q_to: to,
        blocks: only_row(alloc, anywhere())?,
        lists: no_rows(alloc),
        groups: no_rows(alloc),
    })
}

// The hundred inward rules of a group.
fn port_rules(alloc: Global, number: u8) -> Result<Vec<Permission>, NoMemory>
    ensures { IfOk result (λ v. v.items ≡ map (port_rule number) (range_with_len 0 100)) }
{
    let mut rules = Vec::with_capacity(alloc, 100)?;
    for hundred in 0..100u16 {
        let port = 100 * hundred + u16::from(number);
        add(&mut rules, open_rule(alloc, Some(6), port, port)?)?;
    }
    Ok(rules)
}

impl MadeRow for Group {
    ghost row_of = { made_group };

    fn made(alloc: Global, number: u8) -> Result<Group, NoMemory> {
        let inward = port_rules(alloc, number)?;
        Ok(Group {
            id: numbered(alloc, "sg", number)?,
            vpc: numbered(alloc, "vpc", number)?,
            inward: OwnList::of(inward),
            outward: only_row(alloc, open_rule(alloc, None, 0, 65535)?)?,
        })
    }
}
