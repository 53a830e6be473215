// The rules of a description.
ghost use Rattle.std.specs.Prelude.{◌≡◌, ◌++◌, All, IfOk, OnOk};
ghost use Rattle.std.specs.List.{enumerate_from, flat_map};
ghost use Rattle.vpc_model.specs.Acls.{is_of_dir};
ghost use Rattle.unused_rules.specs.Rules.{HasShortRows, HasShortRules, IsShort, permissions_in, rows_in, rules_of, rules_of_acl, rules_of_group};

use reference_check::Network;
use std::alloc::Global;
use vpc_base::{Dir, NoMemory};
use vpc_model::{Acl, AclNo, AclRow, Group, GroupNo, Permission, RuleRef};

/// A rule of a described network.
#[derive(Clone, Copy)]
pub enum RuleName {
    /// A permission of a security group, by its number in its direction, from 1.
    Permission(RuleRef),
    /// A row of a network ACL, by its place among all the ACL's rows, from 0.
    AclRow(AclNo, u32),
}

// ---- of groups

// The permissions of a direction.
fn add_permissions(
    rules: &mut Vec<RuleName>,
    group: u32,
    dir: Dir,
    permissions: &[Permission],
) -> Result<(), NoMemory>
    requires { IsShort permissions.now }
    ensures { OnOk result
        (rules.new.items ≡ rules.old.items ++ permissions_in group dir permissions.now) }
{
    for (before, _permission) in permissions.iter().enumerate() {
        rules.push(RuleName::Permission(RuleRef {
            group: GroupNo(group),
            dir,
            number: before as u32 + 1,
        }))?;
    }
    Ok(())
}

fn add_group(rules: &mut Vec<RuleName>, number: u32, group: &Group) -> Result<(), NoMemory>
    requires { HasShortRules group.now }
    ensures { OnOk result (rules.new.items ≡ rules.old.items ++ rules_of_group (number, group.now)) }
{
    add_permissions(rules, number, Dir::Inward, group.inward.as_slice())?;
    add_permissions(rules, number, Dir::Outward, group.outward.as_slice())
}

fn add_groups(rules: &mut Vec<RuleName>, groups: &[Group]) -> Result<(), NoMemory>
    requires few { IsShort groups.now }
    requires short { All HasShortRules groups.now }
    ensures { OnOk result (rules.new.items
        ≡ rules.old.items ++ flat_map rules_of_group (enumerate_from 0 groups.now)) }
{
    for (number, group) in groups.iter().enumerate() {
        add_group(rules, number as u32, group)?;
    }
    Ok(())
}

// ---- of ACLs

fn is_of(row: &AclRow, dir: Dir) -> bool
    ensures { result ≡ is_of_dir dir row.now }
{
    match dir {
        Dir::Inward => !row.outward,
        Dir::Outward => row.outward,
    }
}

// The rows of a direction.
fn add_rows(rules: &mut Vec<RuleName>, acl: u32, dir: Dir, rows: &[AclRow]) -> Result<(), NoMemory>
    requires { IsShort rows.now }
    ensures { OnOk result (rules.new.items ≡ rules.old.items ++ rows_in acl dir rows.now) }
{
    for (place, row) in rows.iter().enumerate() {
        if is_of(row, dir) {
            rules.push(RuleName::AclRow(AclNo(acl), place as u32))?;
        }
    }
    Ok(())
}

fn add_acl(rules: &mut Vec<RuleName>, number: u32, acl: &Acl) -> Result<(), NoMemory>
    requires { HasShortRows acl.now }
    ensures { OnOk result (rules.new.items ≡ rules.old.items ++ rules_of_acl (number, acl.now)) }
{
    add_rows(rules, number, Dir::Inward, acl.rows.as_slice())?;
    add_rows(rules, number, Dir::Outward, acl.rows.as_slice())
}

fn add_acls(rules: &mut Vec<RuleName>, acls: &[Acl]) -> Result<(), NoMemory>
    requires few { IsShort acls.now }
    requires short { All HasShortRows acls.now }
    ensures { OnOk result (rules.new.items
        ≡ rules.old.items ++ flat_map rules_of_acl (enumerate_from 0 acls.now)) }
{
    for (number, acl) in acls.iter().enumerate() {
        add_acl(rules, number as u32, acl)?;
    }
    Ok(())
}

// ---- of a network

/// The rules of a network: for each security group its inward and then its outward permissions, and then for each network
/// ACL its inward and then its outward rows, as they are described.
pub fn rules_of(alloc: Global, n: &Network) -> Result<Vec<RuleName>, NoMemory>
    ensures { IfOk result (λ v. v.items ≡ rules_of n.now) }
{
    let d = n.description();
    let mut rules = Vec::new(alloc);
    add_groups(&mut rules, d.groups.as_slice())?;
    add_acls(&mut rules, d.acls.as_slice())?;
    Ok(rules)
}
