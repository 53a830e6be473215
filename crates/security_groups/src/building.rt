// Rules with the numbers of what they name.
ghost use Rattle.std.specs.Prelude.{◌≡◌, ◌<◌, ◌^◌, [], IfOk, length, map, slice_index_or};
ghost use Rattle.std.specs.List.{filter_map};
ghost use Rattle.security_groups.specs.Naming.{IsNaming, IsVpcNumber};
ghost use Rattle.security_groups.specs.Once.{once};
ghost use Rattle.security_groups.specs.Resolved.{AreNamesOf, AreOwnSets, AreRulesOf, AreSets, HasRulesIn, IsRuleOf, IsSetOf, counted, list_no};
ghost use Rattle.security_groups.specs.Sets.{AreSetKeys};

use crate::groups::GroupRules;
use crate::ids::IdNumbers;
use crate::lists::numbers_of_lists;
use crate::members::push_some;
use crate::naming::{Naming, may_name};
use crate::once::once;
use crate::rules::Rule;
use crate::sets::FurtherSets;
use crate::tables::RuleTable;
use address_sets::AddressSet;
use reference_check::Network;
use std::alloc::{AllocError, Global};
use vpc_base::{Dir, OwnList};
use vpc_model::{GroupNo, Id, Permission};

/// What rules are resolved by: the numbers of prefix lists, and which groups rules may name.
pub struct Named {
    pub lists: IdNumbers,
    pub naming: Naming,
}

impl Drop for Named {
    fn drop(self) {
        let Named { lists, naming } = self;
        drop(lists);
        drop(naming);
    }
}

impl Named {
    pub fn of(alloc: Global, n: &Network) -> Result<Named, AllocError>
        ensures { IfOk result (AreNamesOf n.now) }
    {
        let lists = numbers_of_lists(alloc, n)?;
        let naming = Naming::of(alloc, n)?;
        Ok(Named { lists, naming })
    }
}

// The number of a group that a rule that counts in this VPC names, where the reference counts.
fn counted(n: &Network, naming: &Naming, dir: Dir, vpc: u32, id: &Id) -> Option<u32>
    requires naming { IsNaming n.now naming.now }
    requires vpc { IsVpcNumber naming.now.vpcs.ids vpc }
    ensures { result ≡ counted n.now dir (slice_index_or naming.now.vpcs.ids vpc []) id.now }
{
    let _ = n.description();
    let group = n.group(id.bytes())?;
    if may_name(n, naming, dir, vpc, group.0) {
        Some(group.0)
    } else {
        None
    }
}

// The groups that a rule names and that count, each once.
fn counted_groups(
    alloc: Global,
    n: &Network,
    naming: &Naming,
    dir: Dir,
    vpc: u32,
    ids: &[Id],
) -> Result<OwnList<u32>, AllocError>
    requires naming { IsNaming n.now naming.now }
    requires vpc { IsVpcNumber naming.now.vpcs.ids vpc }
    ensures { IfOk result (λ ns. ns
        ≡ once (filter_map (counted n.now dir (slice_index_or naming.now.vpcs.ids vpc [])) ids.now)) }
{
    let mut numbers = Vec::new(alloc);
    for id in ids {
        push_some(&mut numbers, counted(n, naming, dir, vpc, id))?;
    }
    let kept = once(alloc, numbers.as_slice())?;
    Ok(OwnList::of(kept))
}

/// The number of the prefix list with this id.
pub fn list_no(n: &Network, lists: &IdNumbers, id: &Id) -> Option<u32>
    requires { lists.now ≡ map (λ l. l.id) n.now.lists }
    ensures { result ≡ list_no n.now id.now }
{
    let _ = n.description();
    lists.number(id)
}

// The prefix lists that a rule names, each once.
fn list_numbers(
    alloc: Global,
    n: &Network,
    lists: &IdNumbers,
    ids: &[Id],
) -> Result<OwnList<u32>, AllocError>
    requires { lists.now ≡ map (λ l. l.id) n.now.lists }
    ensures { IfOk result (λ ns. ns ≡ once (filter_map (list_no n.now) ids.now)) }
{
    let mut numbers = Vec::new(alloc);
    for id in ids {
        push_some(&mut numbers, list_no(n, lists, id))?;
    }
    let kept = once(alloc, numbers.as_slice())?;
    Ok(OwnList::of(kept))
}

// A rule that counts in this VPC.
fn rule_of(
    alloc: Global,
    n: &Network,
    named: &Named,
    dir: Dir,
    vpc: u32,
    number: u32,
    permission: &Permission,
) -> Result<Rule, AllocError>
    requires named { AreNamesOf n.now named.now }
    requires vpc { IsVpcNumber named.now.naming.vpcs.ids vpc }
    ensures { IfOk result
        (IsRuleOf n.now dir (slice_index_or named.now.naming.vpcs.ids vpc []) number permission.now) }
{
    let blocks = AddressSet::of_blocks(alloc, permission.blocks.as_slice())?;
    let lists = list_numbers(alloc, n, &named.lists, permission.lists.as_slice())?;
    let groups = counted_groups(
        alloc,
        n,
        &named.naming,
        dir,
        vpc,
        permission.groups.as_slice(),
    )?;
    Ok(Rule {
        number,
        proto: permission.proto,
        q_from: permission.q_from,
        q_to: permission.q_to,
        blocks,
        lists,
        groups,
    })
}

// The rules of one direction of a group, as they count in this VPC, in their order.
fn rules_of(
    alloc: Global,
    n: &Network,
    named: &Named,
    dir: Dir,
    vpc: u32,
    permissions: &[Permission],
) -> Result<Vec<Rule>, AllocError>
    requires named { AreNamesOf n.now named.now }
    requires vpc { IsVpcNumber named.now.naming.vpcs.ids vpc }
    requires counted { length permissions.now < 2 ^ 32 }
    ensures { IfOk result (λ rs.
        AreRulesOf n.now dir (slice_index_or named.now.naming.vpcs.ids vpc []) 1 permissions.now rs.items) }
{
    let mut rules = Vec::new(alloc);
    for (k, permission) in permissions.iter().enumerate() {
        rules.push(rule_of(alloc, n, named, dir, vpc, k as u32 + 1, permission)?)?;
    }
    Ok(rules)
}

fn table_of(
    alloc: Global,
    n: &Network,
    named: &Named,
    dir: Dir,
    vpc: u32,
    permissions: &[Permission],
) -> Result<RuleTable, AllocError>
    requires named { AreNamesOf n.now named.now }
    requires vpc { IsVpcNumber named.now.naming.vpcs.ids vpc }
    requires counted { length permissions.now < 2 ^ 32 }
    ensures { IfOk result
        (HasRulesIn n.now dir (slice_index_or named.now.naming.vpcs.ids vpc []) permissions.now) }
{
    let rules = rules_of(alloc, n, named, dir, vpc, permissions)?;
    RuleTable::of(alloc, rules)
}

// The rules of the group with this number, as they count in this VPC.
fn rules_in(
    alloc: Global,
    n: &Network,
    named: &Named,
    group: u32,
    vpc: u32,
) -> Result<GroupRules, AllocError>
    requires group { group < length n.now.groups }
    requires named { AreNamesOf n.now named.now }
    requires vpc { IsVpcNumber named.now.naming.vpcs.ids vpc }
    ensures { IfOk result (IsSetOf n.now group (slice_index_or named.now.naming.vpcs.ids vpc [])) }
{
    let row = &n.description().groups.as_slice()[group as usize];
    let inward = table_of(alloc, n, named, Dir::Inward, vpc, row.inward.as_slice())?;
    let outward = table_of(alloc, n, named, Dir::Outward, vpc, row.outward.as_slice())?;
    Ok(GroupRules {
        group: GroupNo(group),
        inward,
        outward,
    })
}

// The rules of each group in its own VPC.
fn own_sets(alloc: Global, n: &Network, named: &Named) -> Result<Vec<GroupRules>, AllocError>
    requires { AreNamesOf n.now named.now }
    ensures { IfOk result (λ v. AreOwnSets n.now v.items) }
{
    let _ = n.description();
    let own = named.naming.vpcs.own.as_slice();
    let mut sets = Vec::new(alloc);
    for k in 0..own.len() {
        sets.push(rules_in(alloc, n, named, k as u32, own[k])?)?;
    }
    Ok(sets)
}

/// The rules of each group in its own VPC, and of groups in further VPCs.
pub fn rule_sets(
    alloc: Global,
    n: &Network,
    named: &Named,
    further: &FurtherSets,
) -> Result<Vec<GroupRules>, AllocError>
    requires named { AreNamesOf n.now named.now }
    requires keys { AreSetKeys n.now named.now.naming.vpcs.ids further.now }
    ensures { IfOk result (λ v. AreSets n.now named.now.naming.vpcs.ids further.now v.items) }
{
    let mut sets = own_sets(alloc, n, named)?;
    for k in 0..further.len() {
        let (group, vpc) = further.at(k);
        sets.push(rules_in(alloc, n, named, group, vpc)?)?;
    }
    Ok(sets)
}
