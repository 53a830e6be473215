// Groups with rules that are told apart from them.
ghost use Rattle.std.specs.Prelude.{◌≡◌, ◌++◌, ◌∷◌, [], IfOk, OnOk, map, not, option_map, unwrap_or};
ghost use Rattle.serde_json.specs.View.{view};
ghost use Rattle.json_fields.specs.FieldFault.{Reads};
ghost use Rattle.read_filters.specs.GroupRules.{group_rules_of, groups_from, permissions_of, with_rules};
ghost use Rattle.read_filters.specs.Shares.{handed, shares_from, with_shares};

use crate::group_rules::{GroupRule, rules_of};
use json_fields::FieldFault;
use serde_json::Value;
use std::alloc::{AllocError, Global};
use vpc_base::{NoMemory, OwnList};
use vpc_model::{Group, Permission};

/// The permissions of a group by their direction.
#[derive(Drop)]
struct Directed {
    inward: Vec<Permission>,
    outward: Vec<Permission>,
}

// What memory refuses is dropped.
fn put(rule: GroupRule, all: &mut Directed) -> Result<(), AllocError>
    ensures inward { OnOk result (all.new.inward.items
        ≡ all.old.inward.items ++ permissions_of (λ r. not r.outward) (rule ∷ [])) }
    ensures outward { OnOk result (all.new.outward.items
        ≡ all.old.outward.items ++ permissions_of (λ r. r.outward) (rule ∷ [])) }
{
    if rule.outward {
        all.outward.push(rule.permission)?;
    } else {
        all.inward.push(rule.permission)?;
    }
    Ok(())
}

fn by_direction(alloc: Global, rules: Vec<GroupRule>) -> Result<Directed, AllocError>
    ensures inward { IfOk result (λ d. d.inward.items ≡ permissions_of (λ r. not r.outward) rules.items) }
    ensures outward { IfOk result (λ d. d.outward.items ≡ permissions_of (λ r. r.outward) rules.items) }
{
    let mut all = Directed {
        inward: Vec::new(alloc),
        outward: Vec::new(alloc),
    };
    for rule in rules {
        put(rule, &mut all)?;
    }
    Ok(all)
}

fn with_rules(alloc: Global, rules: Vec<GroupRule>, group: Group) -> Result<Group, AllocError>
    ensures { IfOk result (λ g. g ≡ with_rules rules.items group) }
{
    if rules.len() == 0 {
        return Ok(group);
    }
    let permissions = by_direction(alloc, rules)?;
    Ok(Group {
        id: group.id,
        vpc: group.vpc,
        inward: OwnList::of(permissions.inward),
        outward: OwnList::of(permissions.outward),
    })
}

fn no_shares(alloc: Global, groups: &[Group]) -> Result<Vec<Vec<GroupRule>>, AllocError>
    ensures { IfOk result (λ v. map (λ s. s.items) v.items ≡ map (λ g. []) groups.now) }
{
    let mut shares = Vec::with_capacity(alloc, groups.len())?;
    for _group in groups {
        shares.push(Vec::new(alloc))?;
    }
    Ok(shares)
}

// What memory refuses is dropped.
fn hand_out(shares: &mut Vec<Vec<GroupRule>>, rule: GroupRule) -> Result<(), AllocError>
    ensures { OnOk result (map (λ s. s.items) shares.new.items
        ≡ handed 0 rule (map (λ s. s.items) shares.old.items)) }
{
    let number = rule.number;
    if number < shares.len() {
        shares[number].push(rule)?;
    }
    Ok(())
}

// The rules of each group, in one pass.
#[tactic(auto, using(crate::proofs::ShareLemmas::shared))]
fn shares_of(
    alloc: Global,
    groups: &[Group],
    rules: Vec<GroupRule>,
) -> Result<Vec<Vec<GroupRule>>, AllocError>
    ensures { IfOk result (λ v. map (λ s. s.items) v.items ≡ shares_from 0 rules.items groups.now) }
{
    let mut shares = no_shares(alloc, groups)?;
    for rule in rules {
        hand_out(&mut shares, rule)?;
    }
    Ok(shares)
}

fn with_share(
    alloc: Global,
    share: Option<Vec<GroupRule>>,
    group: Group,
) -> Result<Group, AllocError>
    ensures { IfOk result (λ g. g ≡ with_rules (unwrap_or (option_map (λ s. s.items) share) []) group) }
{
    match share {
        Some(rules) => with_rules(alloc, rules, group),
        None => Ok(group),
    }
}

// What memory refuses is dropped.
fn add(groups: &mut Vec<Group>, group: Group) -> Result<(), AllocError>
    ensures { OnOk result (groups.new.items ≡ groups.old.items ++ group ∷ []) }
{
    groups.push(group)?;
    Ok(())
}

fn with_shares(
    alloc: Global,
    shares: Vec<Vec<GroupRule>>,
    groups: Vec<Group>,
) -> Result<Vec<Group>, AllocError>
    ensures { IfOk result (λ v. v.items ≡ with_shares (map (λ s. s.items) shares.items) groups.items) }
{
    let mut all = Vec::with_capacity(alloc, groups.len())?;
    let mut left = shares.into_iter();
    for group in groups {
        add(&mut all, with_share(alloc, left.next(), group)?)?;
    }
    Ok(all)
}

#[tactic(auto, using(crate::proofs::ShareLemmas::shared))]
fn with_all_rules(
    alloc: Global,
    rules: Vec<GroupRule>,
    groups: Vec<Group>,
) -> Result<Vec<Group>, AllocError>
    ensures { IfOk result (λ v. v.items ≡ groups_from 0 rules.items groups.items) }
{
    let shares = shares_of(alloc, groups.as_slice(), rules)?;
    with_shares(alloc, shares, groups)
}

/// The groups with the rules that a bundle's `SecurityGroupRules` tell of them (EC2 API,
/// DescribeSecurityGroupRules), and the first fault where one can't be read: no groups are handed back
/// then. A group of which a rule is kept has those rules, in order, in place of its permissions; any
/// other keeps its own; of groups with one id, the first counts. Rules of IPv6, of groups that aren't
/// described, and those with the id of an earlier one that is kept are left out. It takes time linear in
/// the bundle and the groups.
pub fn read_group_rules(
    alloc: Global,
    bundle: &Value,
    groups: Vec<Group>,
) -> Result<Vec<Group>, FieldFault>
    ensures { Reads (λ v. v.items) (group_rules_of (view bundle.now) groups.items) result }
{
    let rules = rules_of(alloc, bundle, groups.as_slice())?;
    Ok(with_all_rules(alloc, rules, groups)?)
}
