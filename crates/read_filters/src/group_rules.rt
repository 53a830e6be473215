// Rules that are listed separately from their groups.
ghost use Rattle.std.specs.Prelude.{◌≡◌, ◌++◌, ◌∷◌, [], IfOk, OnOk, codes, if◌then◌else◌, is_some, map, option_to_list};
ghost use Rattle.serde_json.specs.View.{view};
ghost use Rattle.json_fields.specs.FieldFault.{Reads};
ghost use Rattle.json_fields.specs.Paths.{at_row};
ghost use Rattle.reference_check.specs.FirstNumbers.{number_in};
ghost use Rattle.read_filters.specs.GroupRules.{body_of, has_target, head_of, kept_for, names_group, one_target, rule_if, rule_with, rules_from, rules_of, seen_with, target_of};

use crate::permissions::{Targets, Traffic, traffic_of};
use json_fields::{
    FieldFault, Path, SeenIds, flag_at, id_at, id_if, id_if_within, member, prefix_if, rows_of,
};
use prefix_text::Prefix;
use reference_check::FirstNumbers;
use serde_json::Value;
use std::alloc::{AllocError, Global};
use vpc_base::{NoMemory, OwnList};
use vpc_model::{Group, Id, Permission};

/// A rule of the group of a number.
#[derive(Drop)]
pub struct GroupRule {
    pub number: usize,
    pub outward: bool,
    pub permission: Permission,
}

/// What is read of each row.
#[derive(Drop)]
struct RuleHead {
    id: Id,
    group: Id,
}

/// What is read of a row that is kept.
#[derive(Drop)]
struct RuleBody {
    outward: bool,
    traffic: Traffic,
    targets: Targets,
}

fn head_of(alloc: Global, row: &Value, path: &Path) -> Result<RuleHead, FieldFault>
    ensures { Reads (λ x. x) (head_of (view row.now) path.now) result }
{
    let id = id_at(alloc, row, path, "SecurityGroupRuleId")?;
    let group = id_at(alloc, row, path, "GroupId")?;
    Ok(RuleHead { id, group })
}

fn names_group(row: &Value) -> bool
    ensures { result ≡ names_group (view row.now) }
{
    match row.get("ReferencedGroupInfo") {
        Some(info) => member(info, "GroupId").is_some(),
        None => false,
    }
}

fn has_target(row: &Value) -> bool
    ensures { result ≡ has_target (view row.now) }
{
    member(row, "CidrIpv4").is_some() || (member(row, "PrefixListId").is_some() || names_group(row))
}

fn only<T: Drop>(alloc: Global, item: T) -> Result<OwnList<T>, AllocError>
    ensures { IfOk result (λ l. l ≡ item ∷ []) }
{
    let mut items = Vec::new(alloc);
    items.push(item)?;
    Ok(OwnList::of(items))
}

fn nothing<T>(alloc: Global) -> OwnList<T>
    ensures { result ≡ [] }
{
    OwnList::of(Vec::new(alloc))
}

fn one_target(
    alloc: Global,
    block: Option<Prefix>,
    list: Option<Id>,
    group: Option<Id>,
) -> Result<Targets, NoMemory>
    ensures { IfOk result (λ t. t ≡ one_target block list group) }
{
    let (blocks, lists, groups) = (nothing(alloc), nothing(alloc), nothing(alloc));
    match (block, list, group) {
        (Some(block), _, _) => Ok(Targets {
            blocks: only(alloc, block)?,
            lists,
            groups,
        }),
        (None, Some(list), _) => Ok(Targets {
            blocks,
            lists: only(alloc, list)?,
            groups,
        }),
        (None, None, Some(group)) => Ok(Targets {
            blocks,
            lists,
            groups: only(alloc, group)?,
        }),
        (None, None, None) => Ok(Targets {
            blocks,
            lists,
            groups,
        }),
    }
}

fn target_of(alloc: Global, row: &Value, path: &Path) -> Result<Targets, FieldFault>
    ensures { Reads (λ x. x) (target_of (view row.now) path.now) result }
{
    let block = prefix_if(alloc, row, path, "CidrIpv4")?;
    let list = id_if(alloc, row, path, "PrefixListId")?;
    let group = id_if_within(alloc, row, path, "ReferencedGroupInfo", "GroupId")?;
    Ok(one_target(alloc, block, list, group)?)
}

fn body_of(alloc: Global, row: &Value, path: &Path) -> Result<RuleBody, FieldFault>
    ensures { Reads (λ x. x) (body_of (view row.now) path.now) result }
{
    let outward = flag_at(alloc, row, path, "IsEgress")?;
    let traffic = traffic_of(alloc, row, path)?;
    let targets = target_of(alloc, row, path)?;
    Ok(RuleBody {
        outward,
        traffic,
        targets,
    })
}

fn rule_with(id: Id, number: usize, body: RuleBody) -> GroupRule
    ensures { result ≡ rule_with id number body }
{
    GroupRule {
        number,
        outward: body.outward,
        permission: Permission {
            id: Some(id),
            proto: body.traffic.proto,
            q_from: body.traffic.q.first,
            q_to: body.traffic.q.last,
            blocks: body.targets.blocks,
            lists: body.targets.lists,
            groups: body.targets.groups,
        },
    }
}

// The number of the group of a row that is kept. Its id is seen then.
fn kept_for(
    numbers: &FirstNumbers,
    seen: &mut SeenIds,
    row: &Value,
    head: &RuleHead,
) -> Result<Option<usize>, NoMemory>
    ensures kept { IfOk result (λ n. n ≡ kept_for (number_in numbers.now) seen.old (view row.now) head.now) }
    ensures seen { IfOk result (λ n. seen.new
        ≡ (if is_some n then seen.old ++ head.now.id ∷ [] else seen.old)) }
{
    if !has_target(row) {
        return Ok(None);
    }
    let Some(number) = numbers.get(head.group.bytes()) else {
        return Ok(None);
    };
    if seen.is_new(&head.id)? {
        Ok(Some(number))
    } else {
        Ok(None)
    }
}

fn rule_if(
    alloc: Global,
    numbers: &FirstNumbers,
    seen: &mut SeenIds,
    row: &Value,
    path: &Path,
) -> Result<Option<GroupRule>, FieldFault>
    ensures rule { Reads (λ x. x) (rule_if (number_in numbers.now) seen.old (view row.now) path.now) result }
    ensures seen { IfOk result (λ r. seen.new ≡ seen_with seen.old r) }
{
    let head = head_of(alloc, row, path)?;
    let Some(number) = kept_for(numbers, seen, row, &head)? else {
        return Ok(None);
    };
    let body = body_of(alloc, row, path)?;
    Ok(Some(rule_with(head.id, number, body)))
}

// What memory refuses is dropped.
fn add_if(rules: &mut Vec<GroupRule>, rule: Option<GroupRule>) -> Result<(), AllocError>
    ensures { OnOk result (rules.new.items ≡ rules.old.items ++ option_to_list rule) }
{
    if let Some(rule) = rule {
        rules.push(rule)?;
    }
    Ok(())
}

// A row of the list at its place.
fn row_if(
    alloc: Global,
    numbers: &FirstNumbers,
    seen: &mut SeenIds,
    row: &Value,
    number: usize,
) -> Result<Option<GroupRule>, FieldFault>
    ensures rule { Reads (λ x. x) (rule_if (number_in numbers.now) seen.old (view row.now)
        (at_row (codes "SecurityGroupRules") number)) result }
    ensures seen { IfOk result (λ r. seen.new ≡ seen_with seen.old r) }
{
    let list = Path::list("SecurityGroupRules");
    rule_if(alloc, numbers, seen, row, &list.row(number as u64))
}

fn rules_among(
    alloc: Global,
    numbers: &FirstNumbers,
    rows: &[&Value],
) -> Result<Vec<GroupRule>, FieldFault>
    ensures { Reads (λ v. v.items) (rules_from (number_in numbers.now) [] 0
        (map (λ r. view r.now) rows.now)) result }
{
    let mut seen = SeenIds::new(alloc);
    let mut rules = Vec::new(alloc);
    for (number, row) in rows.iter().enumerate() {
        let rule = row_if(alloc, numbers, &mut seen, row, number)?;
        add_if(&mut rules, rule)?;
    }
    Ok(rules)
}

/// The rules of a bundle's `SecurityGroupRules` that are kept, in order, with the numbers of their groups.
pub fn rules_of(
    alloc: Global,
    bundle: &Value,
    groups: &[Group],
) -> Result<Vec<GroupRule>, FieldFault>
    ensures { Reads (λ v. v.items) (rules_of (view bundle.now) groups.now) result }
{
    let rows = rows_of(alloc, bundle, "SecurityGroupRules")?;
    let numbers = FirstNumbers::of(alloc, groups)?;
    rules_among(alloc, &numbers, rows.as_slice())
}
