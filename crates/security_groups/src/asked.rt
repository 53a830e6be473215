// The pairs of VPCs over which inward rules name groups.
use crate::attached::NumberPairs;
use crate::members::number_of;
use crate::sets::FurtherSets;
use crate::vpcs::GroupVpcs;
use reference_check::Network;
use std::alloc::{AllocError, Global};
use vpc_model::{Group, Id, Permission};

// The number of a group's own VPC, where the group is described.
fn vpc_of_group(n: &Network, vpcs: &GroupVpcs, id: &Id) -> Option<u32> {
    let group = number_of(n, id)?;
    vpcs.own.as_slice().get(group as usize).copied()
}

// Adds the own VPCs of the groups that a rule names, each with the VPC in which the rule counts.
fn add_rule(
    n: &Network,
    vpcs: &GroupVpcs,
    pairs: &mut NumberPairs,
    rule: &Permission,
    vpc: u32,
) -> Result<(), AllocError> {
    for id in rule.groups.as_slice() {
        if let Some(own) = vpc_of_group(n, vpcs, id) {
            pairs.add(own, vpc)?;
        }
    }
    Ok(())
}

// Adds what the inward rules of a group ask where they count in a VPC.
fn add_rules(
    n: &Network,
    vpcs: &GroupVpcs,
    pairs: &mut NumberPairs,
    group: &Group,
    vpc: u32,
) -> Result<(), AllocError> {
    for rule in group.inward.as_slice() {
        add_rule(n, vpcs, pairs, rule, vpc)?;
    }
    Ok(())
}

// Adds what the rules of each group ask in its own VPC.
fn add_own(n: &Network, vpcs: &GroupVpcs, pairs: &mut NumberPairs) -> Result<(), AllocError> {
    for (k, group) in n.description().groups.as_slice().iter().enumerate() {
        if let Some(vpc) = vpcs.own.as_slice().get(k) {
            add_rules(n, vpcs, pairs, group, *vpc)?;
        }
    }
    Ok(())
}

// Adds what the rules of groups ask in further VPCs.
fn add_further(
    n: &Network,
    vpcs: &GroupVpcs,
    pairs: &mut NumberPairs,
    further: &FurtherSets,
) -> Result<(), AllocError> {
    for k in 0..further.len() {
        let (number, vpc) = further.at(k);
        if let Some(group) = n.description().groups.as_slice().get(number as usize) {
            add_rules(n, vpcs, pairs, group, vpc)?;
        }
    }
    Ok(())
}

/// The own VPC of each group that an inward rule names, with the VPC in which the rule counts, where the two differ.
pub fn asked_pairs(
    alloc: Global,
    n: &Network,
    vpcs: &GroupVpcs,
    further: &FurtherSets,
) -> Result<NumberPairs, AllocError> {
    let mut pairs = NumberPairs::none(alloc);
    add_own(n, vpcs, &mut pairs)?;
    add_further(n, vpcs, &mut pairs, further)?;
    Ok(pairs)
}
