// Rules of one protocol and the same ports, as one rule that names what any of them names.
ghost use Rattle.std.specs.Prelude.{◌++◌, ◌≡◌, ◌<◌, ◌≤◌, All, IfOk, OnOk, length, true};
ghost use Rattle.std.specs.List.{AllWithin, flat_map};
ghost use Rattle.security_groups.specs.Dividing.{rule_at};
ghost use Rattle.security_groups.specs.Joined.{AreAlike, IsJoint, SayTheSame};
ghost use Rattle.security_groups.specs.Once.{once};

use crate::once::once;
use crate::rules::Rule;
use address_sets::{AddressSet, Run};
use std::alloc::{AllocError, Global};
use vpc_base::OwnList;

/// Whether two rules are for one protocol and the same ports.
pub fn are_alike(one: &Rule, other: &Rule) -> bool
    ensures { result ≡ true → AreAlike one.now other.now }
{
    one.proto == other.proto && (one.q_from == other.q_from && one.q_to == other.q_to)
}

/// Whether two rules that stand beside one another are alike. Nothing rests on the answer but what is saved.
pub fn has_alike(rules: &[Rule]) -> bool {
    for k in 1..rules.len() {
        if are_alike(&rules[k - 1], &rules[k]) {
            return true;
        }
    }
    false
}

// Where those end, after the rule with this number, that are alike to it.
fn alike_until(rules: &[Rule], from: usize) -> usize
    requires { from < length rules.now }
    ensures some { from < result }
    ensures within { result ≤ length rules.now }
    ensures alike { AllWithin (AreAlike (rule_at rules.now from)) rules.now from result }
{
    for k in from + 1..rules.len() {
        if !are_alike(&rules[from], &rules[k]) {
            return k;
        }
    }
    rules.len()
}

fn append<T: Copy>(all: &mut Vec<T>, more: &[T]) -> Result<(), AllocError>
    ensures { OnOk result (all.new.items ≡ all.old.items ++ more.now) }
{
    all.extend_from_slice(more)?;
    Ok(())
}

// The addresses of the blocks of all rules.
fn all_runs(alloc: Global, rules: &[Rule]) -> Result<Vec<Run>, AllocError>
    ensures { IfOk result (λ v. v.items ≡ flat_map (λ r. r.blocks) rules.now) }
{
    let mut all = Vec::new(alloc);
    for rule in rules {
        append(&mut all, rule.blocks.runs())?;
    }
    Ok(all)
}

// The prefix lists of all rules, each once.
fn all_lists(alloc: Global, rules: &[Rule]) -> Result<OwnList<u32>, AllocError>
    ensures { IfOk result (λ ns. ns ≡ once (flat_map (λ r. r.lists) rules.now)) }
{
    let mut all = Vec::new(alloc);
    for rule in rules {
        append(&mut all, rule.lists.as_slice())?;
    }
    let kept = once(alloc, all.as_slice())?;
    Ok(OwnList::of(kept))
}

// The groups of all rules, each once.
fn all_groups(alloc: Global, rules: &[Rule]) -> Result<OwnList<u32>, AllocError>
    ensures { IfOk result (λ ns. ns ≡ once (flat_map (λ r. r.groups) rules.now)) }
{
    let mut all = Vec::new(alloc);
    for rule in rules {
        append(&mut all, rule.groups.as_slice())?;
    }
    let kept = once(alloc, all.as_slice())?;
    Ok(OwnList::of(kept))
}

// One rule in place of some that are alike.
fn joint(alloc: Global, rules: &[Rule]) -> Result<Rule, AllocError>
    requires some { 0 < length rules.now }
    requires alike { All (AreAlike (rule_at rules.now 0)) rules.now }
    ensures { IfOk result (IsJoint rules.now) }
{
    let first = &rules[0];
    let runs = all_runs(alloc, rules)?;
    let blocks = AddressSet::of(alloc, runs)?;
    let lists = all_lists(alloc, rules)?;
    let groups = all_groups(alloc, rules)?;
    Ok(Rule {
        number: first.number,
        proto: first.proto,
        q_from: first.q_from,
        q_to: first.q_to,
        blocks,
        lists,
        groups,
    })
}

/// Rules that say the same: one in place of those that are alike and stand beside one another.
pub fn joined(alloc: Global, rules: &[Rule]) -> Result<Vec<Rule>, AllocError>
    ensures { IfOk result (λ v. SayTheSame rules.now v.items) }
{
    let mut joined = Vec::new(alloc);
    let mut end = 0;
    for k in 0..rules.len() {
        if k == end {
            end = alike_until(rules, k);
            joined.push(joint(alloc, &rules[k..end])?)?;
        }
    }
    Ok(joined)
}
