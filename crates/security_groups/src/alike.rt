// Groups that let in the same in two networks.
ghost use Rattle.std.specs.Prelude.{◌≡◌, IfOk, IfSome, IsTrue, None, slice_index_or, ℕ};
ghost use Rattle.std.specs.List.{AllZip};
ghost use Rattle.vpc_base.specs.declared.headers.Dir.TheVariants as dirs;
ghost use Rattle.security_groups.specs.Alike.{AreTwins, HasSameBlocks, HasSameKeys, HasSameMembers, IsSameList, IsTwin, LetsInSame, MatchesSame};
ghost use Rattle.security_groups.specs.Dividing.{rules_in};
ghost use Rattle.security_groups.specs.Rules.{has_entry};

use crate::building::list_no;
use crate::groups::{GroupRules, rules_of};
use crate::index::GroupIndex;
use crate::joined_rules::are_alike;
use crate::lists::numbers_of_lists;
use crate::rules::Rule;
use address_sets::AddressSet;
use number_tables::key_of;
use reference_check::Network;
use std::alloc::{AllocError, Global};
use std::marker::Model;
use vpc_base::{Dir, NoMemory};
use vpc_model::{EniNo, GroupNo};

// ---- twins by their numbers

fn twin_of(twins: &[Option<u32>], number: u32) -> Option<u32>
    ensures { result ≡ slice_index_or twins.now number None }
{
    let number = number as usize;
    if number >= twins.len() {
        return None;
    }
    twins[number]
}

fn is_twin(twins: &[Option<u32>], number: u32, other: u32) -> bool
    ensures { IsTrue result → IsTwin twins.now number other }
{
    match twin_of(twins, number) {
        Some(twin) => twin == other,
        None => false,
    }
}

// Whether the twins of some numbers are these others, place by place.
fn are_twins(twins: &[Option<u32>], numbers: &[u32], others: &[u32]) -> bool
    ensures { IsTrue result → AllZip (IsTwin twins.now) numbers.now others.now }
{
    if numbers.len() != others.len() {
        return false;
    }
    for k in 0..numbers.len() {
        if !is_twin(twins, numbers[k], others[k]) {
            return false;
        }
    }
    true
}

// ---- prefix lists

// Whether two of some sets are there and have the same addresses.
fn is_same_set(lists: &[AddressSet], list: usize, others: &[AddressSet], twin: usize) -> bool
    ensures { IsTrue result → (a : ℕ) → has_entry lists.now a list ≡ has_entry others.now a twin }
{
    list < lists.len() && twin < others.len() && lists[list].is_same(&others[twin])
}

fn is_same_list(one: &GroupIndex, other: &GroupIndex, list: usize, twin: u32) -> bool
    ensures { IsTrue result → IsSameList one.now other.now list twin }
{
    is_same_set(one.lists(), list, other.lists(), twin as usize)
}

fn twin_of_list(one: &GroupIndex, other: &GroupIndex, list: usize, twin: Option<u32>) -> Option<u32>
    ensures { IfSome result (IsSameList one.now other.now list) }
{
    let twin = twin?;
    if is_same_list(one, other, list, twin) {
        Some(twin)
    } else {
        None
    }
}

// The twin of a prefix list is the one with its id, if that has its addresses.
fn twins_of_lists(
    alloc: Global,
    before: &Network,
    one: &GroupIndex,
    after: &Network,
    other: &GroupIndex,
) -> Result<Vec<Option<u32>>, AllocError>
    ensures { IfOk result (λ v. AreTwins (IsSameList one.now other.now) v.items) }
{
    let numbers = numbers_of_lists(alloc, after)?;
    let mut twins = Vec::new(alloc);
    for list in before.description().lists.as_slice() {
        let with_id = list_no(after, &numbers, &list.id);
        let twin = twin_of_list(one, other, twins.len(), with_id);
        twins.push(twin)?;
    }
    Ok(twins)
}

// ---- members

fn has_same_keys(one: &GroupIndex, other: &GroupIndex, group: u32, twin: u32) -> bool
    ensures { IsTrue result → HasSameKeys one.now other.now group twin }
{
    let most = u64::from(u32::MAX);
    let others = other.members().keys();
    one.members()
        .keys()
        .is_same_above(key_of(group, 0), others, key_of(twin, 0), most)
}

fn has_same_blocks(one: &GroupIndex, other: &GroupIndex, group: u32, twin: u32) -> bool
    ensures { IsTrue result → HasSameBlocks one.now other.now group twin }
{
    let blocks = one.members().blocks();
    let others = other.members().blocks();
    is_same_set(blocks, group as usize, others, twin as usize)
}

fn has_same_members(one: &GroupIndex, other: &GroupIndex, group: u32, twin: u32) -> bool
    ensures { IsTrue result → HasSameMembers one.now other.now group twin }
{
    has_same_keys(one, other, group, twin) && has_same_blocks(one, other, group, twin)
}

fn twin_of_members(
    one: &GroupIndex,
    other: &GroupIndex,
    group: usize,
    twin: Option<GroupNo>,
) -> Option<u32>
    ensures { IfSome result (HasSameMembers one.now other.now group) }
{
    let twin = twin?.0;
    if group <= u32::MAX as usize && has_same_members(one, other, group as u32, twin) {
        Some(twin)
    } else {
        None
    }
}

// Here the twin of a group is the one with its id, if that has its members, whatever the rules of both are.
fn twins_of_members(
    alloc: Global,
    before: &Network,
    one: &GroupIndex,
    after: &Network,
    other: &GroupIndex,
) -> Result<Vec<Option<u32>>, AllocError>
    ensures { IfOk result (λ v. AreTwins (HasSameMembers one.now other.now) v.items) }
{
    let mut twins = Vec::new(alloc);
    for group in before.description().groups.as_slice() {
        let with_id = after.group(group.id.bytes());
        let twin = twin_of_members(one, other, twins.len(), with_id);
        twins.push(twin)?;
    }
    Ok(twins)
}

// ---- rules

// What rules name in two networks, and the twins of it.
struct NameTwins<'a> {
    one: &'a GroupIndex,
    other: &'a GroupIndex,
    lists: Vec<Option<u32>>,
    members: Vec<Option<u32>>,
    ghost same_lists: { AreTwins (IsSameList one.now other.now) lists.items },
    ghost same_members: { AreTwins (HasSameMembers one.now other.now) members.items },
}

impl<'a> Drop for NameTwins<'a> {
    fn drop(self) {
        let NameTwins {
            one: _,
            other: _,
            lists,
            members,
        } = self;
        drop(lists);
        drop(members);
    }
}

fn matches_same(names: &NameTwins, rule: &Rule, other: &Rule) -> bool
    ensures { IsTrue result → MatchesSame names.now.one.now names.now.other.now rule.now other.now }
{
    if !are_alike(rule, other) {
        return false;
    }
    if !rule.blocks.is_same(&other.blocks) {
        return false;
    }
    let lists = are_twins(
        names.lists.as_slice(),
        rule.lists.as_slice(),
        other.lists.as_slice(),
    );
    let groups = are_twins(
        names.members.as_slice(),
        rule.groups.as_slice(),
        other.groups.as_slice(),
    );
    lists && groups
}

fn all_match_same(names: &NameTwins, rules: &[Rule], others: &[Rule]) -> bool
    ensures { IsTrue result
        → AllZip (MatchesSame names.now.one.now names.now.other.now) rules.now others.now }
{
    if rules.len() != others.len() {
        return false;
    }
    for k in 0..rules.len() {
        if !matches_same(names, &rules[k], &others[k]) {
            return false;
        }
    }
    true
}

// ---- groups

// The rules by which a group lets requests in.
fn inward_rules(groups: &[GroupRules], group: usize) -> &[Rule]
    ensures { result.now ≡ rules_in groups.now dirs.Inward group }
{
    if group >= groups.len() {
        return &[];
    }
    rules_of(&groups[group], Dir::Inward).as_slice()
}

fn lets_in_same(names: &NameTwins, group: usize, twin: u32) -> bool
    ensures { IsTrue result → LetsInSame names.now.one.now names.now.other.now group twin }
{
    all_match_same(
        names,
        inward_rules(names.one.groups(), group),
        inward_rules(names.other.groups(), twin as usize),
    )
}

fn twin_of_group(names: &NameTwins, group: usize, twin: Option<GroupNo>) -> Option<u32>
    ensures { IfSome result (LetsInSame names.now.one.now names.now.other.now group) }
{
    let twin = twin?.0;
    if lets_in_same(names, group, twin) {
        Some(twin)
    } else {
        None
    }
}

// The twin of a group is the one with its id, if that lets in the same.
fn twins_of_groups(
    alloc: Global,
    before: &Network,
    after: &Network,
    names: &NameTwins,
) -> Result<Vec<Option<u32>>, AllocError>
    ensures { IfOk result (λ v. AreTwins (LetsInSame names.now.one.now names.now.other.now) v.items) }
{
    let mut twins = Vec::new(alloc);
    for group in before.description().groups.as_slice() {
        let with_id = after.group(group.id.bytes());
        let twin = twin_of_group(names, twins.len(), with_id);
        twins.push(twin)?;
    }
    Ok(twins)
}

/// Which groups of one network let in what a group of another does, as far as equal rules tell: found once for all interfaces.
/// Contracts see what the indexes of both networks hold.
pub struct AlikeGroups<'a> {
    one: &'a GroupIndex,
    other: &'a GroupIndex,
    twins: Vec<Option<u32>>,
}

impl<'a> Drop for AlikeGroups<'a> {
    fn drop(self) {
        let AlikeGroups {
            one: _,
            other: _,
            twins,
        } = self;
        drop(twins);
    }
}

impl<'a> Model for AlikeGroups<'a> {
    ghost use Rattle.security_groups.specs.Alike.{AreTwins, BothGroups, LetsInSame};

    ghost Value = { BothGroups };

    ghost view = { λ g. record { one = g.one.now; other = g.other.now } };

    ghost invariant = { λ g. AreTwins (LetsInSame g.one.now g.other.now) g.twins.items };
}

impl<'a> AlikeGroups<'a> {
    ghost use Rattle.std.specs.Prelude.{◌≡◌, IfOk, IsTrue};
    ghost use Rattle.security_groups.specs.Alike.{GroupsLetInSame};

    /// Compares the groups of one id in two networks, by the index of each. It takes time n log n in the rows of both and in what
    /// their indexes hold.
    pub fn of(
        alloc: Global,
        before: &Network,
        one: &'a GroupIndex,
        after: &Network,
        other: &'a GroupIndex,
    ) -> Result<AlikeGroups<'a>, NoMemory>
        ensures one { IfOk result (λ g. g.one ≡ one.now) }
        ensures other { IfOk result (λ g. g.other ≡ other.now) }
    {
        let lists = twins_of_lists(alloc, before, one, after, other)?;
        let members = twins_of_members(alloc, before, one, after, other)?;
        let names = NameTwins {
            one,
            other,
            lists,
            members,
        };
        let twins = twins_of_groups(alloc, before, after, &names)?;
        Ok(AlikeGroups { one, other, twins })
    }

    /// Whether the groups of an interface of the first network let in what those of one of the second do: they are as many, and
    /// place by place let in the same. It compares their numbers alone.
    pub fn let_in_same(&self, e: EniNo, i: EniNo) -> bool
        ensures { IsTrue result → GroupsLetInSame self.now e i }
    {
        are_twins(
            self.twins.as_slice(),
            self.one.groups_of(e),
            self.other.groups_of(i),
        )
    }
}
