// The index of a network's security groups.
ghost use Rattle.std.specs.Prelude.{◌≡◌, IfOk};
ghost use Rattle.security_groups.specs.Members.{HasGroupsOf};
ghost use Rattle.security_groups.specs.Resolved.{AreAsked, HasListsOf};

use crate::asked::asked_pairs;
use crate::building::{Named, rule_sets};
use crate::groups::{GroupRules, any_of_on, first_of};
use crate::lists::entries_of;
use crate::members::{Members, Membership};
use crate::sets::{FurtherSets, place_all};
use address_sets::AddressSet;
use box_images::{Image, Part};
use reference_check::Network;
use std::alloc::{AllocError, Global};
use std::marker::Model;
use vpc_base::{Dir, Header, NoMemory, OwnList};
use vpc_model::{EniNo, RuleRef};

// The rules of groups, with the number of their set in place of each group of an interface.
fn resolved_rules(
    alloc: Global,
    n: &Network,
    interfaces: &mut Vec<OwnList<u32>>,
) -> Result<Vec<GroupRules>, AllocError>
    requires { HasGroupsOf n.now interfaces.old.items }
    ensures { IfOk result (λ v. AreAsked n.now interfaces.new.items v.items) }
{
    let mut named = Named::of(alloc, n)?;
    let mut further = FurtherSets::none(alloc);
    place_all(alloc, n, &named.naming.vpcs, &mut further, interfaces)?;
    let asked = asked_pairs(alloc, n, &named.naming.vpcs, &further)?;
    named.naming.attached.remember(alloc, asked)?;
    let sets = rule_sets(alloc, n, &named, &further)?;
    Ok(sets)
}

// The entries of each prefix list, and the rules of each group.
struct RuleLists {
    lists: Vec<AddressSet>,
    groups: Vec<GroupRules>,
}

impl Drop for RuleLists {
    fn drop(self) {
        let RuleLists { lists, groups } = self;
        drop(lists);
        drop(groups);
    }
}

impl RuleLists {
    fn of(
        alloc: Global,
        n: &Network,
        interfaces: &mut Vec<OwnList<u32>>,
    ) -> Result<RuleLists, AllocError>
        requires { HasGroupsOf n.now interfaces.old.items }
        ensures { IfOk result (λ r. HasListsOf n.now r.lists.items interfaces.new.items r.groups.items) }
    {
        let lists = entries_of(alloc, n.description().lists.as_slice())?;
        let groups = resolved_rules(alloc, n, interfaces)?;
        Ok(RuleLists { lists, groups })
    }
}

/// The rules of a network's security groups, with what they name resolved, and each interface's groups: a set of rules for each
/// group in its own VPC, with the group's number, and one for each further VPC in which interfaces have a group.
/// Prefix lists and members of groups are shared by all rules that name them. Contracts see these lists, and
/// `of` says what the description has in their place.
pub struct GroupIndex {
    rules: RuleLists,
    membership: Membership,
}

impl Drop for GroupIndex {
    fn drop(self) {
        let GroupIndex { rules, membership } = self;
        drop(rules);
        drop(membership);
    }
}

impl Model for GroupIndex {
    ghost use Rattle.security_groups.specs.Index.{GroupLists};

    ghost Value = { GroupLists };

    ghost view = { λ i. record {
      lists = i.rules.lists.items;
      members = i.membership.members;
      groups = i.rules.groups.items;
      interfaces = i.membership.interfaces.items;
    } };
}

impl GroupIndex {
    ghost use Rattle.std.specs.Prelude.{◌≡◌, [], IfOk, is_some, slice_index_or};
    ghost use Rattle.box_images.specs.Answers.{Answers};
    ghost use Rattle.box_images.specs.Images.{IsImageOfWalk, IsValidImage, header_at};
    ghost use Rattle.security_groups.specs.Dividing.{DivideAt, HasRuleCuts};
    ghost use Rattle.security_groups.specs.Index.{HasRulesOf, allowed};

    /// The index of a network. It takes time n log n in the rows and in the pairs of a group and an address
    /// that interfaces have.
    pub fn of(alloc: Global, n: &Network) -> Result<GroupIndex, NoMemory>
        ensures rules { IfOk result (HasRulesOf n.now) }
        ensures cuts { IfOk result (HasRuleCuts n.now) }
    {
        let mut membership = Membership::of(alloc, n)?;
        let rules = RuleLists::of(alloc, n, &mut membership.interfaces)?;
        Ok(GroupIndex { rules, membership })
    }

    /// The first rule that allows a packet at an interface, in the order of the interface's groups and of
    /// their rules; none where no rule allows it (VPC User Guide, "Security group rules"). It takes no memory.
    pub fn allows(&self, e: EniNo, dir: Dir, h: &Header) -> Option<RuleRef>
        ensures { result ≡ allowed self.now e dir h.now }
    {
        let interfaces = self.membership.interfaces.as_slice();
        let e = e.0 as usize;
        if e >= interfaces.len() {
            return None;
        }
        let named = interfaces[e].as_slice();
        let lists = self.rules.lists.as_slice();
        let groups = self.rules.groups.as_slice();
        first_of(lists, &self.membership.members, groups, named, dir, h)
    }

    /// Whether a rule allows the headers of an image at an interface, on a body. It takes no memory.
    pub fn allows_on(&self, e: EniNo, dir: Dir, i: &Image) -> Part<bool>
        requires valid { IsValidImage i.now }
        requires walk { IsImageOfWalk i.now }
        ensures { Answers (DivideAt self.now e dir)
            (λ h. is_some (allowed self.now e dir (header_at i.now h))) i.now.part result }
    {
        let interfaces = self.membership.interfaces.as_slice();
        let e = e.0 as usize;
        if e >= interfaces.len() {
            return Part {
                body: i.part,
                told: false,
            };
        }
        let named = interfaces[e].as_slice();
        let lists = self.rules.lists.as_slice();
        let groups = self.rules.groups.as_slice();
        any_of_on(lists, &self.membership.members, groups, named, dir, i)
    }

    pub(crate) fn lists(&self) -> &[AddressSet]
        ensures { result.now ≡ self.now.lists }
    {
        self.rules.lists.as_slice()
    }

    pub(crate) fn members(&self) -> &Members
        ensures { result.now ≡ self.now.members }
    {
        &self.membership.members
    }

    pub(crate) fn groups(&self) -> &[GroupRules]
        ensures { result.now ≡ self.now.groups }
    {
        self.rules.groups.as_slice()
    }

    // The numbers of the sets of rules of an interface's groups.
    pub(crate) fn groups_of(&self, e: EniNo) -> &[u32]
        ensures { result.now ≡ slice_index_or self.now.interfaces e.0 [] }
    {
        let interfaces = self.membership.interfaces.as_slice();
        let e = e.0 as usize;
        if e >= interfaces.len() {
            return &[];
        }
        interfaces[e].as_slice()
    }
}
