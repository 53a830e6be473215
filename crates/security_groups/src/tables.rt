// The rules of a group and direction.
ghost use Rattle.std.specs.Prelude.{IfOk, IfSome, IsPermutation};
ghost use Rattle.security_groups.specs.Joined.{SayTheSame};

use crate::joined_rules::{has_alike, joined};
use crate::members::Members;
use crate::port_tables::PortTable;
use crate::rules::Rule;
use address_sets::AddressSet;
use box_images::{Image, Part};
use header_boxes::Box5;
use std::alloc::{AllocError, Global};
use std::marker::Model;
use vpc_base::{Dir, Header};

// Rules of one protocol and the same ports come to stand beside one another.
fn sort(rules: &mut Vec<Rule>)
    ensures { IsPermutation rules.old.items rules.new.items }
{
    rules.sort_unstable_by_key(|rule| (rule.q_from, rule.q_to, rule.proto));
}

// One rule for each protocol and ports, where some rules have them in common.
fn joined_table(alloc: Global, rules: &[Rule]) -> Result<Option<PortTable>, AllocError>
    ensures { IfOk result (λ o. IfSome o (SayTheSame rules.now)) }
{
    if !has_alike(rules) {
        return Ok(None);
    }
    let joined = joined(alloc, rules)?;
    let table = PortTable::of(alloc, joined)?;
    Ok(Some(table))
}

/// The rules of a group and direction, and where some have their protocol and ports in common, rules that say the same
/// with one in place of those: whether any rule allows a packet is asked of these, whose addresses are found by a search.
/// Contracts see the rules.
pub struct RuleTable {
    rules: PortTable,
    joined: Option<PortTable>,
}

impl Drop for RuleTable {
    fn drop(self) {
        let RuleTable { rules, joined } = self;
        drop(rules);
        drop(joined);
    }
}

impl Model for RuleTable {
    ghost use Rattle.std.specs.Prelude.{IfSome, List};
    ghost use Rattle.security_groups.specs.declared.rules.Rule.{Rule};
    ghost use Rattle.security_groups.specs.Joined.{SayTheSame};

    ghost Value = { List Rule };

    ghost view = { λ t. t.rules };

    ghost invariant = { λ t. IfSome t.joined (SayTheSame t.rules) };
}

impl RuleTable {
    ghost use Rattle.std.specs.Prelude.{◌≡◌};
    ghost use Rattle.box_images.specs.Answers.{Answers};
    ghost use Rattle.box_images.specs.Images.{IsImageOfWalk, IsValidImage, header_at};
    ghost use Rattle.security_groups.specs.Asking.{least};
    ghost use Rattle.security_groups.specs.Dividing.{IsAllowedOn};
    ghost use Rattle.security_groups.specs.Rules.{DivideRules, allows, any_allows};

    /// The table of some rules, in any order. It takes time n log n in the rules and what they name.
    pub fn of(alloc: Global, mut rules: Vec<Rule>) -> Result<RuleTable, AllocError>
        ensures { IfOk result (IsPermutation rules.items) }
    {
        sort(&mut rules);
        let joined = joined_table(alloc, rules.as_slice())?;
        let rules = PortTable::of(alloc, rules)?;
        Ok(RuleTable { rules, joined })
    }

    /// The rules, in ascending order of their first ports.
    pub fn as_slice(&self) -> &[Rule]
        ensures { result.now ≡ self.now }
    {
        self.rules.as_slice()
    }

    /// The least number of a rule that allows the packet. It asks the rules that begin at or before its
    /// port, run by run, but no run of which all rules end before it.
    pub fn least_allowing(
        &self,
        lists: &[AddressSet],
        members: &Members,
        dir: Dir,
        h: &Header,
    ) -> Option<u32>
        ensures { result ≡ least (allows lists.now members.now dir h.now) self.now }
    {
        self.rules.least_allowing(lists, members, dir, h)
    }

    /// The body on which the rules of one protocol and the same ports allow the headers of an image, where some that
    /// do allow the low corner.
    pub fn allowed_on(
        &self,
        lists: &[AddressSet],
        members: &Members,
        dir: Dir,
        i: &Image,
    ) -> Option<Box5>
        requires valid { IsValidImage i.now }
        requires walk { IsImageOfWalk i.now }
        ensures { IfSome result (IsAllowedOn lists.now members.now dir self.now i.now) }
    {
        match &self.joined {
            Some(joined) => joined.allowed_on(lists, members, dir, i),
            None => self.rules.allowed_on(lists, members, dir, i),
        }
    }

    /// Whether one of the rules allows the headers of an image.
    pub fn any_allows_on(
        &self,
        lists: &[AddressSet],
        members: &Members,
        dir: Dir,
        i: &Image,
    ) -> Part<bool>
        requires valid { IsValidImage i.now }
        requires walk { IsImageOfWalk i.now }
        ensures { Answers (DivideRules lists.now members.now self.now)
            (λ h. any_allows lists.now members.now dir self.now (header_at i.now h))
            i.now.part result }
    {
        match &self.joined {
            Some(joined) => joined.any_allows_on(lists, members, dir, i),
            None => self.rules.any_allows_on(lists, members, dir, i),
        }
    }
}
