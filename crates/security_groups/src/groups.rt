// Which rule of some groups allows a packet.
ghost use Rattle.std.specs.Prelude.{◌≡◌, ◌≤◌, IfSome, false, length, option_map, true};
ghost use Rattle.box_images.specs.Answers.{Answers};
ghost use Rattle.box_images.specs.Images.{IsImageOfWalk, IsValidImage, header_at};
ghost use Rattle.security_groups.specs.Asking.{first_in_group, first_of, rules_of};
ghost use Rattle.security_groups.specs.Dividing.{DivideGroups, IsAllowedOn, any_group_allows, rules_in};
ghost use Rattle.security_groups.specs.Rules.{DivideRules, any_allows};

use crate::members::Members;
use crate::tables::RuleTable;
use address_sets::AddressSet;
use box_images::{Image, Part};
use header_boxes::Box5;
use vpc_base::{Dir, Header};
use vpc_model::{GroupNo, RuleRef};

/// The rules of a security group, as they count in one VPC.
pub struct GroupRules {
    pub group: GroupNo,
    pub inward: RuleTable,
    pub outward: RuleTable,
}

impl Drop for GroupRules {
    fn drop(self) {
        let GroupRules {
            group: _,
            inward,
            outward,
        } = self;
        drop(inward);
        drop(outward);
    }
}

/// The rules of a group in a direction.
pub fn rules_of(rules: &GroupRules, dir: Dir) -> &RuleTable
    ensures { result.now ≡ rules_of dir rules.now }
{
    match dir {
        Dir::Inward => &rules.inward,
        Dir::Outward => &rules.outward,
    }
}

// The first rule of a group that allows the packet.
fn first_in_group(
    lists: &[AddressSet],
    members: &Members,
    groups: &[GroupRules],
    group: u32,
    dir: Dir,
    h: &Header,
) -> Option<RuleRef>
    ensures { result ≡ first_in_group lists.now members.now groups.now dir h.now group }
{
    if group as usize >= groups.len() {
        return None;
    }
    let set = &groups[group as usize];
    let rules = rules_of(set, dir);
    match rules.least_allowing(lists, members, dir, h) {
        Some(number) => Some(RuleRef {
            group: set.group,
            dir,
            number,
        }),
        None => None,
    }
}

/// The first rule of some groups that allows the packet, in their order and that of their rules.
pub fn first_of(
    lists: &[AddressSet],
    members: &Members,
    groups: &[GroupRules],
    named: &[u32],
    dir: Dir,
    h: &Header,
) -> Option<RuleRef>
    ensures { result ≡ first_of lists.now members.now groups.now dir h.now named.now }
{
    for group in named {
        let rule = first_in_group(lists, members, groups, *group, dir, h);
        if rule.is_some() {
            return rule;
        }
    }
    None
}

// Whether one of a group's rules allows the headers of an image. A group that isn't described leaves the body as it is.
fn any_in_group_on(
    lists: &[AddressSet],
    members: &Members,
    groups: &[GroupRules],
    group: u32,
    dir: Dir,
    i: &Image,
) -> Part<bool>
    requires valid { IsValidImage i.now }
    requires walk { IsImageOfWalk i.now }
    ensures answers { Answers (DivideRules lists.now members.now (rules_in groups.now dir group))
        (λ h. any_allows lists.now members.now dir (rules_in groups.now dir group) (header_at i.now h))
        i.now.part result }
    ensures undescribed { length groups.now ≤ group → result ≡ (record { body = i.now.part; told = false }) }
{
    if group as usize >= groups.len() {
        return Part {
            body: i.part,
            told: false,
        };
    }
    rules_of(&groups[group as usize], dir).any_allows_on(lists, members, dir, i)
}

// The body on which rules of the group allow the headers of an image, where they allow the low corner.
fn body_by_group(
    lists: &[AddressSet],
    members: &Members,
    groups: &[GroupRules],
    group: u32,
    dir: Dir,
    i: &Image,
) -> Option<Box5>
    requires valid { IsValidImage i.now }
    requires walk { IsImageOfWalk i.now }
    ensures { IfSome result
        (IsAllowedOn lists.now members.now dir (rules_in groups.now dir group) i.now) }
{
    if group as usize >= groups.len() {
        return None;
    }
    rules_of(&groups[group as usize], dir).allowed_on(lists, members, dir, i)
}

// A body on which some rule of some of the groups allows all headers, if one is found.
fn body_by_groups(
    lists: &[AddressSet],
    members: &Members,
    groups: &[GroupRules],
    named: &[u32],
    dir: Dir,
    i: &Image,
) -> Option<Box5>
    requires valid { IsValidImage i.now }
    requires walk { IsImageOfWalk i.now }
    ensures { IfSome result
        (λ b. Answers (DivideGroups lists.now members.now groups.now dir named.now)
        (λ h. any_group_allows lists.now members.now groups.now dir named.now (header_at i.now h))
        i.now.part (record { body = b; told = true })) }
{
    for group in named {
        let body = body_by_group(lists, members, groups, *group, dir, i);
        if let Some(body) = body {
            return Some(body);
        }
    }
    None
}

// Whether one of some groups' rules allows them, on a body of all groups.
fn each_group_on(
    lists: &[AddressSet],
    members: &Members,
    groups: &[GroupRules],
    named: &[u32],
    dir: Dir,
    i: &Image,
) -> Part<bool>
    requires valid { IsValidImage i.now }
    requires walk { IsImageOfWalk i.now }
    ensures { Answers (DivideGroups lists.now members.now groups.now dir named.now)
        (λ h. any_group_allows lists.now members.now groups.now dir named.now (header_at i.now h))
        i.now.part result }
{
    let mut rest = *i;
    for group in named {
        let allowed = any_in_group_on(lists, members, groups, *group, dir, &rest);
        if allowed.told {
            return Part {
                body: allowed.body,
                told: true,
            };
        }
        rest = rest.within(&allowed.body);
    }
    Part {
        body: rest.part,
        told: false,
    }
}

/// Whether one of some groups' rules allows the headers of an image. Where one allows the low corner, the
/// body is as large as that rule leaves it, with those of its group, protocol and ports.
pub fn any_of_on(
    lists: &[AddressSet],
    members: &Members,
    groups: &[GroupRules],
    named: &[u32],
    dir: Dir,
    i: &Image,
) -> Part<bool>
    requires valid { IsValidImage i.now }
    requires walk { IsImageOfWalk i.now }
    ensures { Answers (DivideGroups lists.now members.now groups.now dir named.now)
        (λ h. any_group_allows lists.now members.now groups.now dir named.now (header_at i.now h))
        i.now.part result }
{
    match body_by_groups(lists, members, groups, named, dir, i) {
        Some(body) => Part { body, told: true },
        None => each_group_on(lists, members, groups, named, dir, i),
    }
}
