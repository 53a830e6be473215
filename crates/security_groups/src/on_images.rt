// Whether a rule allows the headers of an image.
ghost use Rattle.std.specs.Prelude.{◌≡◌, ◌≤◌, ◌↔◌, All, IfNone, IfSome, IsTrue, false, true};
ghost use Rattle.std.specs.List.{list_any};
ghost use Rattle.box_images.specs.Answers.{Answers};
ghost use Rattle.box_images.specs.Fields.{number_of};
ghost use Rattle.box_images.specs.Images.{IsImageOfWalk, IsValidImage, header_at};
ghost use Rattle.cut_laws.specs.Dividing.{DivideTurns};
ghost use Rattle.header_boxes.specs.Boxes.{holds};
ghost use Rattle.image_tests.specs.Tests.{IsAddressSide};
ghost use Rattle.vpc_base.specs.declared.headers.Header.{Header};
ghost use Rattle.security_groups.specs.Dividing.{AllowsNone, IsStretchOf, lists_name};
ghost use Rattle.security_groups.specs.Rules.{DivideMember, DivideRule, allows, has_entry, has_member, names};

use crate::members::Members;
use crate::rules::Rule;
use address_sets::AddressSet;
use box_images::{Image, Part, Side};
use image_tests::{far_side, low_on, members_from, proto_on, rule_on, up_to};
use vpc_base::Dir;

// How far from an address on a prefix list has all addresses, or none.
fn entries_from(lists: &[AddressSet], list: u32, address: u32) -> (u32, bool)
    ensures { IsStretchOf (DivideTurns (λ a. has_entry lists.now a list))
        (λ a. has_entry lists.now a list) address result }
{
    let list = list as usize;
    if list < lists.len() {
        lists[list].stretch(address)
    } else {
        (u32::MAX, false)
    }
}

fn any_entry_from(lists: &[AddressSet], named: &[u32], address: u32) -> (u32, bool)
    ensures { IsStretchOf (λ cuts. All (λ l. DivideTurns (λ a. has_entry lists.now a l) cuts) named.now)
        (λ a. list_any (has_entry lists.now a) named.now) address result }
{
    let mut last = u32::MAX;
    for list in named {
        let has = entries_from(lists, *list, address);
        if has.1 {
            return has;
        }
        last = last.min(has.0);
    }
    (last, false)
}

// How far from an address on a group has all addresses as members, or none.
fn member_from(members: &Members, group: u32, address: u32) -> (u32, bool)
    ensures { IsStretchOf (DivideMember members.now group)
        (λ a. has_member members.now a group) address result }
{
    let key = members_from(members.keys(), group, address);
    if key.1 {
        return key;
    }
    let block = entries_from(members.blocks(), group, address);
    if block.1 {
        return block;
    }
    (key.0.min(block.0), false)
}

fn any_member_from(members: &Members, named: &[u32], address: u32) -> (u32, bool)
    ensures { IsStretchOf (λ cuts. All (λ g. DivideMember members.now g cuts) named.now)
        (λ a. list_any (has_member members.now a) named.now) address result }
{
    let mut last = u32::MAX;
    for group in named {
        let has = member_from(members, *group, address);
        if has.1 {
            return has;
        }
        last = last.min(has.0);
    }
    (last, false)
}

// Whether the prefix lists or groups of a rule name an address, and how far the addresses from there on are alike.
fn listed_from(lists: &[AddressSet], members: &Members, rule: &Rule, address: u32) -> (u32, bool)
    ensures { IsStretchOf (DivideRule lists.now members.now rule.now)
        (λ a. lists_name lists.now members.now a rule.now) address result }
{
    let entry = any_entry_from(lists, rule.lists.as_slice(), address);
    if entry.1 {
        return entry;
    }
    let member = any_member_from(members, rule.groups.as_slice(), address);
    if member.1 {
        return member;
    }
    (entry.0.min(member.0), false)
}

// How far from an address on a rule names all addresses, or none.
fn named_from(lists: &[AddressSet], members: &Members, rule: &Rule, address: u32) -> (u32, bool)
    ensures { IsStretchOf (DivideRule lists.now members.now rule.now)
        (λ a. names lists.now members.now a rule.now) address result }
{
    let block = rule.blocks.stretch(address);
    if block.1 {
        return block;
    }
    let listed = listed_from(lists, members, rule, address);
    if listed.1 {
        return listed;
    }
    (block.0.min(listed.0), false)
}

// Whether a rule could name a far address of an image.
fn could_name(lists: &[AddressSet], members: &Members, rule: &Rule, dir: Dir, i: &Image) -> bool
    requires { IsValidImage i.now }
    ensures { result ≡ false → AllowsNone lists.now members.now dir i.now rule.now }
{
    let side = far_side(dir);
    let named = named_from(lists, members, rule, low_on(i, side));
    if named.1 {
        return true;
    }
    named.0 < i.greatest(side)
}

// Whether no header of an image passes a test, by the answer for a body of it.
fn none_passes(answer: &Part<bool>, i: &Image) -> bool
    ensures { IsTrue result ↔ ((answer.now.told ≡ false) × (answer.now.body ≡ i.now.part)) }
{
    !answer.told && answer.body == i.part
}

/// Whether a rule could allow a header of an image, its ports aside. It couldn't where it names none of the far
/// addresses, or where no header has its protocol.
pub fn could_allow(
    lists: &[AddressSet],
    members: &Members,
    rule: &Rule,
    dir: Dir,
    i: &Image,
) -> bool
    requires valid { IsValidImage i.now }
    requires walk { IsImageOfWalk i.now }
    ensures { result ≡ false → AllowsNone lists.now members.now dir i.now rule.now }
{
    if !could_name(lists, members, rule, dir, i) {
        return false;
    }
    !none_passes(&proto_on(i, rule.proto), i)
}

/// Whether a rule allows the headers of an image, none of which has a port below this one. None says that it allows no
/// header: it ends before that port, or names none of the far addresses. A rule whose ports fit, but that doesn't name
/// the lowest address, is told so of all protocols and ports.
pub fn allows_on(
    lists: &[AddressSet],
    members: &Members,
    rule: &Rule,
    dir: Dir,
    q: u16,
    i: &Image,
) -> Option<Part<bool>>
    requires valid { IsValidImage i.now }
    requires walk { IsImageOfWalk i.now }
    requires above { (h : Header) → holds h i.now.part ≡ true → q ≤ (header_at i.now h).q }
    ensures told { IfSome result (Answers (DivideRule lists.now members.now rule.now)
        (λ h. allows lists.now members.now dir (header_at i.now h) rule.now) i.now.part) }
    ensures none { IfNone result (AllowsNone lists.now members.now dir i.now rule.now) }
{
    if rule.q_to < q {
        return None;
    }
    let side = far_side(dir);
    let low = low_on(i, side);
    let (last, named) = named_from(lists, members, rule, low);
    if !named && i.greatest(side) <= last {
        return None;
    }
    let fits = rule_on(i, rule.proto, rule.q_from, rule.q_to);
    if !fits.told {
        return Some(fits);
    }
    if !named {
        return Some(Part {
            body: up_to(i, side, low, last),
            told: false,
        });
    }
    Some(Part {
        body: up_to(&i.within(&fits.body), side, low, last),
        told: true,
    })
}
