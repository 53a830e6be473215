// Whether a rule allows a packet.
ghost use Rattle.std.specs.Prelude.{◌≡◌};
ghost use Rattle.std.specs.List.{list_any};
ghost use Rattle.address_sets.specs.Runs.{is_in};
ghost use Rattle.security_groups.specs.Rules.{allows, has_entry, has_member, names};

use crate::members::Members;
use crate::rules::Rule;
use address_sets::AddressSet;
use number_tables::key_of;
use vpc_base::{Dir, Header};
use vpc_model::{far_address, is_between, matches_proto};

fn has_entry(lists: &[AddressSet], list: u32, a: u32) -> bool
    ensures { result ≡ has_entry lists.now a list }
{
    let list = list as usize;
    if list < lists.len() {
        lists[list].has(a)
    } else {
        false
    }
}

fn any_entry(lists: &[AddressSet], named: &[u32], a: u32) -> bool
    ensures { result ≡ list_any (has_entry lists.now a) named.now }
{
    for list in named {
        if has_entry(lists, *list, a) {
            return true;
        }
    }
    false
}

fn has_member(members: &Members, group: u32, a: u32) -> bool
    ensures { result ≡ has_member members.now a group }
{
    members.keys().has(key_of(group, a)) || has_entry(members.blocks(), group, a)
}

fn any_member(members: &Members, named: &[u32], a: u32) -> bool
    ensures { result ≡ list_any (has_member members.now a) named.now }
{
    for group in named {
        if has_member(members, *group, a) {
            return true;
        }
    }
    false
}

// Whether a rule names an address.
fn names(lists: &[AddressSet], members: &Members, rule: &Rule, a: u32) -> bool
    ensures { result ≡ names lists.now members.now a rule.now }
{
    rule.blocks.has(a)
        || (any_entry(lists, rule.lists.as_slice(), a)
            || any_member(members, rule.groups.as_slice(), a))
}

/// Whether a rule allows a packet.
pub fn allows(lists: &[AddressSet], members: &Members, rule: &Rule, dir: Dir, h: &Header) -> bool
    ensures { result ≡ allows lists.now members.now dir h.now rule.now }
{
    matches_proto(rule.proto, h.proto)
        && (is_between(rule.q_from, rule.q_to, h.q)
            && names(lists, members, rule, far_address(dir, h)))
}
