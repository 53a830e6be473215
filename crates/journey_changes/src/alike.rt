// Interfaces of two networks that let in the same.
ghost use Rattle.std.specs.Prelude.{◌≡◌, IsTrue};
ghost use Rattle.journey_changes.specs.Alike.{AskAlike, LetInAlike, has_groups};
ghost use Rattle.security_groups.specs.Index.{HasRulesOf};
ghost use Rattle.vpc_model.specs.Sound.{is_eni};

use fabric::Fabric;
use fabric::rows::interface_at;
use prefix_text::Prefix;
use security_groups::AlikeGroups;
use vpc_model::{EniNo, Interface};

fn has_groups(row: &Interface) -> bool
    ensures { result ≡ has_groups row.now.groups }
{
    match row.groups.as_slice() {
        [] => false,
        _ => true,
    }
}

fn same_address(one: &(u32, Option<u32>), other: &(u32, Option<u32>)) -> bool
    ensures { IsTrue result → one.now ≡ other.now }
{
    one.0 == other.0 && one.1 == other.1
}

fn same_addresses(one: &[(u32, Option<u32>)], other: &[(u32, Option<u32>)]) -> bool
    ensures { IsTrue result → one.now ≡ other.now }
{
    if one.len() != other.len() {
        return false;
    }
    for k in 0..one.len() {
        if !same_address(&one[k], &other[k]) {
            return false;
        }
    }
    true
}

fn same_block(one: &Prefix, other: &Prefix) -> bool
    ensures { IsTrue result → one.now ≡ other.now }
{
    one.first() == other.first() && one.length() == other.length()
}

fn same_blocks(one: &[Prefix], other: &[Prefix]) -> bool
    ensures { IsTrue result → one.now ≡ other.now }
{
    if one.len() != other.len() {
        return false;
    }
    for k in 0..one.len() {
        if !same_block(&one[k], &other[k]) {
            return false;
        }
    }
    true
}

fn ask_alike(one: &Interface, other: &Interface) -> bool
    ensures { IsTrue result → AskAlike one.now other.now }
{
    if one.idle != other.idle || one.checked != other.checked {
        return false;
    }
    if has_groups(one) != has_groups(other) {
        return false;
    }
    if !same_blocks(one.prefixes.as_slice(), other.prefixes.as_slice()) {
        return false;
    }
    same_addresses(one.addresses.as_slice(), other.addresses.as_slice())
}

/// Whether an interface of one network lets in what one of another does, as far as equal rows and rules tell.
pub fn let_in_alike(f: &Fabric, e: EniNo, g: &Fabric, i: EniNo, groups: &AlikeGroups) -> bool
    requires one { IsTrue (is_eni f.now e) }
    requires other { IsTrue (is_eni g.now i) }
    requires rules { HasRulesOf f.now groups.now.one }
    requires other_rules { HasRulesOf g.now groups.now.other }
    ensures { IsTrue result → LetInAlike f.now e g.now i }
{
    ask_alike(interface_at(f, e), interface_at(g, i)) && groups.let_in_same(e, i)
}
