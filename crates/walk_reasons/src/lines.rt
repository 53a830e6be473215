// The lines of what decides.
ghost use Rattle.std.specs.Prelude.{◌≡◌, ◌++◌, IsTrue, OnOk, codes};
ghost use Rattle.block_report.specs.Hops.{dir_text, rule_at, rule_name};
ghost use Rattle.block_report.specs.Words.{word};
ghost use Rattle.vpc_model.specs.Groups.{permissions_of};
ghost use Rattle.vpc_model.specs.Sound.{is_rule};
ghost use Rattle.walk_reasons.specs.Reasons.{acl_words, group_line, place_words, says};

use block_report::{put, put_end, put_number_word, put_word};
use reference_check::Network;
use vpc_base::{Dir, NoMemory};
use vpc_model::{Group, Permission, RuleRef};

fn dir_text(dir: Dir) -> &'static [u8]
    ensures { result.now ≡ dir_text dir }
{
    match dir {
        Dir::Inward => b"in",
        Dir::Outward => b"out",
    }
}

// Appends a group or an ACL by its id, and a direction.
fn put_place(out: &mut Vec<u8>, kind: &[u8], id: &[u8], dir: Dir) -> Result<(), NoMemory>
    ensures { OnOk result (out.new.items ≡ out.old.items ++ place_words kind.now id.now dir) }
{
    put(out, kind)?;
    put_word(out, id)?;
    put_word(out, dir_text(dir))
}

// ---- rules of groups

fn permissions_of(group: &Group, dir: Dir) -> &[Permission]
    ensures { result.now ≡ permissions_of dir group.now }
{
    match dir {
        Dir::Inward => group.inward.as_slice(),
        Dir::Outward => group.outward.as_slice(),
    }
}

// The rule that is told by a number, from 1.
fn permission_at<'a>(n: &'a Network, r: &RuleRef) -> &'a Permission
    requires { IsTrue (is_rule n.now r.now) }
    ensures { result.now ≡ rule_at n.now r.now }
{
    let group = n.group_at(r.group);
    &permissions_of(group, r.dir)[r.number as usize - 1]
}

// The id of a rule that was told with one, else its number.
fn put_rule_name(out: &mut Vec<u8>, n: &Network, r: &RuleRef) -> Result<(), NoMemory>
    requires { IsTrue (is_rule n.now r.now) }
    ensures { OnOk result (out.new.items ≡ out.old.items ++ word (rule_name n.now r.now)) }
{
    match &permission_at(n, r).id {
        Some(id) => put_word(out, id.bytes()),
        None => put_number_word(out, u128::from(r.number)),
    }
}

/// Appends the line of a rule of a group: the group, the direction, and the rule's id or else its number.
pub fn put_group_line(out: &mut Vec<u8>, n: &Network, r: &RuleRef) -> Result<(), NoMemory>
    requires { IsTrue (is_rule n.now r.now) }
    ensures { OnOk result (out.new.items ≡ out.old.items ++ group_line n.now r.now) }
{
    put_place(out, b"group", n.group_at(r.group).id.bytes(), r.dir)?;
    put_rule_name(out, n, r)?;
    put_end(out)
}

// ---- verdicts of ACLs

fn says(allow: bool) -> &'static [u8]
    ensures { result.now ≡ says allow }
{
    if allow { b"allow" } else { b"deny" }
}

/// Appends the line of a verdict by the id of its ACL: the direction, the number of the rule that decided, and whether it lets
/// the packet pass.
pub fn put_acl_line(
    out: &mut Vec<u8>,
    id: &[u8],
    dir: Dir,
    verdict: (bool, u16),
) -> Result<(), NoMemory>
    ensures { OnOk result (out.new.items ≡ out.old.items ++ acl_words id.now dir verdict) }
{
    put_place(out, b"acl", id, dir)?;
    put_number_word(out, u128::from(verdict.1))?;
    put_word(out, says(verdict.0))?;
    put_end(out)
}
