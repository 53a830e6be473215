// Hops: a numbered line for each place that a packet comes to.
ghost use Rattle.std.specs.Prelude.{◌≡◌, ◌++◌, All, IfOk, IsTrue, OnOk};
ghost use Rattle.block_report.specs.Hops.{by_group, by_text, dir_text, hop_line, hop_lines, hop_place, place_kind, place_line, rule_at, rule_name};
ghost use Rattle.block_report.specs.Words.{word};
ghost use Rattle.vpc_laws.specs.Sound.{IsSoundHop};
ghost use Rattle.vpc_model.specs.Groups.{permissions_of};
ghost use Rattle.vpc_model.specs.Sound.{has_rule, is_rule};
ghost use Rattle.vpc_model.specs.declared.outcomes.By.TheVariants as bys;

use crate::places::{place_id, place_kind};
use crate::words::{put, put_end, put_header_word, put_number_word, put_word};
use reference_check::Network;
use std::alloc::Global;
use vpc_base::{Dir, Header, NoMemory};
use vpc_model::{By, Group, Hop, Permission, RuleRef};

/// Appends what each hop's line has before what the packet passed: its number, from 1, the kind and the
/// id of the place, and the header that came there.
pub fn put_place(
    out: &mut Vec<u8>,
    number: u128,
    kind: &[u8],
    id: &[u8],
    h: &Header,
) -> Result<(), NoMemory>
    ensures { OnOk result (out.new.items ≡ out.old.items ++ place_line number kind.now id.now h.now) }
{
    put(out, b"hop")?;
    put_number_word(out, number)?;
    put_word(out, kind)?;
    put_word(out, id)?;
    put_header_word(out, h)
}

fn dir_text(dir: Dir) -> &'static [u8]
    ensures { result.now ≡ dir_text dir }
{
    match dir {
        Dir::Inward => b"in",
        Dir::Outward => b"out",
    }
}

fn permissions_of(group: &Group, dir: Dir) -> &[Permission]
    ensures { result.now ≡ permissions_of dir group.now }
{
    match dir {
        Dir::Inward => group.inward.as_slice(),
        Dir::Outward => group.outward.as_slice(),
    }
}

// The rule that is told by a number, from 1.
fn permission_at<'a>(n: &'a Network, r: &RuleRef) -> &'a Permission
    requires { IsTrue (is_rule n.now r.now) }
    ensures { result.now ≡ rule_at n.now r.now }
{
    let group = n.group_at(r.group);
    &permissions_of(group, r.dir)[r.number as usize - 1]
}

// The id of a rule that was told with one, else its number.
fn put_rule_name(out: &mut Vec<u8>, n: &Network, r: &RuleRef) -> Result<(), NoMemory>
    requires { IsTrue (is_rule n.now r.now) }
    ensures { OnOk result (out.new.items ≡ out.old.items ++ word (rule_name n.now r.now)) }
{
    match &permission_at(n, r).id {
        Some(id) => put_word(out, id.bytes()),
        None => put_number_word(out, u128::from(r.number)),
    }
}

/// Appends by which group a packet passed, and in which direction: the name of the group's rule follows.
pub fn put_by_group(out: &mut Vec<u8>, group: &[u8], dir: Dir) -> Result<(), NoMemory>
    ensures { OnOk result (out.new.items ≡ out.old.items ++ by_group group.now dir) }
{
    put(out, b" by")?;
    put_word(out, group)?;
    put_word(out, dir_text(dir))
}

fn put_rule(out: &mut Vec<u8>, n: &Network, r: &RuleRef) -> Result<(), NoMemory>
    requires { IsTrue (is_rule n.now r.now) }
    ensures { OnOk result (out.new.items ≡ out.old.items ++ by_text n.now (bys.Rule r.now)) }
{
    put_by_group(out, n.group_at(r.group).id.bytes(), r.dir)?;
    put_rule_name(out, n, r)
}

/// Appends by what a packet passed groups, if it did.
pub fn put_by(out: &mut Vec<u8>, n: &Network, by: &By) -> Result<(), NoMemory>
    requires { IsTrue (has_rule n.now by.now) }
    ensures { OnOk result (out.new.items ≡ out.old.items ++ by_text n.now by.now) }
{
    match by {
        By::Nothing => Ok(()),
        By::NoGroups => put(out, b" by none"),
        By::Tracked => put(out, b" by tracked"),
        By::Rule(r) => put_rule(out, n, r),
    }
}

fn put_hop_place(out: &mut Vec<u8>, n: &Network, number: u128, hop: &Hop) -> Result<(), NoMemory>
    requires { IsSoundHop n.now hop.now }
    ensures { OnOk result (out.new.items ≡ out.old.items ++ hop_place n.now number hop.now) }
{
    put_place(
        out,
        number,
        place_kind(&hop.place),
        place_id(n, &hop.place),
        &hop.header,
    )
}

/// Appends the line of the hop with this number.
pub fn put_hop(out: &mut Vec<u8>, n: &Network, number: u128, hop: &Hop) -> Result<(), NoMemory>
    requires { IsSoundHop n.now hop.now }
    ensures { OnOk result (out.new.items ≡ out.old.items ++ hop_line n.now number hop.now) }
{
    put_hop_place(out, n, number, hop)?;
    put_by(out, n, &hop.by)?;
    put_end(out)
}

/// Appends the lines of hops, numbered from 1.
pub fn put_hops(out: &mut Vec<u8>, n: &Network, hops: &[Hop]) -> Result<(), NoMemory>
    requires { All (IsSoundHop n.now) hops.now }
    ensures { OnOk result (out.new.items ≡ out.old.items ++ hop_lines n.now hops.now) }
{
    let mut number = 1;
    for hop in hops {
        put_hop(out, n, number, hop)?;
        number += 1;
    }
    Ok(())
}

/// The lines of hops, numbered from 1.
pub fn print_hops(alloc: Global, n: &Network, hops: &[Hop]) -> Result<Vec<u8>, NoMemory>
    requires { All (IsSoundHop n.now) hops.now }
    ensures { IfOk result (λ text. text.items ≡ hop_lines n.now hops.now) }
{
    let mut out = Vec::new(alloc);
    put_hops(&mut out, n, hops)?;
    Ok(out)
}
