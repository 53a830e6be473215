// A description with one rule taken out, or with permissions that stand one after another.
ghost use Rattle.std.specs.Prelude.{◌≡◌, ◌+◌, ◌<◌, IfOk, None, length, slice_set};
ghost use Rattle.std.specs.List.{remove_range};
ghost use Rattle.reference_check.specs.Told.{IsTold};
ghost use Rattle.vpc_model.specs.Accepted.{IsAccepted};
ghost use Rattle.unused_rules.specs.Chunks.{groups_without_chunk, without_chunk, without_permissions};
ghost use Rattle.unused_rules.specs.Without.{acls_without, without, without_row};

use crate::chunks::{Chunk, alone};
use crate::rules::RuleName;
use copied_rows::{CopiedRow, add_copies, copied_list, copied_with};
use reference_check::Network;
use std::alloc::Global;
use vpc_base::{Dir, NoMemory, OwnList};
use vpc_model::{Acl, AclNo, Description, Group, Refusal};

// Copies of all rows but so many from one place on, as far as there are.
fn copied_but<T: CopiedRow + Drop>(
    alloc: Global,
    rows: &OwnList<T>,
    from: u32,
    count: u32,
) -> Result<OwnList<T>, NoMemory>
    ensures { IfOk result (λ l. l ≡ remove_range rows.now from (from + count)) }
{
    let all = rows.as_slice();
    let to = from as usize + count as usize;
    let before = &all[..all.len().min(from as usize)];
    let after = &all[all.len().min(to)..];
    let mut copies = Vec::new(alloc);
    add_copies(&mut copies, before)?;
    add_copies(&mut copies, after)?;
    Ok(OwnList::of(copies))
}

// Copies of all rows, with another one in a place.
fn copied_with_row<T: CopiedRow + Drop>(
    alloc: Global,
    rows: &OwnList<T>,
    place: usize,
    row: T,
) -> Result<OwnList<T>, NoMemory>
    requires { place < length rows.now }
    ensures { IfOk result (λ l. l ≡ slice_set rows.now place row) }
{
    let mut copies = Vec::new(alloc);
    add_copies(&mut copies, rows.as_slice())?;
    copies[place] = row;
    Ok(OwnList::of(copies))
}

fn group_without(
    alloc: Global,
    group: &Group,
    dir: Dir,
    from: u32,
    count: u32,
) -> Result<Group, NoMemory>
    ensures { IfOk result (λ g. g ≡ without_permissions dir from (from + count) group.now) }
{
    let id = group.id.copied(alloc)?;
    let vpc = group.vpc.copied(alloc)?;
    match dir {
        Dir::Inward => Ok(Group {
            id,
            vpc,
            inward: copied_but(alloc, &group.inward, from, count)?,
            outward: copied_list(alloc, &group.outward)?,
        }),
        Dir::Outward => Ok(Group {
            id,
            vpc,
            inward: copied_list(alloc, &group.inward)?,
            outward: copied_but(alloc, &group.outward, from, count)?,
        }),
    }
}

fn groups_without(alloc: Global, d: &Description, c: &Chunk) -> Result<OwnList<Group>, NoMemory>
    ensures { IfOk result (λ l. l ≡ groups_without_chunk d.now c.now) }
{
    let groups = d.groups.as_slice();
    let place = c.group.0 as usize;
    if place >= groups.len() {
        return copied_list(alloc, &d.groups);
    }
    let group = group_without(alloc, &groups[place], c.dir, c.from, c.count)?;
    copied_with_row(alloc, &d.groups, place, group)
}

fn acl_without(alloc: Global, acl: &Acl, place: u32) -> Result<Acl, NoMemory>
    ensures { IfOk result (λ a. a ≡ without_row place acl.now) }
{
    Ok(Acl {
        id: acl.id.copied(alloc)?,
        subnets: copied_list(alloc, &acl.subnets)?,
        rows: copied_but(alloc, &acl.rows, place, 1)?,
    })
}

fn acls_without(
    alloc: Global,
    d: &Description,
    a: AclNo,
    row: u32,
) -> Result<OwnList<Acl>, NoMemory>
    ensures { IfOk result (λ l. l ≡ acls_without d.now a row) }
{
    let acls = d.acls.as_slice();
    let place = a.0 as usize;
    if place >= acls.len() {
        return copied_list(alloc, &d.acls);
    }
    let acl = acl_without(alloc, &acls[place], row)?;
    copied_with_row(alloc, &d.acls, place, acl)
}

/// The description without the permissions of a chunk.
fn without_chunk(alloc: Global, d: &Description, c: &Chunk) -> Result<Description, NoMemory>
    ensures { IfOk result (λ w. w ≡ without_chunk d.now c.now) }
{
    let groups = groups_without(alloc, d, c)?;
    let acls = copied_list(alloc, &d.acls)?;
    copied_with(alloc, d, acls, groups)
}

/// The description without one of its rules: that permission or row is taken out, and all else is the same.
pub fn without(alloc: Global, d: &Description, rule: &RuleName) -> Result<Description, NoMemory>
    ensures { IfOk result (λ c. c ≡ without d.now rule.now) }
{
    match rule {
        RuleName::Permission(r) => without_chunk(alloc, d, &alone(r)),
        RuleName::AclRow(a, row) => {
            let acls = acls_without(alloc, d, *a, *row)?;
            let groups = copied_list(alloc, &d.groups)?;
            copied_with(alloc, d, acls, groups)
        }
    }
}

// An accepted description is refused for want of memory alone.
fn no_memory(cause: Refusal) -> NoMemory
    requires { IsTold None cause }
{
    match cause {
        Refusal::Memory => NoMemory,
        _ => unreachable!(),
    }
}

fn accepted(alloc: Global, d: Description) -> Result<Network, NoMemory>
    requires { IsAccepted d }
    ensures { IfOk result (λ m. m ≡ d) }
{
    match Network::of(alloc, d) {
        Ok(network) => Ok(network),
        Err(cause) => Err(no_memory(cause)),
    }
}

/// The network without one of its rules, which is accepted as well.
pub(crate) fn network_without(
    alloc: Global,
    n: &Network,
    rule: &RuleName,
) -> Result<Network, NoMemory>
    ensures { IfOk result (λ m. m ≡ without n.now rule.now) }
{
    accepted(alloc, without(alloc, n.description(), rule)?)
}

/// The network without a chunk, which is accepted as well.
pub(crate) fn network_without_chunk(
    alloc: Global,
    n: &Network,
    c: &Chunk,
) -> Result<Network, NoMemory>
    ensures { IfOk result (λ m. m ≡ without_chunk n.now c.now) }
{
    accepted(alloc, without_chunk(alloc, n.description(), c)?)
}
