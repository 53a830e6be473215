// The hosts of two networks, and their ids.
ghost use Rattle.std.specs.Prelude.{◌≡◌, ◌↔◌, ◌++◌, IfOk, IsPermutation, IsTrue, OnOk, filter, length, map};
ghost use Rattle.std.specs.Cmp.Lexicographic.{slice_cmp};
ghost use Rattle.std.specs.List.Sorted.{IsSortedByKey};
ghost use Rattle.std.specs.Ordering.{nat_cmp};
ghost use Rattle.vpc_model.specs.Told.{end_id};
ghost use Rattle.changed_ends.specs.Asked.{AreHostsOfEither, changed_id, from_after, from_before, host_with_id, hosts_of_either, id_or, is_host_at, is_new};

use described_hosts::{far_id, hosts_of, id_of};
use query_words::ChangedEnd;
use reference_check::Network;
use std::alloc::Global;
use std::cmp::Ordering;
use vpc_base::NoMemory;
use vpc_model::{End, EniNo, InterfaceKind};

// ---- ids

/// The id of an end.
pub fn id_at<'a>(n: &'a Network, end: End) -> &'a [u8]
    ensures { result.now ≡ end_id n.now end }
{
    match end {
        End::Interface(eni) => id_of(n, eni),
        End::Internet => b"internet",
        End::Far(k) => far_id(n, k),
    }
}

fn id_or<'a>(n: &'a Network, end: Option<End>, other: &'a [u8]) -> &'a [u8]
    ensures { result.now ≡ id_or n.now end other.now }
{
    match end {
        Some(end) => id_at(n, end),
        None => other,
    }
}

/// The id that an end has in both networks, or in the one that has it.
pub fn changed_id<'a>(before: &'a Network, after: &'a Network, end: &ChangedEnd) -> &'a [u8]
    ensures { result.now ≡ changed_id before.now after.now end.now }
{
    id_or(before, end.before, id_or(after, end.after, &[]))
}

// ---- hosts

fn is_host_at(n: &Network, eni: EniNo) -> bool
    ensures { result ≡ is_host_at n.now eni }
{
    match n.description().interfaces.as_slice().get(eni.0 as usize) {
        Some(interface) => match interface.kind {
            InterfaceKind::Host => true,
            InterfaceKind::Gateway => false,
        },
        None => true,
    }
}

// The interface with an id as an end, where the network has it and it is no gateway's.
fn host_with_id(n: &Network, id: &[u8]) -> Option<End>
    ensures { result ≡ host_with_id n.now id.now }
{
    match n.eni(id) {
        Some(eni) => {
            if is_host_at(n, eni) {
                Some(End::Interface(eni))
            } else {
                None
            }
        }
        None => None,
    }
}

fn from_before(before: &Network, after: &Network, host: EniNo) -> ChangedEnd
    ensures { result ≡ from_before before.now after.now host }
{
    ChangedEnd {
        before: Some(End::Interface(host)),
        after: host_with_id(after, id_of(before, host)),
    }
}

fn from_after(host: EniNo) -> ChangedEnd
    ensures { result ≡ from_after host }
{
    ChangedEnd {
        before: None,
        after: Some(End::Interface(host)),
    }
}

fn is_new(before: &Network, after: &Network, host: EniNo) -> bool
    ensures { result ≡ is_new before.now after.now host }
{
    host_with_id(before, id_of(after, host)).is_none()
}

fn add_before(
    ends: &mut Vec<ChangedEnd>,
    before: &Network,
    after: &Network,
    hosts: &[EniNo],
) -> Result<(), NoMemory>
    ensures { OnOk result (ends.new.items
        ≡ ends.old.items ++ map (from_before before.now after.now) hosts.now) }
{
    for host in hosts {
        ends.push(from_before(before, after, *host))?;
    }
    Ok(())
}

fn add_after(
    ends: &mut Vec<ChangedEnd>,
    before: &Network,
    after: &Network,
    hosts: &[EniNo],
) -> Result<(), NoMemory>
    ensures { OnOk result (ends.new.items
        ≡ ends.old.items ++ map from_after (filter (is_new before.now after.now) hosts.now)) }
{
    for host in hosts {
        if is_new(before, after, *host) {
            ends.push(from_after(*host))?;
        }
    }
    Ok(())
}

fn compare_ids(before: &Network, after: &Network, one: &ChangedEnd, other: &ChangedEnd) -> Ordering
    ensures { result ≡ slice_cmp nat_cmp
        (changed_id before.now after.now one.now) (changed_id before.now after.now other.now) }
{
    changed_id(before, after, one).cmp(changed_id(before, after, other))
}

/// Sorts ends by their ids.
pub fn sort_by_id(before: &Network, after: &Network, ends: &mut Vec<ChangedEnd>)
    ensures same { IsPermutation ends.old.items ends.new.items }
    ensures sorted { IsSortedByKey (changed_id before.now after.now) (slice_cmp nat_cmp) ends.new.items }
{
    ends.sort_unstable_by(|one, other| compare_ids(before, after, one, other));
}

// The hosts of the first network, and those of the second that the first doesn't have.
fn unordered(alloc: Global, before: &Network, after: &Network) -> Result<Vec<ChangedEnd>, NoMemory>
    ensures { IfOk result (λ v. v.items ≡ hosts_of_either before.now after.now) }
{
    let first = hosts_of(alloc, before)?;
    let second = hosts_of(alloc, after)?;
    let mut ends = Vec::new(alloc);
    add_before(&mut ends, before, after, first.as_slice())?;
    add_after(&mut ends, before, after, second.as_slice())?;
    Ok(ends)
}

/// The hosts of either network, in the order of their ids. It takes time n log n.
pub fn hosts_of_either(
    alloc: Global,
    before: &Network,
    after: &Network,
) -> Result<Vec<ChangedEnd>, NoMemory>
    ensures { IfOk result (λ v. AreHostsOfEither before.now after.now v.items) }
{
    let mut ends = unordered(alloc, before, after)?;
    sort_by_id(before, after, &mut ends);
    Ok(ends)
}
