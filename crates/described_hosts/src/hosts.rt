// The interfaces of a network that belong to no gateway, in the order of their ids.
ghost use Rattle.std.specs.Prelude.{◌≡◌, ◌∷◌, ◌++◌, [], IfOk, OnOk, cond, count_by};
ghost use Rattle.std.specs.List.Sorted.{IsPermutation, IsSortedByKey};
ghost use Rattle.std.specs.Cmp.Lexicographic.{slice_cmp};
ghost use Rattle.std.specs.Ordering.{nat_cmp};
ghost use Rattle.described_hosts.specs.Hosts.{AreHostsById, host_count, hosts_of, id_of, is_host, numbered};

use reference_check::Network;
use std::alloc::Global;
use std::cmp::Ordering;
use vpc_base::NoMemory;
use vpc_model::{EniNo, Interface, InterfaceKind};

fn is_host(interface: &Interface) -> bool
    ensures { result ≡ is_host interface.now }
{
    match interface.kind {
        InterfaceKind::Host => true,
        InterfaceKind::Gateway => false,
    }
}

fn count_in(interfaces: &[Interface]) -> usize
    ensures { result ≡ count_by is_host interfaces.now }
{
    interfaces
        .iter()
        .filter(|interface| is_host(interface))
        .count()
}

/// How many interfaces belong to no gateway.
pub fn host_count(n: &Network) -> usize
    ensures { result ≡ host_count n.now }
{
    count_in(n.description().interfaces.as_slice())
}

// Adds the interface with this number, where it belongs to no gateway.
fn add(hosts: &mut Vec<EniNo>, interface: &Interface, number: u32) -> Result<(), NoMemory>
    ensures { OnOk result (hosts.new.items
        ≡ hosts.old.items ++ cond (is_host interface.now) (numbered number ∷ []) []) }
{
    if is_host(interface) {
        hosts.push(EniNo(number))?;
    }
    Ok(())
}

/// They, in the order of the description.
pub fn hosts_of(alloc: Global, n: &Network) -> Result<Vec<EniNo>, NoMemory>
    ensures { IfOk result (λ v. v.items ≡ hosts_of n.now) }
{
    let interfaces = n.description().interfaces.as_slice();
    let mut hosts = Vec::new(alloc);
    for (number, interface) in interfaces.iter().enumerate() {
        add(&mut hosts, interface, number as u32)?;
    }
    Ok(hosts)
}

/// The id of an interface; none where there is no such one.
pub fn id_of<'a>(n: &'a Network, eni: EniNo) -> &'a [u8]
    ensures { result.now ≡ id_of n.now eni }
{
    match n.description().interfaces.as_slice().get(eni.0 as usize) {
        Some(interface) => interface.id.bytes(),
        None => &[],
    }
}

fn compare_ids(n: &Network, one: EniNo, other: EniNo) -> Ordering
    ensures { result ≡ slice_cmp nat_cmp (id_of n.now one) (id_of n.now other) }
{
    id_of(n, one).cmp(id_of(n, other))
}

fn sort_by_id(n: &Network, hosts: &mut Vec<EniNo>)
    ensures same { IsPermutation hosts.old.items hosts.new.items }
    ensures sorted { IsSortedByKey (id_of n.now) (slice_cmp nat_cmp) hosts.new.items }
{
    hosts.sort_unstable_by(|one, other| compare_ids(n, *one, *other));
}

/// They, in the order of their ids. It takes time n log n.
pub fn hosts_by_id(alloc: Global, n: &Network) -> Result<Vec<EniNo>, NoMemory>
    ensures { IfOk result (λ v. AreHostsById n.now v.items) }
{
    let _ = n.description();
    let mut hosts = hosts_of(alloc, n)?;
    sort_by_id(n, &mut hosts);
    Ok(hosts)
}
