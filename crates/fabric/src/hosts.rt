// Interfaces by their VPCs and the private addresses that are assigned to them.
ghost use Rattle.std.specs.Prelude.{◌≡◌, ◌++◌, ◌<◌, ◌^◌, All, Contains, IfOk, OnOk, map};
ghost use Rattle.fabric.specs.Hosts.{AreHosts, HasFit, host_entries, host_entry, hosts_from};

use number_tables::{Entry, NumberTable, key_of};
use reference_check::Network;
use std::alloc::{AllocError, Global};
use vpc_base::NoMemory;
use vpc_model::{EniNo, Interface, VpcNo};

fn entry_of(v: VpcNo, i: EniNo, own: u32) -> Entry<EniNo>
    ensures entry { result ≡ host_entry v i (own, None) }
    ensures fits { own < 2 ^ 32 }
{
    Entry {
        key: key_of(v.0, own),
        value: i,
    }
}

// Adds an interface in a VPC by each of the addresses that are assigned to it.
fn add_addresses(
    entries: &mut Vec<Entry<EniNo>>,
    v: VpcNo,
    i: EniNo,
    addresses: &[(u32, Option<u32>)],
) -> Result<(), AllocError>
    ensures added { OnOk result
        (entries.new.items ≡ entries.old.items ++ map (host_entry v i) addresses.now) }
    ensures fit { OnOk result (All (λ x. x.0 < 2 ^ 32) addresses.now) }
{
    for address in addresses {
        entries.push(entry_of(v, i, address.0))?;
    }
    Ok(())
}

// Adds an interface of the network.
fn add(
    entries: &mut Vec<Entry<EniNo>>,
    n: &Network,
    number: u32,
    interface: &Interface,
) -> Result<(), AllocError>
    requires { Contains n.now.interfaces interface.now }
    ensures added { OnOk result
        (entries.new.items ≡ entries.old.items ++ host_entries n.now number interface.now) }
    ensures fit { OnOk result (HasFit interface.now) }
{
    let vpc = n.vpc_of_interface(interface);
    add_addresses(entries, vpc, EniNo(number), interface.addresses.as_slice())
}

fn entries_of(alloc: Global, n: &Network) -> Result<Vec<Entry<EniNo>>, AllocError>
    ensures entries { IfOk result (λ v. v.items ≡ hosts_from n.now 0 n.now.interfaces) }
    ensures fit { OnOk result (All HasFit n.now.interfaces) }
{
    let interfaces = n.description().interfaces.as_slice();
    let mut entries = Vec::new(alloc);
    for (number, interface) in interfaces.iter().enumerate() {
        add(&mut entries, n, number as u32, interface)?;
    }
    Ok(entries)
}

/// The interface to which each private address is assigned in each VPC. It takes time n log n in all of them.
pub fn hosts_by_address(alloc: Global, n: &Network) -> Result<NumberTable<EniNo>, NoMemory>
    ensures { IfOk result (AreHosts n.now) }
{
    let _ = n.description();
    let entries = entries_of(alloc, n)?;
    let table = NumberTable::of(entries)?;
    Ok(table)
}
