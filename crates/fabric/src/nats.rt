// NAT gateways by their interfaces.
ghost use Rattle.std.specs.Prelude.{◌≡◌, ◌++◌, ◌<◌, ◌^◌, Contains, IfOk, OnOk};
ghost use Rattle.fabric.specs.Nats.{AreNats, nat_entries, nat_entry};

use number_tables::{Entry, NumberTable};
use reference_check::Network;
use std::alloc::{AllocError, Global};
use vpc_base::NoMemory;
use vpc_model::{NatGateway, NatLife, NatNo};

// Adds a gateway by its interface, if it is live.
fn add(
    entries: &mut Vec<Entry<NatNo>>,
    n: &Network,
    number: u32,
    nat: &NatGateway,
) -> Result<(), AllocError>
    requires { Contains n.now.nats nat.now }
    ensures { OnOk result (entries.new.items ≡ entries.old.items ++ nat_entry n.now number nat.now) }
{
    let _ = n.description();
    match &nat.life {
        NatLife::Live { eni, .. } => {
            entries.push(Entry {
                key: u64::from(n.eni_named(eni).0),
                value: NatNo(number),
            })?;
            Ok(())
        }
        NatLife::Gone => Ok(()),
        NatLife::Unmodelled => Ok(()),
    }
}

fn entries_of(alloc: Global, n: &Network) -> Result<Vec<Entry<NatNo>>, AllocError>
    ensures { IfOk result (λ v. v.items ≡ nat_entries n.now 0 n.now.nats) }
{
    let nats = n.description().nats.as_slice();
    let mut entries = Vec::new(alloc);
    for (number, nat) in nats.iter().enumerate() {
        add(&mut entries, n, number as u32, nat)?;
    }
    Ok(entries)
}

/// The first live NAT gateway of each interface.
pub fn nats_by_interface(alloc: Global, n: &Network) -> Result<NumberTable<NatNo>, NoMemory>
    ensures { IfOk result (AreNats n.now) }
{
    let _ = n.description();
    let entries = entries_of(alloc, n)?;
    let table = NumberTable::of(entries)?;
    Ok(table)
}
