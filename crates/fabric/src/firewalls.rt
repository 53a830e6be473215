// What stands behind firewall endpoints.
ghost use Rattle.std.specs.Prelude.{◌≡◌, ◌++◌, IfOk, OnOk, option_and_then, option_map, slice_get};
ghost use Rattle.vpc_model.specs.Appliances.{boxes_of_kind};
ghost use Rattle.fabric.specs.Named.{by_endpoint, named_from};
ghost use Rattle.fabric.specs.Outside.{boxes_of_firewalls, boxes_of_firewall};

use crate::named::{FirstNamed, Named};
use crate::routes::add;
use appliances::kind_boxes;
use header_boxes::Box5;
use reference_check::Network;
use std::alloc::Global;
use vpc_base::{NoMemory, OwnList};
use vpc_model::{Appliance, ApplianceAt, FirewallEndpoint};

// Adds an appliance by the endpoint that it stands behind, if it does.
fn add_endpoint(
    alloc: Global,
    rows: &mut Vec<Named>,
    number: u32,
    appliance: &Appliance,
) -> Result<(), NoMemory>
    ensures { OnOk result (rows.new.items ≡ rows.old.items ++ by_endpoint number appliance.now) }
{
    match appliance.at {
        ApplianceAt::Interface => Ok(()),
        ApplianceAt::Endpoint => {
            let id = appliance.id.copied(alloc)?;
            add(rows, Named { id, number })
        }
    }
}

fn endpoints_of(alloc: Global, n: &Network) -> Result<Vec<Named>, NoMemory>
    ensures { IfOk result (λ v. v.items ≡ named_from by_endpoint 0 n.now.appliances) }
{
    let appliances = n.description().appliances.as_slice();
    let mut rows = Vec::new(alloc);
    for (number, appliance) in appliances.iter().enumerate() {
        add_endpoint(alloc, &mut rows, number as u32, appliance)?;
    }
    Ok(rows)
}

// The boxes of the appliance with this number.
fn boxes_at(
    alloc: Global,
    appliances: &[Appliance],
    number: Option<u32>,
) -> Result<Option<OwnList<Box5>>, NoMemory>
    ensures { IfOk result (λ o. o ≡ option_map (λ a. boxes_of_kind a.kind)
        (option_and_then (slice_get appliances.now) number)) }
{
    let Some(k) = number else {
        return Ok(None);
    };
    match appliances.get(k as usize) {
        Some(appliance) => {
            let boxes = kind_boxes(alloc, &appliance.kind)?;
            Ok(Some(OwnList::of(boxes)))
        }
        None => Ok(None),
    }
}

fn boxes_of_firewall(
    alloc: Global,
    n: &Network,
    behind: &FirstNamed,
    firewall: &FirewallEndpoint,
) -> Result<Option<OwnList<Box5>>, NoMemory>
    requires { behind.now ≡ named_from by_endpoint 0 n.now.appliances }
    ensures { IfOk result (λ o. o ≡ boxes_of_firewall n.now firewall.now) }
{
    let appliances = n.description().appliances.as_slice();
    boxes_at(alloc, appliances, behind.get(&firewall.id))
}

/// The boxes of the headers that the firewall behind each endpoint sends on; none where it isn't told what stands there.
pub fn firewall_boxes(alloc: Global, n: &Network) -> Result<Vec<Option<OwnList<Box5>>>, NoMemory>
    ensures { IfOk result (λ v. v.items ≡ boxes_of_firewalls n.now) }
{
    let rows = endpoints_of(alloc, n)?;
    let behind = FirstNamed::of(alloc, rows)?;
    let firewalls = n.description().firewalls.as_slice();
    let mut boxes = Vec::with_capacity(alloc, firewalls.len())?;
    for firewall in firewalls {
        add(&mut boxes, boxes_of_firewall(alloc, n, &behind, firewall)?)?;
    }
    Ok(boxes)
}
