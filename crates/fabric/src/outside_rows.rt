// By what tables packets come into VPCs, and what stands behind firewall endpoints.
ghost use Rattle.std.specs.Prelude.{◌≡◌};

use crate::firewalls::firewall_boxes;
use crate::gateway_tables::{associated_gateways, gateway_tables, network_tables};
use header_boxes::Box5;
use reference_check::Network;
use std::alloc::Global;
use std::marker::Model;
use vpc_base::{NoMemory, OwnList};
use vpc_model::{FarNo, FirewallNo, IgwNo, TableNo};

/// The tables of internet gateways and of virtual private gateways, and what firewalls send on. Contracts see
/// the lists.
pub struct OutsideRows {
    gateways: Vec<Option<TableNo>>,
    networks: Vec<Option<TableNo>>,
    firewalls: Vec<Option<OwnList<Box5>>>,
}

impl Drop for OutsideRows {
    fn drop(self) {
        let OutsideRows {
            gateways,
            networks,
            firewalls,
        } = self;
        drop(gateways);
        drop(networks);
        drop(firewalls);
    }
}

impl Model for OutsideRows {
    ghost use Rattle.fabric.specs.Outside.{OutsideLists};

    ghost Value = { OutsideLists };

    ghost view = { λ x. record {
      gateways = x.gateways.items;
      networks = x.networks.items;
      firewalls = x.firewalls.items;
    } };
}

impl OutsideRows {
    ghost use Rattle.std.specs.Prelude.{◌<◌, IfOk, Option, is_some, length, slice_index_or};
    ghost use Rattle.vpc_model.specs.declared.numbers.TableNo.{TableNo};
    ghost use Rattle.fabric.specs.Outside.{AreOutsideOf, boxes_in, is_told};

    /// The rows of a network. It takes time n log n in its tables, gateways, appliances and firewall endpoints.
    pub fn of(alloc: Global, n: &Network) -> Result<OutsideRows, NoMemory>
        ensures { IfOk result (AreOutsideOf n.now) }
    {
        let associated = associated_gateways(alloc, n)?;
        let gateways = gateway_tables(alloc, n, &associated)?;
        let networks = network_tables(alloc, n, &associated)?;
        let firewalls = firewall_boxes(alloc, n)?;
        Ok(OutsideRows {
            gateways,
            networks,
            firewalls,
        })
    }

    /// The table of an internet gateway.
    pub fn gateway_table(&self, g: IgwNo) -> Option<TableNo>
        requires { g.0 < length self.now.gateways }
        ensures { (none : Option TableNo) → result ≡ slice_index_or self.now.gateways g.0 none }
    {
        self.gateways[g.0 as usize]
    }

    /// The table of the virtual private gateway that leads to a network.
    pub fn network_table(&self, k: FarNo) -> Option<TableNo>
        requires { k.0 < length self.now.networks }
        ensures { (none : Option TableNo) → result ≡ slice_index_or self.now.networks k.0 none }
    {
        self.networks[k.0 as usize]
    }

    /// Whether it is told what stands behind a firewall endpoint.
    pub fn is_told(&self, e: FirewallNo) -> bool
        ensures { result ≡ is_told self.now e }
    {
        match self.firewalls.get(e.0 as usize) {
            Some(boxes) => boxes.is_some(),
            None => false,
        }
    }

    /// The boxes of the headers that the firewall behind an endpoint sends on.
    pub fn boxes(&self, e: FirewallNo) -> &[Box5]
        ensures { result.now ≡ boxes_in self.now e }
    {
        match self.firewalls.get(e.0 as usize) {
            Some(Some(boxes)) => boxes.as_slice(),
            Some(None) => &[],
            None => &[],
        }
    }
}
