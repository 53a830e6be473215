// The rows of a description, found by their ids.
ghost use Rattle.std.specs.Prelude.{◌≡◌, OnOk};
ghost use Rattle.std.specs.List.{flat_map};
ghost use Rattle.vpc_model.specs.Accepted.{duplicates_in};
ghost use Rattle.vpc_model.specs.Firewalls.{is_behind_endpoint, is_followed};
ghost use Rattle.reference_check.specs.Told.{Tells};
ghost use Rattle.reference_check.specs.Numbered.{AreFilterIds, AreGatewayIds, AreNetworkIds, AreOutsideIds};
ghost use Rattle.reference_check.specs.Numbered.{filter_ids_of, gateway_ids_of, network_ids_of};

use crate::duplicates::{no_duplicates, number};
use crate::first_numbers::FirstNumbers;
use crate::ids::Ids;
use std::alloc::{AllocError, Global};
use std::marker::Model;
use vpc_model::{
    ApplianceAt, Description, FirewallEndpoint, Id, Interface, NatGateway, Peering, PrefixList,
    Refusal, Subnet,
};

/// The ids of VPCs, subnets, interfaces and prefix lists.
#[derive(Drop)]
pub struct NetworkIds {
    pub vpcs: Ids,
    pub subnets: Ids,
    pub interfaces: Ids,
    pub lists: Ids,
}

/// The ids of groups.
#[derive(Drop)]
pub struct FilterIds {
    pub groups: Ids,
}

/// The ids of gateways and of what is attached to them, and of appliances.
#[derive(Drop)]
pub struct GatewayIds {
    pub igws: Ids,
    pub nats: Ids,
    pub peerings: Ids,
    pub attachments: Ids,
    pub tgw_tables: Ids,
    pub appliances: Ids,
}

/// The ids of what leads to networks that aren't described, and of firewall endpoints. An id may stand twice:
/// the first row counts.
#[derive(Drop)]
pub struct OutsideIds {
    pub fars: FirstNumbers,
    pub firewalls: FirstNumbers,
}

fn number_networks(alloc: Global, d: &Description, ids: &mut NetworkIds) -> Result<(), Refusal>
    ensures told { Tells (flat_map duplicates_in (network_ids_of d.now)) result }
    ensures ids { OnOk result (AreNetworkIds d.now ids.new) }
{
    number(alloc, d.vpcs.as_slice(), &mut ids.vpcs)?;
    number(alloc, d.subnets.as_slice(), &mut ids.subnets)?;
    number(alloc, d.interfaces.as_slice(), &mut ids.interfaces)?;
    no_duplicates(alloc, d.tables.as_slice())?;
    number(alloc, d.lists.as_slice(), &mut ids.lists)
}

fn number_filters(alloc: Global, d: &Description, ids: &mut FilterIds) -> Result<(), Refusal>
    ensures told { Tells (flat_map duplicates_in (filter_ids_of d.now)) result }
    ensures ids { OnOk result (AreFilterIds d.now ids.new) }
{
    no_duplicates(alloc, d.acls.as_slice())?;
    number(alloc, d.groups.as_slice(), &mut ids.groups)
}

fn number_gateways(alloc: Global, d: &Description, ids: &mut GatewayIds) -> Result<(), Refusal>
    ensures told { Tells (flat_map duplicates_in (gateway_ids_of d.now)) result }
    ensures ids { OnOk result (AreGatewayIds d.now ids.new) }
{
    number(alloc, d.igws.as_slice(), &mut ids.igws)?;
    number(alloc, d.nats.as_slice(), &mut ids.nats)?;
    number(alloc, d.peerings.as_slice(), &mut ids.peerings)?;
    number(alloc, d.attachments.as_slice(), &mut ids.attachments)?;
    no_duplicates(alloc, d.associations.as_slice())?;
    number(alloc, d.tgw_tables.as_slice(), &mut ids.tgw_tables)?;
    number(alloc, d.appliances.as_slice(), &mut ids.appliances)
}

fn number_outside(alloc: Global, d: &Description, ids: &mut OutsideIds) -> Result<(), AllocError>
    ensures { OnOk result (AreOutsideIds d.now ids.new) }
{
    ids.fars = FirstNumbers::of(alloc, d.fars.as_slice())?;
    ids.firewalls = FirstNumbers::of(alloc, d.firewalls.as_slice())?;
    Ok(())
}

/// The ids of all lists.
pub struct AllIds {
    pub networks: NetworkIds,
    pub filters: FilterIds,
    pub gateways: GatewayIds,
    pub outside: OutsideIds,
}

impl Drop for AllIds {
    fn drop(self) {
        let AllIds {
            networks,
            filters,
            gateways,
            outside,
        } = self;
        drop(networks);
        drop(filters);
        drop(gateways);
        drop(outside);
    }
}

impl AllIds {
    ghost use Rattle.reference_check.specs.AllNumbered.{AreAllIds, duplicates_by_part};

    fn new(alloc: Global) -> AllIds {
        AllIds {
            networks: NetworkIds {
                vpcs: Ids::new(alloc),
                subnets: Ids::new(alloc),
                interfaces: Ids::new(alloc),
                lists: Ids::new(alloc),
            },
            filters: FilterIds {
                groups: Ids::new(alloc),
            },
            gateways: GatewayIds {
                igws: Ids::new(alloc),
                nats: Ids::new(alloc),
                peerings: Ids::new(alloc),
                attachments: Ids::new(alloc),
                tgw_tables: Ids::new(alloc),
                appliances: Ids::new(alloc),
            },
            outside: OutsideIds {
                fars: FirstNumbers::new(alloc),
                firewalls: FirstNumbers::new(alloc),
            },
        }
    }

    fn number(&mut self, alloc: Global, d: &Description) -> Result<(), Refusal>
        ensures told { Tells (duplicates_by_part d.now) result }
        ensures ids { OnOk result (AreAllIds d.now self.new) }
    {
        number_networks(alloc, d, &mut self.networks)?;
        number_filters(alloc, d, &mut self.filters)?;
        number_gateways(alloc, d, &mut self.gateways)?;
        number_outside(alloc, d, &mut self.outside)?;
        Ok(())
    }
}

/// The rows of a description, found by their ids, of which none stands twice in a list. Contracts see the
/// description.
pub struct Directory {
    d: Description,
    ids: AllIds,
}

impl Drop for Directory {
    fn drop(self) {
        let Directory { d, ids } = self;
        drop(d);
        drop(ids);
    }
}

impl Model for Directory {
    ghost use Rattle.vpc_model.specs.declared.rows.Description.{Description};

    ghost Value = { Description };

    ghost use Rattle.reference_check.specs.AllNumbered.{IsDirectory};

    ghost view = { λ s. s.d };

    ghost invariant = { λ s. IsDirectory s.d s.ids };
}

/// The lists whose rows others name.
#[derive(Clone, Copy, PartialEq, Eq)]
pub enum Kind {
    Vpc,
    Subnet,
    Interface,
    Group,
    List,
    InternetGateway,
}

fn is_behind_endpoint(at: ApplianceAt) -> bool
    ensures { result ≡ is_behind_endpoint at }
{
    match at {
        ApplianceAt::Interface => false,
        ApplianceAt::Endpoint => true,
    }
}

impl Directory {
    ghost use Rattle.std.specs.Prelude.{[], IfOk, IfSome, bytes_eq, find, is_some, option_map};
    ghost use Rattle.reference_check.specs.AllNumbered.{AreAllIds};
    ghost use Rattle.vpc_model.specs.Accepted.{duplicate_ids, is_subnet_of};
    ghost use Rattle.vpc_model.specs.Lookup.{eni_no, has_interface, has_nat, has_peering, has_subnet, interface_at, nat_at, nat_no, peer_no, peering_at, subnet_at, subnet_no};
    ghost use Rattle.reference_check.specs.Kinds.{has_row};

    /// The description with the numbers of its ids, or the first id that stands twice in a list.
    pub fn of(alloc: Global, d: Description) -> Result<Directory, Refusal>
        ensures told { Tells (duplicate_ids d) result }
        ensures value { IfOk result (λ s. s ≡ d) }
    {
        let mut ids = AllIds::new(alloc);
        match ids.number(alloc, &d) {
            Ok(()) => Ok(Directory { d, ids }),
            Err(cause) => Err(cause),
        }
    }

    pub fn description(&self) -> &Description
        ensures { result.now ≡ self.now }
    {
        &self.d
    }

    /// The ids of its lists, in the order of the rows.
    pub fn ids(&self) -> &AllIds
        ensures numbered { AreAllIds self.now result.now }
        ensures differ { duplicate_ids self.now ≡ [] }
    {
        &self.ids
    }

    /// Whether the row is described.
    pub fn has(&self, kind: Kind, id: &Id) -> bool
        ensures { result ≡ has_row self.now kind id.now }
    {
        let id = id.bytes();
        match kind {
            Kind::Vpc => self.ids.networks.vpcs.has(id),
            Kind::Subnet => self.ids.networks.subnets.has(id),
            Kind::Interface => self.ids.networks.interfaces.has(id),
            Kind::Group => self.ids.filters.groups.has(id),
            Kind::List => self.ids.networks.lists.has(id),
            Kind::InternetGateway => self.ids.gateways.igws.has(id),
        }
    }

    /// The prefix list with the id.
    pub fn list(&self, id: &[u8]) -> Option<&PrefixList>
        ensures { (option_map (λ l. l.now) result) ≡ find (λ l. bytes_eq l.id id.now) self.now.lists }
    {
        match self.ids.networks.lists.number(id) {
            Some(k) => Some(&self.d.lists.as_slice()[k]),
            None => None,
        }
    }

    /// The subnet with the id.
    pub fn subnet(&self, id: &Id) -> Option<&Subnet>
        ensures found { is_some result ≡ has_subnet self.now id.now }
        ensures row { IfSome result (λ s. s.now ≡ subnet_at self.now (subnet_no self.now id.now)) }
    {
        match self.ids.networks.subnets.number(id.bytes()) {
            Some(k) => Some(&self.d.subnets.as_slice()[k]),
            None => None,
        }
    }

    /// The interface with the id.
    pub fn interface(&self, id: &Id) -> Option<&Interface>
        ensures found { is_some result ≡ has_interface self.now id.now }
        ensures row { IfSome result (λ x. x.now ≡ interface_at self.now (eni_no self.now id.now)) }
    {
        match self.ids.networks.interfaces.number(id.bytes()) {
            Some(k) => Some(&self.d.interfaces.as_slice()[k]),
            None => None,
        }
    }

    /// The NAT gateway with the id.
    pub fn nat(&self, id: &Id) -> Option<&NatGateway>
        ensures found { is_some result ≡ has_nat self.now id.now }
        ensures row { IfSome result (λ x. x.now ≡ nat_at self.now (nat_no self.now id.now)) }
    {
        match self.ids.gateways.nats.number(id.bytes()) {
            Some(k) => Some(&self.d.nats.as_slice()[k]),
            None => None,
        }
    }

    /// The peering with the id.
    pub fn peering(&self, id: &Id) -> Option<&Peering>
        ensures found { is_some result ≡ has_peering self.now id.now }
        ensures row { IfSome result (λ x. x.now ≡ peering_at self.now (peer_no self.now id.now)) }
    {
        match self.ids.gateways.peerings.number(id.bytes()) {
            Some(k) => Some(&self.d.peerings.as_slice()[k]),
            None => None,
        }
    }

    /// Whether it is told what stands behind a firewall endpoint.
    pub fn is_followed(&self, endpoint: &FirewallEndpoint) -> bool
        ensures { result ≡ is_followed self.now endpoint.now }
    {
        match self.ids.gateways.appliances.number(endpoint.id.bytes()) {
            Some(k) => is_behind_endpoint(self.d.appliances.as_slice()[k].at),
            None => false,
        }
    }
}
