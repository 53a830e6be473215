// The subnets of each attachment.
ghost use Rattle.std.specs.Prelude.{◌≡◌, ◌<◌, ◌++◌, ℕ, All, Contains, IfOk, IsTrue, OnOk, length, map};
ghost use Rattle.number_tables.specs.Entries.{value_at};
ghost use Rattle.vpc_model.specs.Lookup.{has_subnet};
ghost use Rattle.transit_gateway.specs.Sites.{AreZones};
ghost use Rattle.transit_gateway.specs.Zones.{HasZonesOf, first_of, inner_subnets, leaving, zone_entries, zone_entry, zone_subnet_in};

use crate::sites::{Site, sites_of, zone_of};
use number_tables::{Entry, NumberTable, key_of};
use reference_check::{FirstNumbers, Network};
use std::alloc::{AllocError, Global};
use vpc_model::{AttNo, Attachment, Id, SubnetNo};

// The subnet by its attachment and its zone.
fn zone_entry(n: &Network, zones: &FirstNumbers, number: u32, id: &Id) -> Entry<SubnetNo>
    requires zones { AreZones n.now zones.now }
    requires described { IsTrue (has_subnet n.now id.now) }
    ensures { result ≡ zone_entry n.now number id.now }
{
    let s = n.subnet_named(id);
    let subnet = n.subnet_at(s);
    let zone = zone_of(n, zones, subnet);
    Entry {
        key: key_of(number, zone),
        value: s,
    }
}

fn add_all(
    entries: &mut Vec<Entry<SubnetNo>>,
    n: &Network,
    zones: &FirstNumbers,
    number: u32,
    ids: &[Id],
) -> Result<(), AllocError>
    requires zones { AreZones n.now zones.now }
    requires described { All (λ id. IsTrue (has_subnet n.now id)) ids.now }
    ensures { OnOk result
        (entries.new.items ≡ entries.old.items ++ map (zone_entry n.now number) ids.now) }
{
    for id in ids {
        entries.push(zone_entry(n, zones, number, id))?;
    }
    Ok(())
}

// The subnets that an attachment names, where its VPC is described.
fn inner_subnets<'a>(n: &'a Network, attachment: &'a Attachment) -> &'a [Id]
    requires { Contains n.now.attachments attachment.now }
    ensures ids { result.now ≡ inner_subnets n.now attachment.now }
    ensures described { All (λ id. IsTrue (has_subnet n.now id)) result.now }
{
    let _ = n.description();
    match n.vpc(attachment.vpc.bytes()) {
        Some(_) => attachment.subnets.as_slice(),
        None => &[],
    }
}

fn zone_entries(
    alloc: Global,
    n: &Network,
    zones: &FirstNumbers,
) -> Result<Vec<Entry<SubnetNo>>, AllocError>
    requires { AreZones n.now zones.now }
    ensures { IfOk result (λ v. v.items ≡ zone_entries n.now 0 n.now.attachments) }
{
    let mut entries = Vec::new(alloc);
    let attachments = n.description().attachments.as_slice();
    for (number, attachment) in attachments.iter().enumerate() {
        let ids = inner_subnets(n, attachment);
        add_all(&mut entries, n, zones, number as u32, ids)?;
    }
    Ok(entries)
}

fn first_of(n: &Network, attachment: &Attachment) -> Option<SubnetNo>
    requires { Contains n.now.attachments attachment.now }
    ensures { result ≡ first_of n.now attachment.now }
{
    match inner_subnets(n, attachment) {
        [id, ..] => Some(n.subnet_named(id)),
        [] => None,
    }
}

fn firsts_of(alloc: Global, n: &Network) -> Result<Vec<Option<SubnetNo>>, AllocError>
    ensures { IfOk result (λ v. v.items ≡ map (first_of n.now) n.now.attachments) }
{
    let attachments = n.description().attachments.as_slice();
    let mut firsts = Vec::with_capacity(alloc, attachments.len())?;
    for attachment in attachments {
        firsts.push(first_of(n, attachment))?;
    }
    Ok(firsts)
}

/// The sites of the subnets, the subnets by their attachments and zones, and the first subnet of each
/// attachment.
pub struct Zones {
    pub sites: Vec<Site>,
    pub subnets: NumberTable<SubnetNo>,
    pub firsts: Vec<Option<SubnetNo>>,
}

impl Drop for Zones {
    fn drop(self) {
        let Zones {
            sites,
            subnets,
            firsts,
        } = self;
        drop(sites);
        drop(subnets);
        drop(firsts);
    }
}

fn subnet_table(
    alloc: Global,
    n: &Network,
    zones: &FirstNumbers,
) -> Result<NumberTable<SubnetNo>, AllocError>
    requires { AreZones n.now zones.now }
    ensures { IfOk result (λ t. (k : ℕ) → value_at k t
        ≡ value_at k (zone_entries n.now 0 n.now.attachments)) }
{
    let entries = zone_entries(alloc, n, zones)?;
    let table = NumberTable::of(entries)?;
    Ok(table)
}

impl Zones {
    /// The zones of a network. It takes time n log n in its subnets and those of its attachments.
    pub fn of(alloc: Global, n: &Network) -> Result<Zones, AllocError>
        ensures { IfOk result (λ z. HasZonesOf n.now z.sites.items z.subnets z.firsts.items) }
    {
        let d = n.description();
        let zones = FirstNumbers::of(alloc, d.subnets.as_slice())?;
        let sites = sites_of(alloc, n, &zones)?;
        let subnets = subnet_table(alloc, n, &zones)?;
        let firsts = firsts_of(alloc, n)?;
        Ok(Zones {
            sites,
            subnets,
            firsts,
        })
    }

    /// The first subnet of an attachment in the zone of another subnet.
    pub fn subnet(&self, a: AttNo, s: SubnetNo) -> Option<SubnetNo>
        requires { s.0 < length self.now.sites.items }
        ensures { result ≡ zone_subnet_in self.now.sites.items self.now.subnets a s }
    {
        let site = self.sites[s.0 as usize];
        self.subnets.get(key_of(a.0, site.zone))
    }

    /// The subnet by which a packet leaves.
    pub fn leave(&self, a: AttNo, entered: SubnetNo) -> Option<SubnetNo>
        requires subnet { entered.0 < length self.now.sites.items }
        requires attachment { a.0 < length self.now.firsts.items }
        ensures { result ≡ leaving self.now.sites.items self.now.subnets self.now.firsts.items a entered }
    {
        match self.subnet(a, entered) {
            Some(s) => Some(s),
            None => self.firsts[a.0 as usize],
        }
    }
}
