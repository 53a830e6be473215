// The tables, ACLs and internet gateways of subnets and VPCs.
ghost use Rattle.std.specs.Prelude.{◌≡◌, ◌<◌, [], IfOk, IfSome, IsTrue, is_none, length, map, position};
ghost use Rattle.vpc_model.specs.Accepted.{duplicate_ids, is_main_of, is_table_of, missing_references};
ghost use Rattle.vpc_model.specs.Choice.{or_else};
ghost use Rattle.vpc_model.specs.Lookup.{has_vpc};
ghost use Rattle.reference_check.specs.Attached.{AreAttached, chosen_at, chosen_table, is_twice, is_unclaimed};
ghost use Rattle.reference_check.specs.Claims.{claims_by, first_of};
ghost use Rattle.reference_check.specs.Numbered.{AreNetworkIds};
ghost use Rattle.reference_check.specs.Told.{Tells};

use crate::claims::{Claim, claims_of, main_tables};
use crate::directory::NetworkIds;
use std::alloc::{AllocError, Global};
use vpc_model::{AclNo, Description, IgwNo, Refusal, Subnet, SubnetNo, TableNo, VpcNo};

/// Which tables, ACLs and internet gateways subnets and VPCs have, by their numbers.
pub struct Attached {
    /// The main tables of each VPC.
    pub mains: Vec<Claim>,
    /// The tables of each subnet.
    pub tables: Vec<Claim>,
    /// The ACLs of each subnet.
    pub acls: Vec<Claim>,
    /// The internet gateways of each VPC.
    pub gateways: Vec<Claim>,
    /// The table of each subnet, else the main one of its VPC.
    pub chosen: Vec<Option<usize>>,
}

impl Drop for Attached {
    fn drop(self) {
        let Attached {
            mains,
            tables,
            acls,
            gateways,
            chosen,
        } = self;
        drop(mains);
        drop(tables);
        drop(acls);
        drop(gateways);
        drop(chosen);
    }
}

// The main table of a subnet's VPC.
fn main_of(d: &Description, ids: &NetworkIds, mains: &[Claim], subnet: &Subnet) -> Option<usize>
    requires numbered { AreNetworkIds d.now ids.now }
    requires mains { mains.now ≡ claims_by is_main_of (map (λ v. v.id) d.now.vpcs) d.now.tables }
    requires described { IsTrue (has_vpc d.now subnet.now.vpc) }
    ensures { result ≡ position (is_main_of subnet.now.vpc) d.now.tables }
{
    match ids.vpcs.number(subnet.vpc.bytes()) {
        Some(v) => mains[v].first(),
        None => None,
    }
}

// The table of a subnet, else the main one of its VPC.
fn choose_table(
    d: &Description,
    ids: &NetworkIds,
    tables: &[Claim],
    mains: &[Claim],
    k: usize,
) -> Option<usize>
    requires numbered { AreNetworkIds d.now ids.now }
    requires described { missing_references d.now ≡ [] }
    requires tables { tables.now ≡ claims_by is_table_of (map (λ s. s.id) d.now.subnets) d.now.tables }
    requires mains { mains.now ≡ claims_by is_main_of (map (λ v. v.id) d.now.vpcs) d.now.tables }
    requires within { k < length d.now.subnets }
    ensures { result ≡ chosen_at d.now k }
{
    match tables[k].first() {
        Some(table) => Some(table),
        None => main_of(d, ids, mains, &d.subnets.as_slice()[k]),
    }
}

fn first_unclaimed(claims: &[Claim]) -> Option<usize>
    ensures number { result ≡ position is_unclaimed claims.now }
    ensures within { IfSome result (λ k. k < length claims.now) }
{
    claims.iter().position(|c| matches!(c, Claim::Unclaimed))
}

fn first_twice(claims: &[Claim]) -> Option<usize>
    ensures number { result ≡ position is_twice claims.now }
    ensures within { IfSome result (λ k. k < length claims.now) }
{
    claims.iter().position(|c| matches!(c, Claim::Twice(_)))
}

fn first_missing(tables: &[Option<usize>]) -> Option<usize>
    ensures number { result ≡ position is_none tables.now }
    ensures within { IfSome result (λ k. k < length tables.now) }
{
    tables.iter().position(|t| t.is_none())
}

// The table of each subnet.
fn choose_tables(
    alloc: Global,
    d: &Description,
    ids: &NetworkIds,
    tables: &[Claim],
    mains: &[Claim],
) -> Result<Vec<Option<usize>>, AllocError>
    requires numbered { AreNetworkIds d.now ids.now }
    requires described { missing_references d.now ≡ [] }
    requires tables { tables.now ≡ claims_by is_table_of (map (λ s. s.id) d.now.subnets) d.now.tables }
    requires mains { mains.now ≡ claims_by is_main_of (map (λ v. v.id) d.now.vpcs) d.now.tables }
    ensures { IfOk result (λ v. v.items ≡ map (chosen_table d.now) d.now.subnets) }
{
    let count = d.subnets.as_slice().len();
    let mut chosen = Vec::with_capacity(alloc, count)?;
    for k in 0..count {
        chosen.push(choose_table(d, ids, tables, mains, k))?;
    }
    Ok(chosen)
}

impl Attached {
    /// Nothing looked at yet.
    pub fn none(alloc: Global) -> Attached {
        Attached {
            mains: Vec::new(alloc),
            tables: Vec::new(alloc),
            acls: Vec::new(alloc),
            gateways: Vec::new(alloc),
            chosen: Vec::new(alloc),
        }
    }

    /// What is attached to the subnets and VPCs of a description whose references were checked.
    pub fn of(alloc: Global, d: &Description, ids: &NetworkIds) -> Result<Attached, AllocError>
        requires numbered { AreNetworkIds d.now ids.now }
        requires differ { duplicate_ids d.now ≡ [] }
        requires described { missing_references d.now ≡ [] }
        ensures { IfOk result (λ a. AreAttached d.now a) }
    {
        let rows = d.tables.as_slice();
        let vpcs = d.vpcs.as_slice().len();
        let subnets = d.subnets.as_slice().len();
        let mains = main_tables(alloc, &ids.vpcs, vpcs, rows)?;
        let tables = claims_of(alloc, &ids.subnets, subnets, rows)?;
        let acls = claims_of(alloc, &ids.subnets, subnets, d.acls.as_slice())?;
        let gateways = claims_of(alloc, &ids.vpcs, vpcs, d.igws.as_slice())?;
        let chosen = choose_tables(alloc, d, ids, tables.as_slice(), mains.as_slice())?;
        Ok(Attached {
            mains,
            tables,
            acls,
            gateways,
            chosen,
        })
    }

    ghost use Rattle.vpc_model.specs.Accepted.{two_acls, two_gateways, two_tables, without_acl, without_table};
    ghost use Rattle.reference_check.specs.Attached.{subnets_with_two, vpcs_with_two};

    /// The first subnet with no table, whose VPC has no main one.
    pub fn without_table(&self, alloc: Global, d: &Description) -> Result<(), Refusal>
        requires { AreAttached d.now self.now }
        ensures { Tells (without_table d.now) result }
    {
        match first_missing(self.chosen.as_slice()) {
            None => Ok(()),
            Some(k) => Err(Refusal::NoRouteTable(d.subnets.as_slice()[k].id.copied(alloc)?)),
        }
    }

    /// The first subnet without ACL.
    pub fn without_acl(&self, alloc: Global, d: &Description) -> Result<(), Refusal>
        requires { AreAttached d.now self.now }
        ensures { Tells (without_acl d.now) result }
    {
        match first_unclaimed(self.acls.as_slice()) {
            None => Ok(()),
            Some(k) => Err(Refusal::NoAcl(d.subnets.as_slice()[k].id.copied(alloc)?)),
        }
    }

    /// The first VPC to which two internet gateways are attached.
    pub fn two_gateways(&self, alloc: Global, d: &Description) -> Result<(), Refusal>
        requires { AreAttached d.now self.now }
        ensures { Tells (two_gateways d.now) result }
    {
        match first_twice(self.gateways.as_slice()) {
            None => Ok(()),
            Some(k) => Err(Refusal::TwoInternetGateways(d.vpcs.as_slice()[k].id.copied(alloc)?)),
        }
    }

    fn two_mains(&self, alloc: Global, d: &Description) -> Result<(), Refusal>
        requires { AreAttached d.now self.now }
        ensures { Tells (vpcs_with_two d.now) result }
    {
        match first_twice(self.mains.as_slice()) {
            None => Ok(()),
            Some(k) => Err(Refusal::TwoTables(d.vpcs.as_slice()[k].id.copied(alloc)?)),
        }
    }

    fn two_of_subnet(&self, alloc: Global, d: &Description) -> Result<(), Refusal>
        requires { AreAttached d.now self.now }
        ensures { Tells (subnets_with_two d.now) result }
    {
        match first_twice(self.tables.as_slice()) {
            None => Ok(()),
            Some(k) => Err(Refusal::TwoTables(d.subnets.as_slice()[k].id.copied(alloc)?)),
        }
    }

    /// The first VPC with two main tables, else the first subnet with two tables.
    pub fn two_tables(&self, alloc: Global, d: &Description) -> Result<(), Refusal>
        requires { AreAttached d.now self.now }
        ensures { Tells (two_tables d.now) result }
    {
        self.two_mains(alloc, d)?;
        self.two_of_subnet(alloc, d)
    }

    /// The first subnet with two ACLs.
    pub fn two_acls(&self, alloc: Global, d: &Description) -> Result<(), Refusal>
        requires { AreAttached d.now self.now }
        ensures { Tells (two_acls d.now) result }
    {
        match first_twice(self.acls.as_slice()) {
            None => Ok(()),
            Some(k) => Err(Refusal::TwoAcls(d.subnets.as_slice()[k].id.copied(alloc)?)),
        }
    }

    ghost use Rattle.std.specs.Prelude.{◌^◌};
    ghost use Rattle.vpc_model.specs.Lookup.{acl_of, gateway_of, table_of};

    /// The route table of a subnet.
    pub fn table_of(&self, d: &Description, s: SubnetNo) -> TableNo
        requires attached { AreAttached d.now self.now }
        requires within { s.0 < length d.now.subnets }
        requires numbered { length d.now.tables < 2 ^ 32 }
        ensures { result ≡ table_of d.now s }
    {
        match self.chosen[s.0 as usize] {
            Some(table) => TableNo(table as u32),
            None => TableNo(d.tables.as_slice().len() as u32),
        }
    }

    /// The ACL of a subnet.
    pub fn acl_of(&self, d: &Description, s: SubnetNo) -> AclNo
        requires attached { AreAttached d.now self.now }
        requires within { s.0 < length d.now.subnets }
        requires numbered { length d.now.acls < 2 ^ 32 }
        ensures { result ≡ acl_of d.now s }
    {
        match self.acls[s.0 as usize].first() {
            Some(acl) => AclNo(acl as u32),
            None => AclNo(d.acls.as_slice().len() as u32),
        }
    }

    /// The internet gateway that is attached to a VPC.
    pub fn gateway_of(&self, d: &Description, v: VpcNo) -> Option<IgwNo>
        requires attached { AreAttached d.now self.now }
        requires within { v.0 < length d.now.vpcs }
        requires numbered { length d.now.igws < 2 ^ 32 }
        ensures { result ≡ gateway_of d.now v }
    {
        let _ = d;
        match self.gateways[v.0 as usize].first() {
            Some(gateway) => Some(IgwNo(gateway as u32)),
            None => None,
        }
    }
}
