// A network with its indexes.
ghost use Rattle.std.specs.Prelude.{◌≡◌, IfOk};
ghost use Rattle.edge_gateways.specs.Edges.{AreEdgesOf};
ghost use Rattle.security_groups.specs.Dividing.{HasRuleCuts};
ghost use Rattle.security_groups.specs.Index.{HasRulesOf};
ghost use Rattle.transit_gateway.specs.Index.{IsTransitOf};
ghost use Rattle.fabric.specs.Hosts.{AreHosts};
ghost use Rattle.fabric.specs.Indexes.{AreIndexesOf, IsAclIndex, IsRouteIndex};
ghost use Rattle.fabric.specs.Outside.{AreOutsideOf};

use crate::acls::acl_indexes;
use crate::hosts::hosts_by_address;
use crate::nats::nats_by_interface;
use crate::outside_rows::OutsideRows;
use crate::routes::route_indexes;
use crate::sites::{
    accesses_by_subnet, ends_by_peering, subnets_by_interface, subnets_by_nat, vpcs_by_subnet,
};
use crate::targets::targets_by_route;
use edge_gateways::EdgeMaps;
use network_acls::AclIndex;
use number_tables::NumberTable;
use reference_check::Network;
use route_tables::RouteIndex;
use security_groups::GroupIndex;
use std::alloc::Global;
use std::marker::Model;
use transit_gateway::TransitIndex;
use vpc_base::{NoMemory, OwnList};
use vpc_model::{Access, AclNo, EniNo, NatNo, PeerNo, SubnetNo, TableNo, VpcNo};

// What lets packets pass, and what leads them on.
struct Indexes {
    acls: Vec<AclIndex>,
    groups: GroupIndex,
    routes: Vec<RouteIndex>,
    edges: EdgeMaps,
    transit: TransitIndex,
    nats: NumberTable<NatNo>,
    hosts: NumberTable<EniNo>,
    subnets: Vec<SubnetNo>,
    vpcs: Vec<VpcNo>,
    accesses: Vec<Access>,
    nat_subnets: Vec<SubnetNo>,
    ends: Vec<(Option<VpcNo>, Option<VpcNo>)>,
    targets: Vec<OwnList<u32>>,
    outside: OutsideRows,
}

impl Drop for Indexes {
    fn drop(self) {
        let Indexes {
            acls,
            groups,
            routes,
            edges,
            transit,
            nats,
            hosts,
            subnets,
            vpcs,
            accesses,
            nat_subnets,
            ends,
            targets,
            outside,
        } = self;
        drop(acls);
        drop(groups);
        drop(routes);
        drop(edges);
        drop(transit);
        drop(nats);
        drop(hosts);
        drop(subnets);
        drop(vpcs);
        drop(accesses);
        drop(nat_subnets);
        drop(ends);
        drop(targets);
        drop(outside);
    }
}

impl Model for Indexes {
    ghost use Rattle.fabric.specs.Indexes.{IndexLists};

    ghost Value = { IndexLists };

    ghost view = { λ x. record {
      acls = x.acls.items;
      groups = x.groups;
      routes = x.routes.items;
      edges = x.edges;
      transit = x.transit;
      nats = x.nats;
      hosts = x.hosts;
      subnets = x.subnets.items;
      vpcs = x.vpcs.items;
      accesses = x.accesses.items;
      nat_subnets = x.nat_subnets.items;
      ends = x.ends.items;
      targets = x.targets.items;
      outside = x.outside;
    } };
}

fn indexes_of(alloc: Global, n: &Network) -> Result<Indexes, NoMemory>
    ensures { IfOk result (AreIndexesOf n.now) }
{
    let acls = acl_indexes(alloc, n)?;
    let groups = GroupIndex::of(alloc, n)?;
    let routes = route_indexes(alloc, n)?;
    let edges = EdgeMaps::of(alloc, n)?;
    let transit = TransitIndex::of(alloc, n)?;
    let nats = nats_by_interface(alloc, n)?;
    let hosts = hosts_by_address(alloc, n)?;
    let subnets = subnets_by_interface(alloc, n)?;
    let vpcs = vpcs_by_subnet(alloc, n)?;
    let accesses = accesses_by_subnet(alloc, n)?;
    let nat_subnets = subnets_by_nat(alloc, n)?;
    let ends = ends_by_peering(alloc, n)?;
    let targets = targets_by_route(alloc, n)?;
    let outside = OutsideRows::of(alloc, n)?;
    Ok(Indexes {
        acls,
        groups,
        routes,
        edges,
        transit,
        nats,
        hosts,
        subnets,
        vpcs,
        accesses,
        nat_subnets,
        ends,
        targets,
        outside,
    })
}

impl Indexes {
    ghost use Rattle.number_tables.specs.Entries.{value_at};
    ghost use Rattle.std.specs.Prelude.{◌<◌, [], Option, length, slice_index_or, ℕ};
    ghost use Rattle.network_acls.specs.Tried.{TriedRows};
    ghost use Rattle.piece_table.specs.Pieces.{PieceLists};
    ghost use Rattle.vpc_model.specs.declared.numbers.SubnetNo.{SubnetNo};
    ghost use Rattle.vpc_model.specs.declared.numbers.VpcNo.{VpcNo};
    ghost use Rattle.vpc_model.specs.declared.rows.Access.{Access};

    fn acl(&self, a: AclNo) -> &AclIndex
        requires { a.0 < length self.now.acls }
        ensures { (none : TriedRows) → result.now ≡ slice_index_or self.now.acls a.0 none }
    {
        &self.acls[a.0 as usize]
    }

    fn routes(&self, t: TableNo) -> &RouteIndex
        requires { t.0 < length self.now.routes }
        ensures { (none : PieceLists) → result.now ≡ slice_index_or self.now.routes t.0 none }
    {
        &self.routes[t.0 as usize]
    }

    fn groups(&self) -> &GroupIndex
        ensures { result.now ≡ self.now.groups }
    {
        &self.groups
    }

    fn edges(&self) -> &EdgeMaps
        ensures { result.now ≡ self.now.edges }
    {
        &self.edges
    }

    fn transit(&self) -> &TransitIndex
        ensures { result.now ≡ self.now.transit }
    {
        &self.transit
    }

    fn nat_of(&self, i: EniNo) -> Option<NatNo>
        ensures { result ≡ value_at i.0 self.now.nats }
    {
        self.nats.get(u64::from(i.0))
    }

    fn hosts(&self) -> &NumberTable<EniNo>
        ensures { result.now ≡ self.now.hosts }
    {
        &self.hosts
    }

    fn subnet_of(&self, i: EniNo) -> SubnetNo
        requires { i.0 < length self.now.subnets }
        ensures { (none : SubnetNo) → result ≡ slice_index_or self.now.subnets i.0 none }
    {
        self.subnets[i.0 as usize]
    }

    fn vpc_of(&self, s: SubnetNo) -> VpcNo
        requires { s.0 < length self.now.vpcs }
        ensures { (none : VpcNo) → result ≡ slice_index_or self.now.vpcs s.0 none }
    {
        self.vpcs[s.0 as usize]
    }

    fn access_of(&self, s: SubnetNo) -> Access
        requires { s.0 < length self.now.accesses }
        ensures { (none : Access) → result ≡ slice_index_or self.now.accesses s.0 none }
    {
        self.accesses[s.0 as usize]
    }

    fn nat_subnet(&self, n: NatNo) -> SubnetNo
        requires { n.0 < length self.now.nat_subnets }
        ensures { (none : SubnetNo) → result ≡ slice_index_or self.now.nat_subnets n.0 none }
    {
        self.nat_subnets[n.0 as usize]
    }

    fn ends_of(&self, x: PeerNo) -> (Option<VpcNo>, Option<VpcNo>)
        requires { x.0 < length self.now.ends }
        ensures { (none : Option VpcNo × Option VpcNo) →
            result ≡ slice_index_or self.now.ends x.0 none }
    {
        self.ends[x.0 as usize]
    }

    fn outside(&self) -> &OutsideRows
        ensures { result.now ≡ self.now.outside }
    {
        &self.outside
    }

    fn target_number(&self, t: TableNo, k: u32) -> u32
        requires table { t.0 < length self.now.targets }
        requires route { k < length (slice_index_or self.now.targets t.0 []) }
        ensures { (none : ℕ) →
            result ≡ slice_index_or (slice_index_or self.now.targets t.0 []) k none }
    {
        self.targets[t.0 as usize].as_slice()[k as usize]
    }
}

/// An accepted network with the indexes of everything that a walk asks. Contracts see its description.
pub struct Fabric {
    network: Network,
    indexes: Indexes,
}

impl Drop for Fabric {
    fn drop(self) {
        let Fabric { network, indexes } = self;
        drop(network);
        drop(indexes);
    }
}

impl Model for Fabric {
    ghost use Rattle.vpc_model.specs.declared.rows.Description.{Description};
    ghost use Rattle.fabric.specs.Indexes.{AreIndexesOf};

    ghost Value = { Description };

    ghost view = { λ f. f.network };

    ghost invariant = { λ f. AreIndexesOf f.network f.indexes };
}

impl Fabric {
    ghost use Rattle.std.specs.Prelude.{IsTrue};
    ghost use Rattle.fabric.specs.Sites.{ends_by};
    ghost use Rattle.fabric.specs.Targets.{route_at, target_number};
    ghost use Rattle.vpc_model.specs.Access.{access_of};
    ghost use Rattle.vpc_model.specs.Lookup.{acl_at, nat_at, peering_at, subnet_no, subnet_of, table_at, vpc_of_subnet};
    ghost use Rattle.vpc_model.specs.Sound.{is_acl, is_eni, is_nat, is_peering, is_route, is_subnet, is_table};
    ghost use Rattle.vpc_model.specs.Step.Crossing.{nat_of};
    ghost use Rattle.vpc_model.specs.Step.Nat.{own_subnet};

    /// The network with its indexes. It takes time n log n in the rows and in the pairs of a group and an
    /// address that interfaces have.
    pub fn of(alloc: Global, n: Network) -> Result<Fabric, NoMemory>
        ensures { IfOk result (λ f. f ≡ n) }
    {
        match indexes_of(alloc, &n) {
            Ok(indexes) => Ok(Fabric {
                network: n,
                indexes,
            }),
            Err(no_memory) => Err(no_memory),
        }
    }

    pub fn network(&self) -> &Network
        ensures { result.now ≡ self.now }
    {
        &self.network
    }

    /// The index of a route table.
    pub fn routes(&self, t: TableNo) -> &RouteIndex
        requires { IsTrue (is_table self.now t) }
        ensures { IsRouteIndex self.now (table_at self.now t) result.now }
    {
        self.indexes.routes(t)
    }

    /// The index of a network ACL.
    pub fn acl(&self, a: AclNo) -> &AclIndex
        requires { IsTrue (is_acl self.now a) }
        ensures { IsAclIndex (acl_at self.now a) result.now }
    {
        self.indexes.acl(a)
    }

    /// The rules of the security groups.
    pub fn groups(&self) -> &GroupIndex
        ensures rules { HasRulesOf self.now result.now }
        ensures cuts { HasRuleCuts self.now result.now }
    {
        self.indexes.groups()
    }

    /// The public addresses, and what peerings carry.
    pub fn edges(&self) -> &EdgeMaps
        ensures { AreEdgesOf self.now result.now }
    {
        self.indexes.edges()
    }

    /// The transit gateways.
    pub fn transit(&self) -> &TransitIndex
        ensures { IsTransitOf self.now result.now }
    {
        self.indexes.transit()
    }

    /// The first live NAT gateway whose interface this is.
    pub fn nat_of(&self, i: EniNo) -> Option<NatNo>
        requires { IsTrue (is_eni self.now i) }
        ensures { result ≡ nat_of self.now i }
    {
        self.indexes.nat_of(i)
    }

    /// The interfaces by the keys of their VPCs and the private addresses that are assigned to them: a
    /// look-up reads about log2 n entries where a search goes through all interfaces, and the next key says
    /// up to where none is assigned.
    pub fn hosts(&self) -> &NumberTable<EniNo>
        ensures { AreHosts self.now result.now }
    {
        self.indexes.hosts()
    }

    /// The subnet of an interface.
    pub fn subnet_of(&self, i: EniNo) -> SubnetNo
        requires { IsTrue (is_eni self.now i) }
        ensures { result ≡ subnet_of self.now i }
    {
        self.indexes.subnet_of(i)
    }

    /// The VPC of a subnet.
    pub fn vpc_of(&self, s: SubnetNo) -> VpcNo
        requires { IsTrue (is_subnet self.now s) }
        ensures { result ≡ vpc_of_subnet self.now s }
    {
        self.indexes.vpc_of(s)
    }

    /// What Block Public Access lets past internet gateways from and to a subnet.
    pub fn access_of(&self, s: SubnetNo) -> Access
        requires { IsTrue (is_subnet self.now s) }
        ensures { result ≡ access_of self.now s }
    {
        self.indexes.access_of(s)
    }

    /// The subnet of a NAT gateway.
    pub fn nat_subnet(&self, n: NatNo) -> SubnetNo
        requires { IsTrue (is_nat self.now n) }
        ensures { let row = nat_at self.now n in
            result ≡ subnet_no self.now (own_subnet row.life) }
    {
        self.indexes.nat_subnet(n)
    }

    /// The VPCs that a peering joins, those that are described; none where it isn't active.
    pub fn ends_of(&self, x: PeerNo) -> (Option<VpcNo>, Option<VpcNo>)
        requires { IsTrue (is_peering self.now x) }
        ensures { let row = peering_at self.now x in result ≡ ends_by self.now row.pair }
    {
        self.indexes.ends_of(x)
    }

    // The tables of gateways, and what stands behind firewall endpoints.
    pub(crate) fn outside(&self) -> &OutsideRows
        ensures { AreOutsideOf self.now result.now }
    {
        self.indexes.outside()
    }

    /// The number of the internet gateway, NAT gateway, peering or interface that a route leads to.
    pub fn target_number(&self, t: TableNo, k: u32) -> u32
        requires { IsTrue (is_route self.now t k) }
        ensures { let r = route_at self.now t k in result ≡ target_number self.now r.target }
    {
        self.indexes.target_number(t, k)
    }
}
