// Accepted descriptions.
ghost use Rattle.std.specs.Prelude.{◌≡◌, ◌<◌, ◌^◌, [], IfOk, IfSome, IsTrue, OnOk, bytes_eq, is_some, length, map, position};
ghost use Rattle.std.specs.List.{list_any, position_or_len};
ghost use Rattle.vpc_model.specs.Accepted.{IsAccepted, missing_references, refusals_of, too_many_rows};
ghost use Rattle.reference_check.specs.Attached.{AreAttached};
ghost use Rattle.reference_check.specs.Causes.{causes_of_doubles, causes_of_lack, causes_of_names, causes_of_rows, causes_of_subnets};
ghost use Rattle.reference_check.specs.Hosts.{AreHosts};
ghost use Rattle.reference_check.specs.Told.{Tells};

use crate::addresses::duplicate_publics;
use crate::directory::Directory;
use crate::hosts::Hosts;
use crate::ids::Ids;
use crate::lengths::check_lengths;
use crate::references::check_references;
use crate::rows::Row;
use crate::subnets::Attached;
use prefix_text::Prefix;
use std::alloc::Global;
use std::marker::Model;
use vpc_model::{
    AclNo, AttNo, Description, EniNo, GroupNo, IgwNo, NatNo, PeerNo, Refusal, SubnetNo, TableNo,
    TgwTableNo, VpcNo,
};

// Checks what rows name, and finds their addresses.
fn check_names(alloc: Global, rows: &Directory, hosts: &mut Hosts) -> Result<(), Refusal>
    ensures told { Tells (causes_of_names rows.now) result }
    ensures complete { OnOk result (missing_references rows.now ≡ []) }
    ensures hosts { OnOk result (AreHosts rows.now hosts.new) }
{
    check_references(alloc, rows)?;
    *hosts = Hosts::of(alloc, rows.description(), &rows.ids().networks)?;
    duplicate_publics(alloc, rows.description())
}

fn check_lack(alloc: Global, d: &Description, attached: &Attached) -> Result<(), Refusal>
    requires { AreAttached d.now attached.now }
    ensures { Tells (causes_of_lack d.now) result }
{
    attached.without_table(alloc, d)?;
    attached.without_acl(alloc, d)
}

fn check_doubles(alloc: Global, d: &Description, attached: &Attached) -> Result<(), Refusal>
    requires { AreAttached d.now attached.now }
    ensures { Tells (causes_of_doubles d.now) result }
{
    attached.two_gateways(alloc, d)?;
    attached.two_tables(alloc, d)?;
    attached.two_acls(alloc, d)
}

// Finds what is attached to subnets and VPCs, and checks it.
fn check_subnets(alloc: Global, rows: &Directory, attached: &mut Attached) -> Result<(), Refusal>
    requires complete { missing_references rows.now ≡ [] }
    ensures told { Tells (causes_of_subnets rows.now) result }
    ensures attached { OnOk result (AreAttached rows.now attached.new) }
{
    let d = rows.description();
    *attached = Attached::of(alloc, d, &rows.ids().networks)?;
    check_lack(alloc, d, attached)?;
    check_doubles(alloc, d, attached)
}

// Checks rows whose ids differ.
fn check_rows(
    alloc: Global,
    rows: &Directory,
    hosts: &mut Hosts,
    attached: &mut Attached,
) -> Result<(), Refusal>
    ensures told { Tells (causes_of_rows rows.now) result }
    ensures hosts { OnOk result (AreHosts rows.now hosts.new) }
    ensures attached { OnOk result (AreAttached rows.now attached.new) }
{
    check_names(alloc, rows, hosts)?;
    check_subnets(alloc, rows, attached)?;
    check_lengths(rows.description())
}

// The number of the row with an id.
fn number_of<R: Row>(rows: &[R], ids: &Ids, id: &[u8]) -> Option<u32>
    requires numbered { ids.now ≡ map R.id_of rows.now }
    requires counted { length rows.now < 2 ^ 32 }
    ensures first { result ≡ position (λ r. bytes_eq (R.id_of r) id.now) rows.now }
    ensures found { is_some result ≡ list_any (λ r. bytes_eq (R.id_of r) id.now) rows.now }
    ensures number { IfSome result (λ k. k ≡ position_or_len (λ r. bytes_eq (R.id_of r) id.now) rows.now) }
{
    let _ = rows;
    match ids.number(id) {
        Some(k) => Some(k as u32),
        None => None,
    }
}

/// A description that makes a network, with what finds its rows. Contracts see the description, which is
/// accepted.
pub struct Network {
    rows: Directory,
    hosts: Hosts,
    attached: Attached,
}

impl Drop for Network {
    fn drop(self) {
        let Network {
            rows,
            hosts,
            attached,
        } = self;
        drop(rows);
        drop(hosts);
        drop(attached);
    }
}

impl Model for Network {
    ghost use Rattle.vpc_model.specs.declared.rows.Description.{Description};

    ghost Value = { Description };

    ghost use Rattle.reference_check.specs.Network.{IsNetwork};

    ghost view = { λ s. s.rows };

    ghost invariant = { λ s. IsNetwork s.rows s.hosts s.attached };
}

impl Network {
    ghost use Rattle.vpc_model.specs.Lookup.{acl_of, attachment_of_id, eni_no, entries_of, gateway_of, group_of_id, has_igw, has_interface, has_nat, has_peering, has_subnet, has_vpc, host_of, igw_no, nat_no, peer_no, subnet_no, table_of, tgw_table_of_id, vpc_no};
    ghost use Rattle.vpc_model.specs.Sound.{is_subnet, is_vpc};
    ghost use Rattle.reference_check.specs.Delegated.{IsDelegatedUpTo};
    ghost use Rattle.reference_check.specs.Network.{AreCounted};

    /// The network that a description makes, or the first reason why it makes none.
    pub fn of(alloc: Global, d: Description) -> Result<Network, Refusal>
        ensures told { Tells (refusals_of d) result }
        ensures value { IfOk result (λ n. n ≡ d) }
    {
        let rows = Directory::of(alloc, d)?;
        let mut hosts = Hosts::none(alloc);
        let mut attached = Attached::none(alloc);
        match check_rows(alloc, &rows, &mut hosts, &mut attached) {
            Ok(()) => Ok(Network {
                rows,
                hosts,
                attached,
            }),
            Err(cause) => Err(cause),
        }
    }

    pub fn description(&self) -> &Description
        ensures value { result.now ≡ self.now }
        ensures accepted { IsAccepted self.now }
    {
        self.rows.description()
    }

    /// Its rows, found by their ids.
    pub(crate) fn directory(&self) -> &Directory
        ensures value { result.now ≡ self.now }
        ensures counted { AreCounted self.now }
    {
        &self.rows
    }

    /// The VPC with this id.
    pub fn vpc(&self, id: &[u8]) -> Option<VpcNo>
        ensures found { is_some result ≡ has_vpc self.now id.now }
        ensures number { IfSome result (λ x. x ≡ vpc_no self.now id.now) }
    {
        let rows = self.rows.description().vpcs.as_slice();
        match number_of(rows, &self.rows.ids().networks.vpcs, id) {
            Some(k) => Some(VpcNo(k)),
            None => None,
        }
    }

    /// The subnet with this id.
    pub fn subnet(&self, id: &[u8]) -> Option<SubnetNo>
        ensures found { is_some result ≡ has_subnet self.now id.now }
        ensures number { IfSome result (λ x. x ≡ subnet_no self.now id.now) }
    {
        let rows = self.rows.description().subnets.as_slice();
        match number_of(rows, &self.rows.ids().networks.subnets, id) {
            Some(k) => Some(SubnetNo(k)),
            None => None,
        }
    }

    /// The interface with this id.
    pub fn eni(&self, id: &[u8]) -> Option<EniNo>
        ensures found { is_some result ≡ has_interface self.now id.now }
        ensures number { IfSome result (λ x. x ≡ eni_no self.now id.now) }
    {
        let rows = self.rows.description().interfaces.as_slice();
        match number_of(rows, &self.rows.ids().networks.interfaces, id) {
            Some(k) => Some(EniNo(k)),
            None => None,
        }
    }

    /// The internet gateway with this id.
    pub fn igw(&self, id: &[u8]) -> Option<IgwNo>
        ensures found { is_some result ≡ has_igw self.now id.now }
        ensures number { IfSome result (λ x. x ≡ igw_no self.now id.now) }
    {
        let rows = self.rows.description().igws.as_slice();
        match number_of(rows, &self.rows.ids().gateways.igws, id) {
            Some(k) => Some(IgwNo(k)),
            None => None,
        }
    }

    /// The NAT gateway with this id.
    pub fn nat(&self, id: &[u8]) -> Option<NatNo>
        ensures found { is_some result ≡ has_nat self.now id.now }
        ensures number { IfSome result (λ x. x ≡ nat_no self.now id.now) }
    {
        let rows = self.rows.description().nats.as_slice();
        match number_of(rows, &self.rows.ids().gateways.nats, id) {
            Some(k) => Some(NatNo(k)),
            None => None,
        }
    }

    /// The peering with this id.
    pub fn peering(&self, id: &[u8]) -> Option<PeerNo>
        ensures found { is_some result ≡ has_peering self.now id.now }
        ensures number { IfSome result (λ x. x ≡ peer_no self.now id.now) }
    {
        let rows = self.rows.description().peerings.as_slice();
        match number_of(rows, &self.rows.ids().gateways.peerings, id) {
            Some(k) => Some(PeerNo(k)),
            None => None,
        }
    }

    /// The security group with this id.
    pub fn group(&self, id: &[u8]) -> Option<GroupNo>
        ensures { result ≡ group_of_id self.now id.now }
    {
        let rows = self.rows.description().groups.as_slice();
        match number_of(rows, &self.rows.ids().filters.groups, id) {
            Some(k) => Some(GroupNo(k)),
            None => None,
        }
    }

    /// The VPC attachment with this id.
    pub fn attachment(&self, id: &[u8]) -> Option<AttNo>
        ensures { result ≡ attachment_of_id self.now id.now }
    {
        let rows = self.rows.description().attachments.as_slice();
        match number_of(rows, &self.rows.ids().gateways.attachments, id) {
            Some(k) => Some(AttNo(k)),
            None => None,
        }
    }

    /// The transit gateway route table with this id.
    pub fn tgw_table(&self, id: &[u8]) -> Option<TgwTableNo>
        ensures { result ≡ tgw_table_of_id self.now id.now }
    {
        let rows = self.rows.description().tgw_tables.as_slice();
        match number_of(rows, &self.rows.ids().gateways.tgw_tables, id) {
            Some(k) => Some(TgwTableNo(k)),
            None => None,
        }
    }

    /// The blocks of the prefix list with this id, none where it isn't described.
    pub fn entries(&self, list: &[u8]) -> &[Prefix]
        ensures { result.now ≡ entries_of self.now list.now }
    {
        match self.rows.list(list) {
            Some(list) => list.entries.as_slice(),
            None => &[],
        }
    }

    /// To which interface of a VPC the address is delegated, as one of a block, if it is to any; and the last
    /// address up to which the same holds of all. It reads about log2 n blocks.
    pub fn delegated(&self, vpc: VpcNo, address: u32) -> (u32, Option<EniNo>)
        requires { IsTrue (is_vpc self.now vpc) }
        ensures { IsDelegatedUpTo self.now vpc address result }
    {
        self.hosts.delegated(self.rows.description(), vpc, address)
    }

    /// The interface of a VPC that has this private address.
    pub fn host(&self, vpc: VpcNo, addr: u32) -> Option<EniNo>
        requires { IsTrue (is_vpc self.now vpc) }
        ensures { result ≡ host_of self.now vpc addr }
    {
        self.hosts.host_of(self.rows.description(), vpc, addr)
    }

    /// The route table of a subnet: the one associated with it, else the main one of its VPC.
    pub fn table_of(&self, subnet: SubnetNo) -> TableNo
        requires { IsTrue (is_subnet self.now subnet) }
        ensures { result ≡ table_of self.now subnet }
    {
        self.attached.table_of(self.rows.description(), subnet)
    }

    /// The network ACL of a subnet.
    pub fn acl_of(&self, subnet: SubnetNo) -> AclNo
        requires { IsTrue (is_subnet self.now subnet) }
        ensures { result ≡ acl_of self.now subnet }
    {
        self.attached.acl_of(self.rows.description(), subnet)
    }

    /// The internet gateway that is attached to a VPC.
    pub fn gateway_of(&self, vpc: VpcNo) -> Option<IgwNo>
        requires { IsTrue (is_vpc self.now vpc) }
        ensures { result ≡ gateway_of self.now vpc }
    {
        self.attached.gateway_of(self.rows.description(), vpc)
    }
}
