// The row of a number, and the number of a row that is described.
ghost use Rattle.std.specs.Prelude.{◌≡◌, Contains, IsTrue};
ghost use Rattle.vpc_model.specs.Access.{access_in};
ghost use Rattle.vpc_model.specs.Lookup as rows;
ghost use Rattle.vpc_model.specs.Sound.{is_acl, is_attachment, is_eni, is_far, is_firewall, is_group, is_igw, is_nat, is_peering, is_subnet, is_table, is_tgw_table, is_vpc};

use crate::Network;
use vpc_model::{
    Access, Acl, AclNo, AttNo, Attachment, EniNo, Far, FarNo, FirewallEndpoint, FirewallNo, Group,
    GroupNo, Id, IgwNo, Interface, InternetGateway, NatGateway, NatNo, PeerNo, Peering, RouteTable,
    Subnet, SubnetNo, TableNo, TgwTable, TgwTableNo, Vpc, VpcNo,
};

impl Network {
    /// The row of a VPC.
    pub fn vpc_at(&self, v: VpcNo) -> &Vpc
        requires { IsTrue (is_vpc self.now v) }
        ensures { result.now ≡ rows.vpc_at self.now v }
    {
        &self.description().vpcs.as_slice()[v.0 as usize]
    }

    /// The row of a subnet.
    pub fn subnet_at(&self, s: SubnetNo) -> &Subnet
        requires { IsTrue (is_subnet self.now s) }
        ensures { result.now ≡ rows.subnet_at self.now s }
    {
        &self.description().subnets.as_slice()[s.0 as usize]
    }

    /// The row of an interface.
    pub fn interface_at(&self, i: EniNo) -> &Interface
        requires { IsTrue (is_eni self.now i) }
        ensures { result.now ≡ rows.interface_at self.now i }
    {
        &self.description().interfaces.as_slice()[i.0 as usize]
    }

    /// The row of a route table.
    pub fn table_at(&self, t: TableNo) -> &RouteTable
        requires { IsTrue (is_table self.now t) }
        ensures { result.now ≡ rows.table_at self.now t }
    {
        &self.description().tables.as_slice()[t.0 as usize]
    }

    /// The row of a network ACL.
    pub fn acl_at(&self, a: AclNo) -> &Acl
        requires { IsTrue (is_acl self.now a) }
        ensures { result.now ≡ rows.acl_at self.now a }
    {
        &self.description().acls.as_slice()[a.0 as usize]
    }

    /// The row of a security group.
    pub fn group_at(&self, g: GroupNo) -> &Group
        requires { IsTrue (is_group self.now g) }
        ensures { result.now ≡ rows.group_at self.now g }
    {
        &self.description().groups.as_slice()[g.0 as usize]
    }

    /// The row of an internet gateway.
    pub fn igw_at(&self, g: IgwNo) -> &InternetGateway
        requires { IsTrue (is_igw self.now g) }
        ensures { result.now ≡ rows.igw_at self.now g }
    {
        &self.description().igws.as_slice()[g.0 as usize]
    }

    /// The row of a NAT gateway.
    pub fn nat_at(&self, n: NatNo) -> &NatGateway
        requires { IsTrue (is_nat self.now n) }
        ensures { result.now ≡ rows.nat_at self.now n }
    {
        &self.description().nats.as_slice()[n.0 as usize]
    }

    /// The row of a peering.
    pub fn peering_at(&self, x: PeerNo) -> &Peering
        requires { IsTrue (is_peering self.now x) }
        ensures { result.now ≡ rows.peering_at self.now x }
    {
        &self.description().peerings.as_slice()[x.0 as usize]
    }

    /// The row of a VPC attachment.
    pub fn attachment_at(&self, a: AttNo) -> &Attachment
        requires { IsTrue (is_attachment self.now a) }
        ensures { result.now ≡ rows.attachment_at self.now a }
    {
        &self.description().attachments.as_slice()[a.0 as usize]
    }

    /// The row of a transit gateway route table.
    pub fn tgw_table_at(&self, t: TgwTableNo) -> &TgwTable
        requires { IsTrue (is_tgw_table self.now t) }
        ensures { result.now ≡ rows.tgw_table_at self.now t }
    {
        &self.description().tgw_tables.as_slice()[t.0 as usize]
    }

    /// The row of a network that isn't described.
    pub fn far_at(&self, k: FarNo) -> &Far
        requires { IsTrue (is_far self.now k) }
        ensures { result.now ≡ rows.far_at self.now k }
    {
        &self.description().fars.as_slice()[k.0 as usize]
    }

    /// The row of a firewall endpoint.
    pub fn firewall_at(&self, e: FirewallNo) -> &FirewallEndpoint
        requires { IsTrue (is_firewall self.now e) }
        ensures { result.now ≡ rows.firewall_at self.now e }
    {
        &self.description().firewalls.as_slice()[e.0 as usize]
    }

    /// The number of a described VPC.
    pub fn vpc_named(&self, id: &Id) -> VpcNo
        requires { IsTrue (rows.has_vpc self.now id.now) }
        ensures { result ≡ rows.vpc_no self.now id.now }
    {
        match self.vpc(id.bytes()) {
            Some(number) => number,
            None => unreachable!(),
        }
    }

    /// The number of a described subnet.
    pub fn subnet_named(&self, id: &Id) -> SubnetNo
        requires { IsTrue (rows.has_subnet self.now id.now) }
        ensures { result ≡ rows.subnet_no self.now id.now }
    {
        match self.subnet(id.bytes()) {
            Some(number) => number,
            None => unreachable!(),
        }
    }

    /// The number of a described interface.
    pub fn eni_named(&self, id: &Id) -> EniNo
        requires { IsTrue (rows.has_interface self.now id.now) }
        ensures { result ≡ rows.eni_no self.now id.now }
    {
        match self.eni(id.bytes()) {
            Some(number) => number,
            None => unreachable!(),
        }
    }

    fn subnet_of_interface(&self, interface: &Interface) -> &Subnet
        requires { Contains self.now.interfaces interface.now }
        ensures { result.now ≡ rows.subnet_at self.now (rows.subnet_no self.now interface.now.subnet) }
    {
        let _ = self.description();
        self.subnet_at(self.subnet_named(&interface.subnet))
    }

    /// The VPC of an interface of the network.
    pub fn vpc_of_interface(&self, interface: &Interface) -> VpcNo
        requires { Contains self.now.interfaces interface.now }
        ensures { result ≡ rows.vpc_no self.now (rows.vpc_of_interface self.now interface.now) }
    {
        let _ = self.description();
        let subnet = self.subnet_of_interface(interface);
        self.vpc_named(&subnet.vpc)
    }

    // The mode of a subnet's VPC, if it is told.
    fn vpc_access(&self, subnet: &Subnet) -> Option<Access>
        requires { Contains self.now.subnets subnet.now }
        ensures { let v = rows.vpc_no self.now subnet.now.vpc in
            let row = rows.vpc_at self.now v in result ≡ row.access }
    {
        let _ = self.description();
        self.vpc_at(self.vpc_named(&subnet.vpc)).access
    }

    /// The mode of Block Public Access in a subnet of the network: its own, else that of its VPC; off where
    /// none is told.
    pub fn access_in(&self, subnet: &Subnet) -> Access
        requires { Contains self.now.subnets subnet.now }
        ensures { result ≡ access_in self.now subnet.now }
    {
        if let Some(access) = subnet.access {
            return access;
        }
        match self.vpc_access(subnet) {
            Some(access) => access,
            None => Access::Off,
        }
    }
}
