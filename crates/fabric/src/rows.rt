//! Rows of a network by their numbers, where interfaces, subnets and NAT gateways lie, and the VPC at the other side of a peering.

ghost use Rattle.std.specs.Prelude.{◌≡◌, IsTrue};
ghost use Rattle.fabric.specs.Sites.{far_vpc};
ghost use Rattle.fabric.specs.Targets.{route_at};
ghost use Rattle.vpc_model.specs.Lookup as rows;
ghost use Rattle.vpc_model.specs.Sound.{is_eni, is_far, is_live, is_nat, is_peering, is_route, is_subnet, is_table, is_vpc};
ghost use Rattle.vpc_model.specs.Step.Nat.{own_subnet};

use crate::Fabric;
use vpc_model::{
    EniNo, Far, FarNo, Interface, NatGateway, NatNo, PeerNo, Peering, Route, RouteTable, Subnet,
    SubnetNo, TableNo, Vpc, VpcNo,
};

/// The row of an interface.
pub fn interface_at<'a>(f: &'a Fabric, i: EniNo) -> &'a Interface
    requires { IsTrue (is_eni f.now i) }
    ensures { result.now ≡ rows.interface_at f.now i }
{
    f.network().interface_at(i)
}

/// The row of a subnet.
pub fn subnet_at<'a>(f: &'a Fabric, s: SubnetNo) -> &'a Subnet
    requires { IsTrue (is_subnet f.now s) }
    ensures { result.now ≡ rows.subnet_at f.now s }
{
    f.network().subnet_at(s)
}

/// The row of a VPC.
pub fn vpc_at<'a>(f: &'a Fabric, v: VpcNo) -> &'a Vpc
    requires { IsTrue (is_vpc f.now v) }
    ensures { result.now ≡ rows.vpc_at f.now v }
{
    f.network().vpc_at(v)
}

/// The row of a route table.
pub fn table_at<'a>(f: &'a Fabric, t: TableNo) -> &'a RouteTable
    requires { IsTrue (is_table f.now t) }
    ensures { result.now ≡ rows.table_at f.now t }
{
    f.network().table_at(t)
}

/// A route of a table.
pub fn route_at<'a>(f: &'a Fabric, t: TableNo, k: u32) -> &'a Route
    requires { IsTrue (is_route f.now t k) }
    ensures { result.now ≡ route_at f.now t k }
{
    &table_at(f, t).routes.as_slice()[k as usize]
}

/// The row of a NAT gateway.
pub fn nat_at<'a>(f: &'a Fabric, n: NatNo) -> &'a NatGateway
    requires { IsTrue (is_nat f.now n) }
    ensures { result.now ≡ rows.nat_at f.now n }
{
    f.network().nat_at(n)
}

/// The row of a network that isn't described.
pub fn far_at<'a>(f: &'a Fabric, k: FarNo) -> &'a Far
    requires { IsTrue (is_far f.now k) }
    ensures { result.now ≡ rows.far_at f.now k }
{
    f.network().far_at(k)
}

/// The row of a peering.
pub fn peering_at<'a>(f: &'a Fabric, x: PeerNo) -> &'a Peering
    requires { IsTrue (is_peering f.now x) }
    ensures { result.now ≡ rows.peering_at f.now x }
{
    f.network().peering_at(x)
}

/// The subnet of an interface.
pub fn subnet_of(f: &Fabric, i: EniNo) -> SubnetNo
    requires { IsTrue (is_eni f.now i) }
    ensures number { result ≡ rows.subnet_of f.now i }
    ensures lies { IsTrue (is_subnet f.now result) }
{
    // That the network is accepted is a clause of this call.
    let _ = f.network().description();
    f.subnet_of(i)
}

/// The VPC of a subnet.
pub fn vpc_of(f: &Fabric, s: SubnetNo) -> VpcNo
    requires { IsTrue (is_subnet f.now s) }
    ensures number { result ≡ rows.vpc_of_subnet f.now s }
    ensures lies { IsTrue (is_vpc f.now result) }
{
    let _ = f.network().description();
    f.vpc_of(s)
}

/// The subnet of a live NAT gateway.
pub fn nat_subnet(f: &Fabric, n: NatNo) -> SubnetNo
    requires nat { IsTrue (is_nat f.now n) }
    requires live { let row = rows.nat_at f.now n in IsTrue (is_live row.life) }
    ensures number { let row = rows.nat_at f.now n in
        result ≡ rows.subnet_no f.now (own_subnet row.life) }
    ensures lies { IsTrue (is_subnet f.now result) }
{
    let _ = f.network().description();
    f.nat_subnet(n)
}

/// The VPC at the other side of an active peering, if it is described; of a VPC that is peered with itself, its own.
pub fn far_vpc(f: &Fabric, x: PeerNo, v: VpcNo) -> Option<VpcNo>
    requires peering { IsTrue (is_peering f.now x) }
    requires vpc { IsTrue (is_vpc f.now v) }
    ensures { let row = rows.peering_at f.now x in result ≡ far_vpc f.now v row.pair }
{
    let pair = peering_at(f, x).pair.as_ref()?;
    let (one, other) = f.ends_of(x);
    if pair.0.bytes() == vpc_at(f, v).id.bytes() {
        other
    } else {
        one
    }
}
