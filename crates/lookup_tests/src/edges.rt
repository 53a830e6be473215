// Bodies of addresses, public addresses and peerings.
ghost use Rattle.std.specs.Prelude.{◌≤◌};
ghost use Rattle.box_images.specs.Images.{IsImageOfWalk, IsValidImage};

use crate::networks::network_of;
use crate::requests::opens;
use box_images::Image;
use edge_gateways::{Carry, EdgeMaps, unroutable_on};
use header_boxes::Box5;
use std::process::Abort;
use std::test::Fail;
use vpc_model::{PeerNo, VpcNo};

// VPC 0 has the addresses 10 to 19, VPC 1 has 30 to 39, and they are peered. In VPC 1 an interface has 10 with the
// public address 500, and 20 with 700.
const BUNDLE: &str = r#"{
"Vpcs":[
{"VpcId":"vpc-0","CidrBlock":"0.0.0.10/31",
"CidrBlockAssociationSet":[{"CidrBlock":"0.0.0.12/30"},{"CidrBlock":"0.0.0.16/30"}]},
{"VpcId":"vpc-1","CidrBlock":"0.0.0.30/31","CidrBlockAssociationSet":[{"CidrBlock":"0.0.0.32/29"}]}],
"Subnets":[{"SubnetId":"subnet-1","VpcId":"vpc-1","AvailabilityZone":"z"}],
"NetworkInterfaces":[
{"NetworkInterfaceId":"eni-1","SubnetId":"subnet-1","PrivateIpAddresses":[
{"PrivateIpAddress":"0.0.0.10","Association":{"PublicIp":"0.0.1.244"}},
{"PrivateIpAddress":"0.0.0.20","Association":{"PublicIp":"0.0.2.188"}}]}],
"RouteTables":[{"RouteTableId":"rtb-1","VpcId":"vpc-1","Associations":[{"Main":true}]}],
"NetworkAcls":[{"NetworkAclId":"acl-1","Associations":[{"SubnetId":"subnet-1"}]}],
"VpcPeeringConnections":[
{"VpcPeeringConnectionId":"pcx-01","Status":{"Code":"active"},
"RequesterVpcInfo":{"VpcId":"vpc-0"},"AccepterVpcInfo":{"VpcId":"vpc-1"}}]}"#;

// Requests from and to these addresses.
fn between(src: (u32, u32), dst: (u32, u32)) -> Image
    requires src { src.0 ≤ src.1 }
    requires dst { dst.0 ≤ dst.1 }
    ensures valid { IsValidImage result }
    ensures walk { IsImageOfWalk result }
{
    opens(&Box5 {
        proto: (6, 6),
        src,
        dst,
        p: (1000, 2000),
        q: (443, 443),
    })
}

/// Sources and destinations.
type Sides = ((u32, u32), (u32, u32));

const PUBLIC: u32 = 0x0808_0808;

// What is told of the first header, and the last source and destination of the body.
const UNROUTABLE: [(Sides, (bool, u32, u32)); 4] = [
    (
        ((PUBLIC, PUBLIC), (0x0A00_0000, 0xFFFF_FFFF)),
        (true, PUBLIC, 0x0AFF_FFFF),
    ),
    (
        ((0x0900_0000, 0x0B00_0000), (PUBLIC, PUBLIC)),
        (false, 0x09FF_FFFF, PUBLIC),
    ),
    (
        ((0xE000_0000, 0xFFFF_FFFF), (0, 0xFFFF_FFFF)),
        (true, 0xFFFF_FFFF, 0xFFFF_FFFF),
    ),
    (
        ((PUBLIC, PUBLIC), (0xC0A9_0000, 0xFFFF_FFFF)),
        (false, PUBLIC, 0xDFFF_FFFF),
    ),
];

#[test]
fn asks_unroutable_addresses(rt: HostRuntime) {
    for ((src, dst), want) in UNROUTABLE {
        assert!(rt; src.0 <= src.1);
        assert!(rt; dst.0 <= dst.1);
        let got = unroutable_on(&between(src, dst));
        assert!(rt; (got.told, got.body.src.1, got.body.dst.1) == want);
    }
}

// Of the second VPC: sources, the public address of the first one, and the last source of the body.
const PUBLICS: [(u32, Option<u32>, u32); 4] = [
    (0, None, 9),
    (10, Some(500), 10),
    (11, None, 19),
    (21, None, 99),
];

fn asks_public_addresses(rt: &impl Abort, maps: &EdgeMaps) {
    for (first, public, end) in PUBLICS {
        assert!(rt; first <= 99);
        let got = maps.out_addr_on(VpcNo(1), &between((first, 99), (0, 9)));
        assert!(rt; (got.told, got.body.src) == (public, (first, end)));
        assert!(rt; got.body.dst == (0, 9));
    }
    let other = maps.out_addr_on(VpcNo(0), &between((0, 99), (0, 9)));
    assert!(rt; (other.told, other.body.src) == (None, (0, 99)));
    let gap = maps.in_addr_on(&between((0, 9), (501, 999)));
    assert!(rt; (gap.told.is_some(), gap.body.dst) == (false, (501, 699)));
    let one = maps.in_addr_on(&between((0, 9), (700, 999)));
    assert!(rt; (one.told.is_some(), one.body.dst) == (true, (700, 700)));
}

// The sender, what becomes of the first header, and the last source and destination of the body.
const CARRIED: [(VpcNo, Sides, Carry, (u32, u32)); 5] = [
    (VpcNo(0), ((15, 99), (35, 99)), Carry::Yes, (19, 39)),
    (
        VpcNo(0),
        ((15, 99), (20, 99)),
        Carry::BadDestination,
        (19, 29),
    ),
    (VpcNo(0), ((0, 99), (35, 99)), Carry::BadSource, (9, 99)),
    (VpcNo(1), ((35, 99), (15, 99)), Carry::Yes, (39, 19)),
    (VpcNo(1), ((15, 99), (15, 99)), Carry::BadSource, (29, 99)),
];

fn asks_peerings(rt: &impl Abort, maps: &EdgeMaps) {
    for (sender, (src, dst), told, last) in CARRIED {
        assert!(rt; src.0 <= src.1);
        assert!(rt; dst.0 <= dst.1);
        let i = between(src, dst);
        if maps.is_carrier(PeerNo(0), sender) {
            let got = maps.carries_on(PeerNo(0), sender, &i);
            assert!(rt; got.told == told);
            assert!(rt; (got.body.src.1, got.body.dst.1) == last);
        } else {
            assert!(rt; false);
        }
    }
}

#[test]
fn asks_edges(rt: HostRuntime) -> Result<(), Fail> {
    let network = network_of(rt.alloc(), BUNDLE)?;
    let maps = EdgeMaps::of(rt.alloc(), &network)?;
    asks_public_addresses(&rt, &maps);
    asks_peerings(&rt, &maps);
    Ok(())
}
