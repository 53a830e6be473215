// Rules of groups, asked about boxes.
ghost use Rattle.std.specs.Prelude.{◌≤◌};

use crate::networks::network_of;
use crate::requests::opens;
use header_boxes::Box5;
use security_groups::GroupIndex;
use std::alloc::Global;
use std::process::Abort;
use std::test::Fail;
use vpc_base::Dir;
use vpc_model::EniNo;

// Interfaces with the first group, with two groups and with none, two more, which are members, and one with the last
// group. Rules of the first group: two that overlap, each from other addresses, one from anywhere, and one that names
// a list and a group. The second group's is for addresses below those of the requests, and the last one's for all
// protocols.
const BUNDLE: &str = r#"{
"Vpcs":[{"VpcId":"vpc-0","CidrBlock":"0.0.0.0/16"}],
"Subnets":[{"SubnetId":"subnet-0","VpcId":"vpc-0","AvailabilityZone":"zone-0"}],
"NetworkInterfaces":[
{"NetworkInterfaceId":"eni-0","SubnetId":"subnet-0","Groups":[{"GroupId":"sg-0"}]},
{"NetworkInterfaceId":"eni-1","SubnetId":"subnet-0","Groups":[{"GroupId":"sg-1"},{"GroupId":"sg-0"}]},
{"NetworkInterfaceId":"eni-2","SubnetId":"subnet-0"},
{"NetworkInterfaceId":"eni-3","SubnetId":"subnet-0","PrivateIpAddress":"0.0.0.140","Groups":[{"GroupId":"sg-2"}]},
{"NetworkInterfaceId":"eni-4","SubnetId":"subnet-0","PrivateIpAddress":"0.0.0.135","Groups":[{"GroupId":"sg-1"}]},
{"NetworkInterfaceId":"eni-5","SubnetId":"subnet-0","Groups":[{"GroupId":"sg-3"}]}],
"RouteTables":[{"RouteTableId":"rtb-0","VpcId":"vpc-0","Associations":[{"Main":true}]}],
"PrefixLists":[{"PrefixListId":"pl-0","Cidrs":["0.0.0.120/29","0.0.0.128/31"]}],
"NetworkAcls":[{"NetworkAclId":"acl-0","Associations":[{"SubnetId":"subnet-0"}]}],
"SecurityGroups":[
{"GroupId":"sg-0","VpcId":"vpc-0","IpPermissions":[
{"IpProtocol":"tcp","FromPort":200,"ToPort":210,"IpRanges":[{"CidrIp":"0.0.0.0/0"}]},
{"IpProtocol":"tcp","FromPort":80,"ToPort":80,"IpRanges":[
{"CidrIp":"0.0.0.100/30"},{"CidrIp":"0.0.0.104/29"},{"CidrIp":"0.0.0.112/28"},{"CidrIp":"0.0.0.128/26"},
{"CidrIp":"0.0.0.192/29"}]},
{"IpProtocol":"tcp","FromPort":80,"ToPort":90,"IpRanges":[
{"CidrIp":"0.0.0.150/31"},{"CidrIp":"0.0.0.152/29"},{"CidrIp":"0.0.0.160/27"},{"CidrIp":"0.0.0.192/26"},
{"CidrIp":"0.0.1.0/25"},{"CidrIp":"0.0.1.128/28"},{"CidrIp":"0.0.1.144/32"}]},
{"IpProtocol":"tcp","FromPort":300,"ToPort":310,
"PrefixListIds":[{"PrefixListId":"pl-0"}],"UserIdGroupPairs":[{"GroupId":"sg-2"}]}]},
{"GroupId":"sg-1","VpcId":"vpc-0","IpPermissions":[
{"IpProtocol":"tcp","FromPort":85,"ToPort":85,"IpRanges":[
{"CidrIp":"0.0.0.0/26"},{"CidrIp":"0.0.0.64/27"},{"CidrIp":"0.0.0.96/30"}]}]},
{"GroupId":"sg-2","VpcId":"vpc-0"},
{"GroupId":"sg-3","VpcId":"vpc-0","IpPermissions":[
{"IpProtocol":"-1","PrefixListIds":[{"PrefixListId":"pl-0"}],"UserIdGroupPairs":[{"GroupId":"sg-2"}]}]}]}"#;

/// The last address and port of the body on which it is told whether an interface's groups allow them inward.
type Told = (bool, u32, u16);

/// An interface, and where requests by TCP begin: at an address, up to 299, and a port, up to all later ones.
type Asked = (u32, (u32, u16));

fn asked(index: &GroupIndex, eni: u32, from: (u32, u16)) -> Told
    requires { from.0 ≤ 299 }
{
    let i = opens(&Box5 {
        proto: (6, 6),
        src: (from.0, 299),
        dst: (7, 7),
        p: (40000, 41000),
        q: (from.1, 65535),
    });
    let allowed = index.allows_on(EniNo(eni), Dir::Inward, &i);
    let body = allowed.body;
    (allowed.told, body.src.1, body.q.1)
}

const RULES: [(Asked, Told); 23] = [
    // up to the first rule's port
    ((0, (100, 0)), (false, 299, 79)),
    // by the first rule, on its port and addresses
    ((0, (100, 80)), (true, 199, 80)),
    // by the second of two rules with this port, on all of its ports
    ((0, (200, 80)), (true, 299, 90)),
    // a rule has the port, and not the address: not up to the next rule's port
    ((0, (100, 81)), (false, 149, 199)),
    ((0, (150, 81)), (true, 299, 90)),
    // between rules, and past them all
    ((0, (100, 91)), (false, 299, 199)),
    ((0, (100, 205)), (true, 299, 210)),
    ((0, (100, 311)), (false, 299, 65535)),
    // what the list and the group have that a rule names
    ((0, (100, 300)), (false, 119, 65535)),
    ((0, (121, 300)), (true, 129, 310)),
    ((0, (130, 300)), (false, 139, 65535)),
    ((0, (140, 300)), (true, 140, 310)),
    // by the second group, on all that its rule has
    ((1, (200, 81)), (true, 299, 90)),
    // not up to the first group's port, nor at addresses that the second one's rules lack
    ((1, (90, 81)), (false, 149, 84)),
    // the first group's rule names none of these addresses
    ((1, (100, 81)), (false, 149, 199)),
    ((1, (100, 86)), (false, 149, 199)),
    // no groups, and an interface that isn't described
    ((2, (100, 80)), (false, 299, 65535)),
    ((6, (100, 80)), (false, 299, 65535)),
    // a rule for all protocols, by its list and its group
    ((5, (100, 300)), (false, 119, 65535)),
    ((5, (121, 300)), (true, 129, 65535)),
    ((5, (130, 300)), (false, 139, 65535)),
    ((5, (140, 300)), (true, 140, 65535)),
    ((5, (141, 300)), (false, 299, 65535)),
];

// 130 rules, one for the first five of each ten ports.
const RUNS: [(Asked, Told); 7] = [
    ((0, (100, 0)), (true, 299, 4)),
    ((0, (100, 5)), (false, 299, 9)),
    ((0, (100, 635)), (false, 299, 639)),
    ((0, (100, 642)), (true, 299, 644)),
    ((0, (100, 1280)), (true, 299, 1284)),
    ((0, (100, 1290)), (true, 299, 1294)),
    ((0, (100, 1295)), (false, 299, 65535)),
];

// A group of the third VPC belongs to the first one as well, and its rule names a group of the first. A rule of a group of the first
// VPC names one of the second, to which a transit gateway joins it.
const SCOPE: &str = r#"{
"Vpcs":[{"VpcId":"vpc-0","CidrBlock":"0.0.0.0/16"},{"VpcId":"vpc-1","CidrBlock":"0.0.0.0/16"},{"VpcId":"vpc-2","CidrBlock":"0.0.0.0/16"}],
"Subnets":[
{"SubnetId":"subnet-0","VpcId":"vpc-0","AvailabilityZone":"zone-0"},
{"SubnetId":"subnet-1","VpcId":"vpc-1","AvailabilityZone":"zone-0"},
{"SubnetId":"subnet-2","VpcId":"vpc-2","AvailabilityZone":"zone-0"}],
"NetworkInterfaces":[
{"NetworkInterfaceId":"eni-0","SubnetId":"subnet-0","Groups":[{"GroupId":"sg-0"}]},
{"NetworkInterfaceId":"eni-1","SubnetId":"subnet-0","Groups":[{"GroupId":"sg-1"}]},
{"NetworkInterfaceId":"eni-2","SubnetId":"subnet-2","Groups":[{"GroupId":"sg-0"}]},
{"NetworkInterfaceId":"eni-3","SubnetId":"subnet-0","PrivateIpAddress":"0.0.0.140","Groups":[{"GroupId":"sg-2"}]},
{"NetworkInterfaceId":"eni-4","SubnetId":"subnet-1","PrivateIpAddress":"0.0.0.135","Groups":[{"GroupId":"sg-3"}]}],
"RouteTables":[
{"RouteTableId":"rtb-0","VpcId":"vpc-0","Associations":[{"Main":true}]},
{"RouteTableId":"rtb-1","VpcId":"vpc-1","Associations":[{"Main":true}]},
{"RouteTableId":"rtb-2","VpcId":"vpc-2","Associations":[{"Main":true}]}],
"NetworkAcls":[{"NetworkAclId":"acl-0","Associations":[{"SubnetId":"subnet-0"},{"SubnetId":"subnet-1"},{"SubnetId":"subnet-2"}]}],
"TransitGateways":[{"TransitGatewayId":"tgw-0","Options":{"SecurityGroupReferencingSupport":"enable"}}],
"TransitGatewayVpcAttachments":[
{"TransitGatewayAttachmentId":"tgw-attach-0","TransitGatewayId":"tgw-0","VpcId":"vpc-0","State":"available",
"SubnetIds":["subnet-0"],"Options":{"SecurityGroupReferencingSupport":"enable"}},
{"TransitGatewayAttachmentId":"tgw-attach-1","TransitGatewayId":"tgw-0","VpcId":"vpc-1","State":"available",
"SubnetIds":["subnet-1"],"Options":{"SecurityGroupReferencingSupport":"enable"}}],
"SecurityGroupVpcAssociations":[{"GroupId":"sg-0","VpcId":"vpc-0","State":"associated"}],
"SecurityGroups":[
{"GroupId":"sg-0","VpcId":"vpc-2","IpPermissions":[{"IpProtocol":"-1","UserIdGroupPairs":[{"GroupId":"sg-2"}]}]},
{"GroupId":"sg-1","VpcId":"vpc-0","IpPermissions":[{"IpProtocol":"-1","UserIdGroupPairs":[{"GroupId":"sg-3"}]}]},
{"GroupId":"sg-2","VpcId":"vpc-0"},
{"GroupId":"sg-3","VpcId":"vpc-1"}]}"#;

const SCOPED: [(Asked, Told); 5] = [
    // an associated group's rule counts in the interface's VPC
    ((0, (100, 300)), (false, 139, 65535)),
    ((0, (140, 300)), (true, 140, 65535)),
    // and in the group's own VPC for an interface there
    ((2, (140, 300)), (false, 299, 65535)),
    // a group of a VPC that a transit gateway joins
    ((1, (100, 300)), (false, 134, 65535)),
    ((1, (135, 300)), (true, 135, 65535)),
];

const FIRST_RULE: &str =
    r#"{"IpProtocol":"tcp","FromPort":200,"ToPort":210,"IpRanges":[{"CidrIp":"0.0.0.0/0"}]}"#;

// The network with so many rules in place of the first one, and no others in its group.
fn with_many_rules(alloc: Global) -> Result<String, Fail> {
    let mut rules = String::new(alloc);
    for k in 0..130u64 {
        let first = 10 * k;
        let last = first + 4;
        let comma = if k == 0 { "" } else { "," };
        write!(
            rules,
            "{comma}{{\"IpProtocol\":\"tcp\",\"FromPort\":{first},\"ToPort\":{last},\"IpRanges\":[{{\"CidrIp\":\"0.0.0.0/0\"}}]}}"
        )?;
    }
    rules.push_str("]},{\"GroupId\":\"sg-9\",\"VpcId\":\"vpc-0\",\"IpPermissions\":[")?;
    rules.push_str(FIRST_RULE)?;
    Ok(BUNDLE.replacen(alloc, FIRST_RULE, rules.as_str(), 1)?)
}

fn asks(rt: &impl Abort, alloc: Global, bundle: &str, cases: &[(Asked, Told)]) -> Result<(), Fail> {
    let network = network_of(alloc, bundle)?;
    let index = GroupIndex::of(alloc, &network)?;
    for ((eni, from), want) in cases {
        assert!(rt; from.0 <= 299);
        assert!(rt; asked(&index, *eni, *from) == *want, "{from:?}");
    }
    Ok(())
}

#[test]
fn asks_rules(rt: HostRuntime) -> Result<(), Fail> {
    asks(&rt, rt.alloc(), BUNDLE, &RULES)?;
    asks(&rt, rt.alloc(), SCOPE, &SCOPED)?;
    let many = with_many_rules(rt.alloc())?;
    asks(&rt, rt.alloc(), many.as_str(), &RUNS)
}
