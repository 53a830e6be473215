// Networks that the tests ask about.

/// Two hosts in one subnet.
pub const ONE_SUBNET: &str = "{\"Vpcs\":[{\"VpcId\":\"vpc-1\",\"CidrBlock\":\"10.0.0.0/16\"}],\
\"Subnets\":[{\"SubnetId\":\"subnet-a\",\"VpcId\":\"vpc-1\",\"AvailabilityZone\":\"us-east-1a\"}],\
\"NetworkInterfaces\":[\
{\"NetworkInterfaceId\":\"eni-a\",\"SubnetId\":\"subnet-a\",\"PrivateIpAddress\":\"10.0.1.10\",\"Groups\":[{\"GroupId\":\"sg-a\"}]},\
{\"NetworkInterfaceId\":\"eni-b\",\"SubnetId\":\"subnet-a\",\"PrivateIpAddress\":\"10.0.1.20\",\"Groups\":[{\"GroupId\":\"sg-b\"}]}],\
\"RouteTables\":[{\"RouteTableId\":\"rtb-1\",\"VpcId\":\"vpc-1\",\"Associations\":[{\"Main\":true}],\
\"Routes\":[{\"DestinationCidrBlock\":\"10.0.0.0/16\",\"GatewayId\":\"local\",\"State\":\"active\"}]}],\
\"NetworkAcls\":[{\"NetworkAclId\":\"acl-1\",\"Associations\":[{\"SubnetId\":\"subnet-a\"}],\"Entries\":[]}],\
\"SecurityGroups\":[\
{\"GroupId\":\"sg-a\",\"VpcId\":\"vpc-1\",\"IpPermissions\":[],\
\"IpPermissionsEgress\":[{\"IpProtocol\":\"-1\",\"IpRanges\":[{\"CidrIp\":\"0.0.0.0/0\"}]}]},\
{\"GroupId\":\"sg-b\",\"VpcId\":\"vpc-1\",\"IpPermissions\":[{\"IpProtocol\":\"tcp\",\"FromPort\":443,\"ToPort\":443,\
\"IpRanges\":[{\"CidrIp\":\"10.0.1.0/24\"}]}],\"IpPermissionsEgress\":[]}]}";

/// Two hosts, each in a subnet of its own; the ACL of the second subnet lets answers out to high ports alone.
pub const OWN_ACL: &str = r#"{"Vpcs":[{"VpcId":"vpc-1","CidrBlock":"10.0.0.0/16"}],
"Subnets":[
 {"SubnetId":"subnet-a","VpcId":"vpc-1","AvailabilityZone":"us-east-1a"},
 {"SubnetId":"subnet-b","VpcId":"vpc-1","AvailabilityZone":"us-east-1a"}],
"NetworkInterfaces":[
 {"NetworkInterfaceId":"eni-a","SubnetId":"subnet-a","PrivateIpAddress":"10.0.1.10","Groups":[{"GroupId":"sg-a"}]},
 {"NetworkInterfaceId":"eni-b","SubnetId":"subnet-b","PrivateIpAddress":"10.0.2.20","Groups":[{"GroupId":"sg-b"}]}],
"RouteTables":[
 {"RouteTableId":"rtb-1","VpcId":"vpc-1","Associations":[{"Main":true}],"Routes":[{"DestinationCidrBlock":"10.0.0.0/16","GatewayId":"local","State":"active"}]}],
"NetworkAcls":[
 {"NetworkAclId":"acl-b","Associations":[{"SubnetId":"subnet-b"}],"Entries":[{"RuleNumber":100,"Egress":false,"Protocol":"-1","RuleAction":"allow","CidrBlock":"0.0.0.0/0"},{"RuleNumber":100,"Egress":true,"Protocol":"6","PortRange":{"From":32768,"To":65535},"RuleAction":"allow","CidrBlock":"0.0.0.0/0"}]},
 {"NetworkAclId":"acl-1","Associations":[{"SubnetId":"subnet-a"}],"Entries":[{"RuleNumber":100,"Egress":false,"Protocol":"-1","RuleAction":"allow","CidrBlock":"0.0.0.0/0"},{"RuleNumber":100,"Egress":true,"Protocol":"-1","RuleAction":"allow","CidrBlock":"0.0.0.0/0"}]}],
"SecurityGroups":[
 {"GroupId":"sg-a","VpcId":"vpc-1","IpPermissions":[],"IpPermissionsEgress":[{"IpProtocol":"-1","IpRanges":[{"CidrIp":"0.0.0.0/0"}]}]},
 {"GroupId":"sg-b","VpcId":"vpc-1","IpPermissions":[{"IpProtocol":"tcp","FromPort":443,"ToPort":443,"UserIdGroupPairs":[{"GroupId":"sg-a"}]}],"IpPermissionsEgress":[]}]}"#;

/// Two hosts that reach the internet by one NAT gateway.
pub const BEHIND_NAT: &str = r#"{"Vpcs":[{"VpcId":"vpc-1","CidrBlock":"10.0.0.0/16"}],
"Subnets":[
 {"SubnetId":"subnet-a","VpcId":"vpc-1","AvailabilityZone":"us-east-1a"},
 {"SubnetId":"subnet-b","VpcId":"vpc-1","AvailabilityZone":"us-east-1a"},
 {"SubnetId":"subnet-n","VpcId":"vpc-1","AvailabilityZone":"us-east-1a"}],
"NetworkInterfaces":[
 {"NetworkInterfaceId":"eni-a","SubnetId":"subnet-a","PrivateIpAddress":"10.0.1.10","Groups":[{"GroupId":"sg-a"}]},
 {"NetworkInterfaceId":"eni-b","SubnetId":"subnet-b","PrivateIpAddress":"10.0.2.20","Groups":[{"GroupId":"sg-b"}]},
 {"NetworkInterfaceId":"eni-n","SubnetId":"subnet-n","InterfaceType":"nat_gateway","Groups":[],"SourceDestCheck":false,"PrivateIpAddress":"10.0.3.5","PrivateIpAddresses":[{"PrivateIpAddress":"10.0.3.5","Association":{"PublicIp":"203.0.113.5"}}]}],
"RouteTables":[
 {"RouteTableId":"rtb-1","VpcId":"vpc-1","Associations":[{"Main":true}],"Routes":[{"DestinationCidrBlock":"10.0.0.0/16","GatewayId":"local","State":"active"},{"DestinationCidrBlock":"0.0.0.0/0","NatGatewayId":"nat-1","State":"active"}]},
 {"RouteTableId":"rtb-n","VpcId":"vpc-1","Associations":[{"Main":false,"SubnetId":"subnet-n"}],"Routes":[{"DestinationCidrBlock":"10.0.0.0/16","GatewayId":"local","State":"active"},{"DestinationCidrBlock":"0.0.0.0/0","GatewayId":"igw-1","State":"active"}]}],
"NetworkAcls":[
 {"NetworkAclId":"acl-1","Associations":[{"SubnetId":"subnet-a"},{"SubnetId":"subnet-b"}],"Entries":[{"RuleNumber":100,"Egress":false,"Protocol":"-1","RuleAction":"allow","CidrBlock":"0.0.0.0/0"},{"RuleNumber":100,"Egress":true,"Protocol":"-1","RuleAction":"allow","CidrBlock":"0.0.0.0/0"}]},
 {"NetworkAclId":"acl-n","Associations":[{"SubnetId":"subnet-n"}],"Entries":[{"RuleNumber":100,"Egress":false,"Protocol":"-1","RuleAction":"allow","CidrBlock":"0.0.0.0/0"},{"RuleNumber":100,"Egress":true,"Protocol":"-1","RuleAction":"allow","CidrBlock":"0.0.0.0/0"}]}],
"SecurityGroups":[
 {"GroupId":"sg-a","VpcId":"vpc-1","IpPermissions":[],"IpPermissionsEgress":[{"IpProtocol":"-1","IpRanges":[{"CidrIp":"0.0.0.0/0"}]}]},
 {"GroupId":"sg-b","VpcId":"vpc-1","IpPermissions":[{"IpProtocol":"tcp","FromPort":443,"ToPort":443,"UserIdGroupPairs":[{"GroupId":"sg-a"}]}],"IpPermissionsEgress":[{"IpProtocol":"-1","IpRanges":[{"CidrIp":"0.0.0.0/0"}]}]}],
"InternetGateways":[{"InternetGatewayId":"igw-1","Attachments":[{"State":"available","VpcId":"vpc-1"}]}],
"NatGateways":[
 {"NatGatewayId":"nat-1","State":"available","SubnetId":"subnet-n","VpcId":"vpc-1","NatGatewayAddresses":[{"NetworkInterfaceId":"eni-n","PrivateIp":"10.0.3.5","PublicIp":"203.0.113.5"}]}]}"#;
