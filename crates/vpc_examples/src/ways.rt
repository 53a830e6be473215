// Which places lie in subnets, and at which ACLs are asked.
ghost use Rattle.vpc_examples.specs.Ways.{HostsAndNatGatewaysLieInSubnets, RoutersAndEntrancesAskAcls};

/// Packets come to interfaces, NAT gateways and firewall endpoints in subnets, and to no other place.
pub fn reaches_hosts_in_subnets()
    ensures { HostsAndNatGatewaysLieInSubnets }
{}

/// ACLs are asked of what goes on from a router, or from where a VPC is entered.
pub fn asks_acls_at_routers()
    ensures { RoutersAndEntrancesAskAcls }
{}
