// Which of several is told, or gets the packet.
ghost use Rattle.vpc_examples.specs.Firsts.{ExitIsToldFirst, FirstGatewayIsReached, FirstGroupIsTold};

/// Of several groups that allow a packet the first in the interface's list is told.
pub fn tells_the_first_group()
    ensures { FirstGroupIsTold }
{}

/// Where the ACLs of both subnets refuse a packet, that of the subnet which it leaves is told.
pub fn tells_the_exit_first()
    ensures { ExitIsToldFirst }
{}

/// What comes to an interface that two NAT gateways share is the first one's.
pub fn reaches_the_first_gateway()
    ensures { FirstGatewayIsReached }
{}
