// What packets do at NAT gateways, peerings and transit gateways.
ghost use Rattle.vpc_examples.specs.Examples.{ReturnsThroughNat, LeavesThroughNat, ComesBackThroughNat, PortsDiffer, PortsAreGivenInOrder, PortsAreOfOneServer, PortsAreSharedByFlow, AnswersMeetTheAcl, AnswersFindTheirHosts, PeeringIsNotTransitive, TransitForwards, TransitDrops, TransitLoops, LoopsByPlace, AttachmentIsJudged};

/// A request to the internet gets through a NAT gateway, and its reply returns.
pub fn returns_through_nat()
    ensures { ReturnsThroughNat }
{}

/// On its way out it gets the gateway's address and a port of at least 1,024.
pub fn leaves_through_nat()
    ensures { LeavesThroughNat }
{}

/// On its way back the answer gets the host's address and port.
pub fn comes_back_through_nat()
    ensures { ComesBackThroughNat }
{}

/// Two hosts that send from one port to one server leave from two ports.
pub fn tells_two_hosts_apart()
    ensures { PortsDiffer }
{}

/// Each answer reaches its own host, and one to a port that was not given is stopped.
pub fn answers_find_their_hosts()
    ensures { AnswersFindTheirHosts }
{}

/// A peering carries nothing for a third VPC.
pub fn peering_is_not_transitive()
    ensures { PeeringIsNotTransitive }
{}

/// A transit gateway forwards between the VPCs that are attached to it.
pub fn transit_forwards()
    ensures { TransitForwards }
{}

/// The longest route of a transit table is chosen, also where it drops the packet.
pub fn transit_drops()
    ensures { TransitDrops }
{}

/// Two transit tables that send a packet to each other are seen as a loop.
pub fn transit_loops()
    ensures { TransitLoops }
{}

/// A place is met again only where the packet also came to it in the same way.
pub fn loops_by_place()
    ensures { LoopsByPlace }
{}

/// The network ACL of a transit gateway's subnet judges packets also inside that subnet.
pub fn judges_at_the_attachment()
    ensures { AttachmentIsJudged }
{}

/// Which port a NAT gateway gives.
pub fn gives_ports_in_order()
    ensures { PortsAreGivenInOrder }
{}

/// Whose ports a NAT gateway keeps apart.
pub fn shares_ports_by_flow()
    ensures { PortsAreSharedByFlow }
{}

/// Two hosts that send from one port to two servers, or by two protocols, both keep it.
pub fn keeps_ports_of_other_servers()
    ensures { PortsAreOfOneServer }
{}

/// The ACL of a NAT gateway's subnet judges answers by their translated port.
pub fn judges_answers_before_translation()
    ensures { AnswersMeetTheAcl }
{}
