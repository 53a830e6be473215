// Peerings that carry, UDP and ICMP through a NAT gateway, and a walk of 64 places.
ghost use Rattle.vpc_examples.specs.Crossings.{PeeringForwards, PeerHasNoSuchHost, NatTranslatesUdpAndIcmp, NatBringsBackUdpAndIcmp, LoopIsSeenLast};

/// A packet crosses a peering from either side, to each block of the peer.
pub fn peering_forwards()
    ensures { PeeringForwards }
{}

/// A VPC that is entered may have no such host.
pub fn peer_has_no_such_host()
    ensures { PeerHasNoSuchHost }
{}

/// UDP and ICMP leave by a NAT gateway, messages without a reply too.
pub fn translates_udp_and_icmp()
    ensures { NatTranslatesUdpAndIcmp }
{}

/// Their replies return.
pub fn brings_back_udp_and_icmp()
    ensures { NatBringsBackUdpAndIcmp }
{}

/// A walk of 64 places whose next place was visited is a loop.
pub fn sees_the_last_loop()
    ensures { LoopIsSeenLast }
{}
