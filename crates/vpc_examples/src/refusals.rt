// Where packets are stopped in small networks.
ghost use Rattle.vpc_examples.specs.Stops.{ChecksInterfaces, GatewaysHostNothing, OwnsAllAddresses, OwnsDelegatedBlocks, JudgesExit, JudgesEveryEntry, PublicAddressesAreOfOneVpc, UnroutableBlocksEnd, EntersNamedGateway, ChecksRoutes, JudgesEntry, FindsFirstRule, CountsReferences, CountsReferencesOverTransit, RulesAreInTheVpcOfTheInterface, OtherPeeringsDontCount, NeedsNoGroups, ChecksInternetGateways, ChecksNatGateways, ChecksPeerings, ChecksTransitEntry, ChecksTransitExit, LeavesByZone, StaticRouteIsChosen, ChecksReturns, ChecksReturnedHeader, RepliesReturnToTheStart, RequestsReachTheirTarget, LongWalksEnd};

/// Idle interfaces, and the source/destination check.
pub fn checks_interfaces()
    ensures { ChecksInterfaces }
{}

/// Interfaces of gateways host nothing.
pub fn gateways_host_nothing()
    ensures { GatewaysHostNothing }
{}

/// Routers without a usable route.
pub fn checks_routes()
    ensures { ChecksRoutes }
{}

/// Network ACLs judge what enters a subnet.
pub fn judges_entry()
    ensures { JudgesEntry }
{}

/// The first rule of an interface's groups that allows a packet.
pub fn finds_the_first_rule()
    ensures { FindsFirstRule }
{}

/// Which groups a rule may name.
pub fn counts_references()
    ensures { CountsReferences }
{}

/// Peerings of other VPCs than the two.
pub fn counts_no_other_peerings()
    ensures { OtherPeeringsDontCount }
{}

/// Which groups a rule may name over transit gateways.
pub fn counts_references_over_transit_gateways()
    ensures { CountsReferencesOverTransit }
{}

/// Rules of groups that belong to several VPCs.
pub fn counts_rules_in_the_vpc_of_the_interface()
    ensures { RulesAreInTheVpcOfTheInterface }
{}

/// Interfaces without groups.
pub fn needs_no_groups()
    ensures { NeedsNoGroups }
{}

/// Internet gateways and public addresses.
pub fn checks_internet_gateways()
    ensures { ChecksInternetGateways }
{}

/// NAT gateways.
pub fn checks_nat_gateways()
    ensures { ChecksNatGateways }
{}

/// Peerings.
pub fn checks_peerings()
    ensures { ChecksPeerings }
{}

/// The way into a transit gateway.
pub fn checks_transit_entry()
    ensures { ChecksTransitEntry }
{}

/// The way out of a transit gateway.
pub fn checks_transit_exit()
    ensures { ChecksTransitExit }
{}

/// By which subnet a packet leaves a transit gateway.
pub fn leaves_by_zone()
    ensures { LeavesByZone }
{}

/// Static and propagated routes of a transit table.
pub fn chooses_the_static_route()
    ensures { StaticRouteIsChosen }
{}

/// Requests and replies that arrive elsewhere, and requests without a reply.
pub fn checks_returns()
    ensures { ChecksReturns }
{}

/// A walk that would never end is stopped before its 65th place.
pub fn ends_long_walks()
    ensures { LongWalksEnd }
{}

/// An interface owns all its private addresses.
pub fn owns_all_addresses()
    ensures { OwnsAllAddresses }
{}

/// An interface owns the blocks that are delegated to it.
pub fn owns_delegated_blocks()
    ensures { OwnsDelegatedBlocks }
{}

/// Network ACLs judge what leaves a subnet, whatever the target.
pub fn judges_exits()
    ensures { JudgesExit }
{}

/// Network ACLs judge what enters a subnet, wherever it comes from.
pub fn judges_entries()
    ensures { JudgesEveryEntry }
{}

/// Public addresses are those of one VPC.
pub fn keeps_public_addresses_apart()
    ensures { PublicAddressesAreOfOneVpc }
{}

/// The ends of the non-routable blocks.
pub fn ends_unroutable_blocks()
    ensures { UnroutableBlocksEnd }
{}

/// The transit gateway that a route names is entered.
pub fn enters_the_named_gateway()
    ensures { EntersNamedGateway }
{}

/// A reply that comes back changed.
pub fn checks_the_returned_header()
    ensures { ChecksReturnedHeader }
{}

/// A reply that arrives at another end than the start isn't returned.
pub fn returns_to_the_start()
    ensures { RepliesReturnToTheStart }
{}

/// A request that arrives at another end than the target doesn't get through.
pub fn reaches_the_target()
    ensures { RequestsReachTheirTarget }
{}
