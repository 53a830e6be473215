// Which descriptions make a network.
ghost use Rattle.vpc_examples.specs.Refused.{AcceptsTargetsOfEitherSide, LongFarsAreNamed, LongListsAreNamed, LongRowsAreNamed, NetworksAreAccepted, TellsDuplicates, TellsSharedBlocks, TellsMissingRows, TellsMissingTargets, TellsForeignTargets, TellsMissingAtFirewalls, TellsMissingAtGateways, TellsTablesAndAcls, TellsFirstCause};

/// The networks of the other examples are accepted.
pub fn accepts_networks()
    ensures { NetworksAreAccepted }
{}

/// Ids and addresses that stand twice.
pub fn tells_duplicates()
    ensures { TellsDuplicates }
{}

/// Blocks that are delegated to several interfaces, or hold addresses of others.
pub fn tells_shared_blocks()
    ensures { TellsSharedBlocks }
{}

/// References to rows that are not there.
pub fn tells_missing_rows()
    ensures { TellsMissingRows }
{}

/// Targets of routes that are not there.
pub fn tells_missing_targets()
    ensures { TellsMissingTargets }
{}

/// Targets of routes in another VPC.
pub fn tells_foreign_targets()
    ensures { TellsForeignTargets }
{}

/// Peerings from either side, and NAT gateways that aren't followed.
pub fn accepts_targets_of_either_side()
    ensures { AcceptsTargetsOfEitherSide }
{}

/// What gateways name.
pub fn tells_missing_at_gateways()
    ensures { TellsMissingAtGateways }
{}

/// What firewall endpoints name.
pub fn tells_missing_at_firewalls()
    ensures { TellsMissingAtFirewalls }
{}

/// Subnets and VPCs with no table, no ACL, or two.
pub fn tells_tables_and_acls()
    ensures { TellsTablesAndAcls }
{}

/// Of several causes the first in the order is told.
pub fn tells_the_first_cause()
    ensures { TellsFirstCause }
{}

/// Lists that are too long, each by its own name.
pub fn names_long_lists()
    ensures { LongListsAreNamed }
{}

/// Lists within a row that are too long, each by the name of the list that the row is in.
pub fn names_long_rows()
    ensures { LongRowsAreNamed }
{}

/// Too many networks that aren't described, by the list of the first one that is too many.
pub fn names_long_networks()
    ensures { LongFarsAreNamed }
{}
