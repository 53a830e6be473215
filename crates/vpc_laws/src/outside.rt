// Laws of networks that aren't described, firewall endpoints and the tables of gateways.
ghost use Rattle.vpc_laws.specs.Outside.{EnteredOpensStayInside, NetworksEnterByDoors, NetworksStandAtEnds, NoStepComesIn, NoStepGoesBeyond, NoStepGoesThere, NoWalkGoesThere, NothingBeyondChangesNothing, StepsFollow};

/// Each place leads to some kinds of places alone.
pub fn leads_from_place_to_place()
    ensures { StepsFollow }
{}

/// No packet comes in from a network but at its start.
pub fn comes_in_at_the_start()
    ensures { NoStepComesIn }
{}

/// A packet that goes out to a network arrives there or is stopped.
pub fn arrives_where_it_goes_out()
    ensures { NoStepGoesBeyond }
{}

/// A walk comes in from a network at its first place alone, and goes out to one at its last alone.
pub fn passes_no_network()
    ensures { NetworksStandAtEnds }
{}

/// From a network packets come into VPCs by their doors, or by a transit gateway.
pub fn enters_by_doors()
    ensures { NetworksEnterByDoors }
{}

/// An open that has entered a VPC goes on from there by appliances and firewall endpoints alone: so none that
/// came in by a virtual private gateway passes on to an internet gateway.
pub fn stays_inside()
    ensures { EnteredOpensStayInside }
{}

/// Where no row tells of networks, firewall endpoints or tables of gateways, none is followed.
pub fn changes_nothing_without_rows()
    ensures { NothingBeyondChangesNothing }
{}

/// No step comes there.
pub fn steps_nowhere_without_rows()
    ensures { NoStepGoesThere }
{}

/// Nor does a walk.
pub fn walks_nowhere_without_rows()
    ensures { NoWalkGoesThere }
{}
