//! What doesn't pass an internet gateway where each subnet of its VPC has a mode of Block Public Access, as functions
//! without a body.
#![tactic(auto)]

ghost use Rattle.access_laws.specs.Shut.{NatGatewaysGetOpens, NothingEnters, NothingLeaves};

/// Where packets pass in neither direction, none leaves by the gateway.
pub fn nothing_leaves()
    ensures { NothingLeaves }
{}

/// Where packets pass in neither direction, none that the internet sends to the gateway comes in.
pub fn nothing_enters()
    ensures { NothingEnters }
{}

/// Where packets pass outward alone, opens that the internet sends come to NAT gateways, which stop them, or
/// to middleboxes, where the internet gateway has a table that sends them there.
pub fn nat_gateways_get_opens()
    ensures { NatGatewaysGetOpens }
{}
