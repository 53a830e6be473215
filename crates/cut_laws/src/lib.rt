//! Which cuts of a description divide enough for which of its rows, as functions without a body.
#![tactic(auto)]

ghost use Rattle.cut_laws.specs.Laws.{AclsAreStanding, AddressesAreStanding, AppliancesAreStanding, FarsAreStanding, FixedAreStanding, InterfacesAreStanding, NearCutsAreAmongAll, PlacesCutTheDescription, PlacesHaveTheirCuts, VpcsAreStanding};

/// What is cut in every network is among the standing cuts of each description.
pub fn fixed_are_standing()
    ensures { FixedAreStanding }
{}

/// Where the blocks of a VPC begin and have ended is among the standing cuts.
pub fn vpcs_are_standing()
    ensures { VpcsAreStanding }
{}

/// The private and the public addresses of an interface are among the standing cuts.
pub fn interfaces_are_standing()
    ensures { InterfacesAreStanding }
{}

/// All these addresses together, with what is cut in every network, are among the standing cuts.
pub fn addresses_are_standing()
    ensures { AddressesAreStanding }
{}

/// The edges of an ACL's rows are among the standing cuts.
pub fn acls_are_standing()
    ensures { AclsAreStanding }
{}

/// The sides of an appliance's boxes are among the standing cuts.
pub fn appliances_are_standing()
    ensures { AppliancesAreStanding }
{}

/// The blocks that peerings tell are among the standing cuts.
pub fn fars_are_standing()
    ensures { FarsAreStanding }
{}

/// At each place there are the standing cuts, and those of the rows that are asked there: routes of the table
/// of a subnet or a gateway, rules of groups, routes of a transit gateway's table.
pub fn places_have_their_cuts()
    ensures { PlacesHaveTheirCuts }
{}

/// The cuts at each place are cuts of the description.
pub fn places_cut_the_description()
    ensures { PlacesCutTheDescription }
{}

/// The cuts on which the verdict of one request depends, those at the places of its two walks, are cuts of the description.
pub fn near_cuts_are_among_all()
    ensures { NearCutsAreAmongAll }
{}
