// That the standing cuts of a description divide enough for what its edges ask.
ghost use Rattle.edge_gateways.specs.Laws.{OwnersAreCutOut, PublicsAreCutOut, SidesAreDivided};

/// Standing cuts lie before and after each private address of a described VPC that has a public one.
pub fn publics_are_cut_out()
    ensures { PublicsAreCutOut }
{}

/// They lie before and after each public address.
pub fn owners_are_cut_out()
    ensures { OwnersAreCutOut }
{}

/// They lie where the blocks of both VPCs of a peering begin and end.
pub fn sides_are_divided()
    ensures { SidesAreDivided }
{}
