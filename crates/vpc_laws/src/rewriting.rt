// Laws of what gateways rewrite.
ghost use Rattle.vpc_laws.specs.Rewriting.{InwardChangesDestination, NatChangesSourceAndPort, NatGivesBack, NatGivesOwnAddress, NatSourcesAreInterfaces, OutwardChangesSource, WalkGivesOwnAddresses, WalkKeepsFlow};

/// An internet gateway gives a packet on its way out the public address of its source.
pub fn changes_source_outward()
    ensures { OutwardChangesSource }
{}

/// An internet gateway gives a packet on its way in the private address of its destination.
pub fn changes_destination_inward()
    ensures { InwardChangesDestination }
{}

/// A NAT gateway gives an open a source and a source port, and remembers them.
pub fn translates_source_and_port()
    ensures { NatChangesSourceAndPort }
{}

/// The source is the gateway's private address.
pub fn translates_to_own_address()
    ensures { NatGivesOwnAddress }
{}

/// That is an address of an interface.
pub fn translates_to_an_interface()
    ensures { NatSourcesAreInterfaces }
{}

/// A whole walk keeps translations to own addresses.
pub fn keeps_own_addresses()
    ensures { WalkGivesOwnAddresses }
{}

/// An answer at a NAT gateway goes on to the source of the open that it answers.
pub fn gives_back()
    ensures { NatGivesBack }
{}

/// No walk changes the protocol of an open, its destination port or its ICMP type.
pub fn keeps_protocol_and_q()
    ensures { WalkKeepsFlow }
{}
