// Laws of accepted descriptions.
ghost use Rattle.vpc_laws.specs.Accepted.{AcceptedHasAllNamed, AcceptedHasNothingTwice, AcceptedHasShortLists, AcceptedIsFaultless, AcceptedNumbersAreInRange, AcceptedNumbersAreOwn, IdsAreFound, NatAddressesAreInterfaces};
ghost use Rattle.vpc_laws.specs.Hosts.{HostsAreAssignedOrDelegated};

/// Where a description is accepted, nothing is wrong of any kind.
pub fn has_no_fault()
    ensures { AcceptedIsFaultless }
{}

/// What its rows name is described.
pub fn describes_what_is_named()
    ensures { AcceptedHasAllNamed }
{}

/// Its ids and addresses differ, and nothing has two gateways, tables or ACLs.
pub fn has_nothing_twice()
    ensures { AcceptedHasNothingTwice }
{}

/// The interface that has an address has it assigned, or a block that holds it delegated.
pub fn hosts_by_address()
    ensures { HostsAreAssignedOrDelegated }
{}

/// In any description, an id that is there has a number.
pub fn finds_ids()
    ensures { IdsAreFound }
{}

/// In an accepted one it is the row's own.
pub fn numbers_rows()
    ensures { AcceptedNumbersAreOwn }
{}

/// Each subnet has a VPC, a table of that VPC and an ACL, each interface a subnet.
pub fn places_subnets()
    ensures { AcceptedNumbersAreInRange }
{}

/// A NAT gateway that translates has an interface with its address.
pub fn places_nat_gateways()
    ensures { NatAddressesAreInterfaces }
{}

/// None of its lists has more than 100,000 rows.
pub fn has_short_lists()
    ensures { AcceptedHasShortLists }
{}
