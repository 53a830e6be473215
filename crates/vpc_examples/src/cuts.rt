// Where answers may change.
ghost use Rattle.vpc_examples.specs.CutRows.{AddressesAreCutAtPlaces, AllRowsCut, PortsAreCutAtPlaces, EdgesPastTheEndCutBelow, PrefixListsCut};

/// The addresses that are cut at each kind of place.
pub fn cuts_addresses_at_places()
    ensures { AddressesAreCutAtPlaces }
{}

/// The ports and protocols that are cut at a place.
pub fn cuts_ports_at_places()
    ensures { PortsAreCutAtPlaces }
{}

/// Edges past the end of a side.
pub fn cuts_below_the_end()
    ensures { EdgesPastTheEndCutBelow }
{}

/// The cuts of a whole description.
pub fn cuts_by_all_rows()
    ensures { AllRowsCut }
{}

/// Prefix lists that rules or routes name, and those that nothing names.
pub fn cuts_by_prefix_lists()
    ensures { PrefixListsCut }
{}
