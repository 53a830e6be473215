// Laws of choices among rows.
ghost use Rattle.vpc_laws.specs.Choice.{AclRowsAreChosen, AclRowsMayBeSorted, ListsMatchByLongest, RoutesAreChosen, TgwRoutesAreChosen, UnroutedMatchNothing};

/// A route table chooses none only where no route is a candidate, and else the candidate that beats
/// every other.
pub fn chooses_routes()
    ensures { RoutesAreChosen }
{}

/// Where it chooses none, no route matches.
pub fn routes_what_matches()
    ensures { UnroutedMatchNothing }
{}

/// A route to a prefix list matches with the length of its longest entry that holds the address.
pub fn matches_by_longest_entry()
    ensures { ListsMatchByLongest }
{}

/// A transit gateway table chooses likewise.
pub fn chooses_transit_routes()
    ensures { TgwRoutesAreChosen }
{}

/// The verdict of an ACL is that of the matching row with the least number.
pub fn chooses_acl_rows()
    ensures { AclRowsAreChosen }
{}

/// An ACL may sort its rows by number, stably, and take the first that matches.
pub fn sorts_acl_rows()
    ensures { AclRowsMayBeSorted }
{}
