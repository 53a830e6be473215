// What becomes of lines.
ghost use Rattle.report_examples.specs.FlowSorts.{AclIsNotAskedInside, AclKnowsNoConnections, DirectionIsByTheOwnAddress, GroupsAreConnected, LinesAreSkipped, LinesAreUnknown, MetFirstIsTold, NoGroupsLetPass, RejectedAnswersAgree, RulesHaveIds};

/// An interface that isn't described, whatever else the line says.
pub fn knows_no_such_interface()
    ensures { LinesAreUnknown }
{}

/// A gateway's interface, another protocol, IPv6, two own addresses or none.
pub fn skips_lines()
    ensures { LinesAreSkipped }
{}

/// Packets to the interface meet its inbound rules, packets from it its outbound ones.
pub fn goes_by_the_own_address()
    ensures { DirectionIsByTheOwnAddress }
{}

/// An accepted packet may answer a connection that its groups let come the other way.
pub fn lets_accepted_answers_pass()
    ensures { GroupsAreConnected }
{}

/// A rejected packet is no answer.
pub fn lets_no_rejected_answers_pass()
    ensures { RejectedAnswersAgree }
{}

/// Between neighbours no ACL is evaluated.
pub fn asks_no_acl_inside_a_subnet()
    ensures { AclIsNotAskedInside }
{}

/// The ACL judges answers like other packets.
pub fn asks_the_acl_of_answers()
    ensures { AclKnowsNoConnections }
{}

/// On the way in the ACL comes first, on the way out the groups do.
pub fn tells_what_is_met_first()
    ensures { MetFirstIsTold }
{}

/// An interface without groups lets everything pass.
pub fn passes_without_groups()
    ensures { NoGroupsLetPass }
{}

/// A rule that was told with an id goes by it.
pub fn names_rules_by_ids()
    ensures { RulesHaveIds }
{}
