// What packets do inside a VPC.
ghost use Rattle.vpc_examples.specs.Examples.{LongestRouteIsChosen, TiesAreByKind, LocalRouteIsChosen, LeastNumberDecides, PropagatedLocalCounts, RowsAreOfOneProtocol, AnswersAreTracked, RemembersOnce, IsDelivered, IsBlocked, GetsThrough, ReplyIsStopped, ReplyIsAllowed, MembersArePrivate, StrayIsStopped};

/// The longest route is chosen, whether its target is there or gone.
pub fn chooses_the_longest_route()
    ensures { LongestRouteIsChosen }
{}

/// Of equally long routes the kind decides.
pub fn chooses_by_kind()
    ensures { TiesAreByKind }
{}

/// A propagated route doesn't stand beside a local one.
pub fn chooses_the_local_route()
    ensures { LocalRouteIsChosen }
{}

/// The matching row of a network ACL with the least number decides.
pub fn decides_by_the_least_number()
    ensures { LeastNumberDecides }
{}

/// A request to a port that the target's group allows is delivered inside a subnet.
pub fn delivers_inside_a_subnet()
    ensures { IsDelivered }
{}

/// A request to another port is stopped by the target's groups.
pub fn stops_at_the_groups()
    ensures { IsBlocked }
{}

/// A rule that names a group lets in what its members send, and the reply returns.
pub fn lets_members_through()
    ensures { GetsThrough }
{}

/// A network ACL knows no connections, so it stops a reply that none of its rows allows.
pub fn stops_the_reply_at_an_acl()
    ensures { ReplyIsStopped }
{}

/// The reply to a port that the ACL allows returns.
pub fn lets_the_reply_through()
    ensures { ReplyIsAllowed }
{}

/// An answer that belongs to no connection needs a rule.
pub fn stops_a_stray_answer()
    ensures { StrayIsStopped }
{}

/// The members of a group that a rule names are private addresses.
pub fn counts_private_members_alone()
    ensures { MembersArePrivate }
{}

/// A propagated route to the VPC itself counts.
pub fn counts_propagated_local_routes()
    ensures { PropagatedLocalCounts }
{}

/// A row of a network ACL matches its protocol and range alone.
pub fn matches_protocol_and_range()
    ensures { RowsAreOfOneProtocol }
{}

/// An answer is tracked at the interface that its open passed, in the other direction.
pub fn tracks_answers()
    ensures { AnswersAreTracked }
{}

/// The same open twice makes one connection.
pub fn remembers_once()
    ensures { RemembersOnce }
{}
