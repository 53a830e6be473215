// What changes between small networks.
ghost use Rattle.change_examples.specs.Changed.{AclCloses, BothWaysOpen, GoneHostCloses, HostIsMoved, NewHostOpens, OneWayChangesNothing, OrderChangesNothing, RuleCloses, RuleOpens, SourcesOfEither, SplitChangesNothing, WayBackOpens};

/// A rule that is added opens its port.
pub fn rule_opens()
    ensures { RuleOpens }
{}

/// A rule that is taken out closes its port.
pub fn rule_closes()
    ensures { RuleCloses }
{}

/// A rule that is split in two changes nothing.
pub fn split_changes_nothing()
    ensures { SplitChangesNothing }
{}

/// An ACL that stops replies closes what they answer.
pub fn acl_closes()
    ensures { AclCloses }
{}

/// A route over a peering changes nothing where there is no route back.
pub fn one_way_changes_nothing()
    ensures { OneWayChangesNothing }
{}

/// Routes both ways over a peering open it from either side.
pub fn both_ways_open()
    ensures { BothWaysOpen }
{}

/// The route back over a peering opens it from either side.
pub fn way_back_opens()
    ensures { WayBackOpens }
{}

/// A host that is added opens what it sends.
pub fn new_host_opens()
    ensures { NewHostOpens }
{}

/// A host that is taken out closes what it sent.
pub fn gone_host_closes()
    ensures { GoneHostCloses }
{}

/// A host that is made anew under another id is another end.
pub fn host_is_moved()
    ensures { HostIsMoved }
{}

/// The order of interfaces changes nothing.
pub fn order_changes_nothing()
    ensures { OrderChangesNothing }
{}

/// Requests are asked from the addresses that a start has in either network.
pub fn sources_of_either()
    ensures { SourcesOfEither }
{}
