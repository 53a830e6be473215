// Choices among rows.
ghost use Rattle.vpc_examples.specs.Choices.{FarAddressIsOutside, FirstRuleCounts, MainTableServesTheRest, PropagatedRouteCounts, RefusedOpenIsForgotten};

/// Outbound rules look at the destination, inbound ones at the source.
pub fn looks_at_the_far_address()
    ensures { FarAddressIsOutside }
{}

/// Of two rules that match the first counts; a rule may name two prefix lists.
pub fn counts_the_first_rule()
    ensures { FirstRuleCounts }
{}

/// The main table serves the subnets of its VPC that have no table of their own.
pub fn asks_the_main_table()
    ensures { MainTableServesTheRest }
{}

/// Propagated routes count where no local one matches, after those to prefix lists.
pub fn counts_propagated_routes()
    ensures { PropagatedRouteCounts }
{}

/// An open that groups refuse is not remembered there.
pub fn forgets_refused_opens()
    ensures { RefusedOpenIsForgotten }
{}
