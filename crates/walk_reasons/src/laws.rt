// Laws of what `why` tells.
ghost use Rattle.walk_reasons.specs.Laws.{DecisionsExplain, KeepsTrace, RewritingsAreTold};

/// What `why` tells without what decided is the text of `trace`, byte for byte. What decides at a place explains the step there: where an
/// ACL refuses the packet, or its route's target is gone, that is the last decision, and all others let it go on. A header is told
/// exactly where it is another one than before.
pub fn reason_laws()
    ensures trace { KeepsTrace }
    ensures steps { DecisionsExplain }
    ensures headers { RewritingsAreTold }
{}
