// Laws of one step.
ghost use Rattle.vpc_laws.specs.Onward.{StepsLeadOn};
ghost use Rattle.vpc_laws.specs.Step.{AnswerAddsNothing, ConnectionsChangeAtInterfaces, HeaderStays, NewOpensAreTranslated, OpenKeepsFlow, OpensPassByRules, PacketsPassByGroups, RefusedAreForgotten, RulesAreRemembered, StepAddsOwn, StepAddsTranslation, StepKeeps, StepsStopThemselves};

/// A step adds at most one connection: that of an open at the interface where it is. It is kept also
/// where the packet is then stopped.
pub fn adds_own_connection()
    ensures { StepAddsOwn }
{}

/// Connections change where packets leave and reach interfaces, and nowhere else.
pub fn changes_connections_at_interfaces()
    ensures { ConnectionsChangeAtInterfaces }
{}

/// A step adds at most one translation: that of an open at the NAT gateway where it is.
pub fn adds_translation_at_nat()
    ensures { StepAddsTranslation }
{}

/// Connections and translations are never forgotten.
pub fn keeps_what_was_there()
    ensures { StepKeeps }
{}

/// An answer leaves no trace.
pub fn answer_adds_nothing()
    ensures { AnswerAddsNothing }
{}

/// The protocol of an open, and its destination port or ICMP type, stay what they are.
pub fn open_keeps_protocol_and_q()
    ensures { OpenKeepsFlow }
{}

/// Headers are rewritten at internet gateways and NAT gateways, and nowhere else.
pub fn rewrites_at_gateways()
    ensures { HeaderStays }
{}

/// Only whole walks and verdicts stop packets by loops, by length, at wrong ends or without a reply.
pub fn stops_by_own_cause()
    ensures { StepsStopThemselves }
{}

/// Packets go on past the network ACLs that let them. Groups stop them at the interface that the stop names, and ACLs
/// stop those that they refuse.
pub fn leads_on()
    ensures { StepsLeadOn }
{}

/// Of the packets that leave and reach interfaces, opens that pass by a rule are remembered, and no
/// others.
pub fn remembers_opens_by_rule()
    ensures { RulesAreRemembered }
{}

/// Groups let a packet pass by their first rule that allows it, an answer also by tracking; an interface
/// without groups lets every packet pass.
pub fn passes_by_groups()
    ensures { PacketsPassByGroups }
{}

/// An open that a rule allows does pass.
pub fn passes_allowed_opens()
    ensures { OpensPassByRules }
{}

/// A packet that groups refuse leaves no trace.
pub fn forgets_refused()
    ensures { RefusedAreForgotten }
{}

/// NAT gateways remember the opens that they translate for the first time, and nothing else.
pub fn translates_new_opens()
    ensures { NewOpensAreTranslated }
{}
