//! Laws of lists of packets in which the connections of many hosts are interleaved, as functions without a
//! body: what lets an answer through is an open that came before it.
#![tactic(auto)]

ghost use Rattle.replay_laws.specs.Interleaved.{AllAnswersAreLetIn, AllAnswersAreToOpens};

/// An answer passes the groups of an interface inward because a rule allows it, or because it is the reply
/// of an open that passed the interface outward in an earlier event.
pub fn lets_answers_in()
    ensures { AllAnswersAreLetIn }
{}

/// An answer passes a NAT gateway because it is the reply of an open that the gateway sent out in an earlier
/// event, and it goes on as the reply of that open as it was before.
pub fn returns_answers_to_opens()
    ensures { AllAnswersAreToOpens }
{}
