// What a matrix has to do with the questions of `ask`. The functions do nothing: their contracts say the laws.
ghost use Rattle.reach_matrix.specs.Asked.{PortsAreThoseOfAsk};
ghost use Rattle.reach_matrix.specs.Laws.{BlockedPairsAreAnswered, PortsAreAnswered, PortsAreAsked, PortsHaveFirsts};
ghost use Rattle.reach_matrix.specs.Naming.{WordsGiveTheQuery};

/// A port that was asked for stands in the line of a pair exactly where `ask` about that port alone finds a request that
/// gets through.
pub fn ports_are_answered()
    ensures { PortsAreAnswered }
{}

/// So it does exactly where the search of `ask` has a first one.
pub fn ports_have_firsts()
    ensures { PortsHaveFirsts }
{}

/// No port stands in a line that wasn't asked for.
pub fn ports_are_asked()
    ensures { PortsAreAsked }
{}

/// A pair is blocked exactly where `ask` about all of the ports finds none.
pub fn blocked_pairs_are_answered()
    ensures { BlockedPairsAreAnswered }
{}

/// The words of `ask` about a pair give the query of which the other laws speak, where neither id is the word `internet`.
pub fn words_give_the_query()
    ensures { WordsGiveTheQuery }
{}

/// The whole of it: of each port that was asked for, `ask` about the pair and that port alone ends with the status Yes exactly
/// where the port stands in the pair's line.
pub fn ports_are_those_of_ask()
    ensures { PortsAreThoseOfAsk }
{}
