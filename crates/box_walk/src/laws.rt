// Laws of what is asked. The functions do nothing: their contracts say the laws.
ghost use Rattle.box_walk.specs.Laws.{NothingStopsThrough, WordsHaveTexts};
ghost use Rattle.box_walk.specs.Seeking.{MissesNeverArrive};

/// In an accepted network a stop that is told of requests, or of their replies, has a text.
pub fn words_have_texts()
    ensures { WordsHaveTexts }
{}

/// An open that is stopped, or delivered to an interface that is neither the goal nor an appliance's, or to a NAT
/// gateway by its interface, doesn't arrive at the goal.
pub fn misses_never_arrive()
    ensures { MissesNeverArrive }
{}

/// What asks whether requests are stopped lets through exactly those that get through.
pub fn nothing_stops_through()
    ensures { NothingStopsThrough }
{}
