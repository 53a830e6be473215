// What is known of printed rows, as clauses that crates above may cite.
ghost use Rattle.listing_reader.specs.ReadsBack.{LinesFollowTwo, PrintedListsReadBack};

/// Rows that are printed by their starts read as themselves, where no two starts have one id and there are at most 20,000 rows, each
/// of a box that is asked for. The two lines before them change nothing.
pub fn listing_laws()
    ensures reads_back { PrintedListsReadBack }
    ensures follows { LinesFollowTwo }
{}
