// What is known of printed reports, as clauses that crates above may cite.
ghost use Rattle.report_reader.specs.ReadsBack.{PrintedReportsFit, PrintedReportsReadBack, PrintedTreesFit, PrintedTreesReadBack};

/// A printed report reads as itself and is short enough to be read as a file: one about described ends whose ids
/// name them, with at most 20,000 rows inside its box.
pub fn report_laws()
    ensures reads_back { PrintedReportsReadBack }
    ensures fits { PrintedReportsFit }
{}

/// So does a printed tree: a cut tree of its box with at most 100,000 leaves.
pub fn tree_laws()
    ensures reads_back { PrintedTreesReadBack }
    ensures fits { PrintedTreesFit }
{}
