// What is known of cut trees, as clauses that crates above may cite.
ghost use Rattle.ordered_cover.specs.TreeLaws.{LeavesAreApart, LeavesAreCounted, LeavesAreWhole, LeavesHoldOnce, LeavesLieWithin, TreesAreReports};

/// The leaves of a cut tree of a valid box are valid boxes inside it, and hold each of its headers once. So where each
/// has the word of all its headers, they are a true report, and no two of them need to be compared.
pub fn cut_tree_laws<W>()
    ensures within { LeavesLieWithin W }
    ensures once { LeavesHoldOnce W }
    ensures apart { LeavesAreApart W }
    ensures whole { LeavesAreWhole W }
    ensures counted { LeavesAreCounted W }
    ensures reports { TreesAreReports W }
{}
