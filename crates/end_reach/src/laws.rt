// What is known of the rows that `reach` tells, as a clause each.
ghost use Rattle.end_reach.specs.Asked.{LinksAreStarts};
ghost use Rattle.end_reach.specs.Told.{RowsAreJoined};

/// Of the rows from one start no two that stand beside one another could be one: its boxes differ in their destinations
/// alone, and rows that could be one have the same.
pub fn rows_are_joined()
    ensures { RowsAreJoined }
{}

/// Where no start is given, the networks that aren't described among the starts are those behind which one network is taken to
/// lie, no more and no fewer: a reply to a request from one of them may arrive at any of them.
pub fn links_are_starts()
    ensures { LinksAreStarts }
{}
